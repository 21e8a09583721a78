// The texts of objects, places and addresses.
ghost use Rattle.swarm_objects.specs.Writers.{Puts};
ghost use Rattle.swarm_print.specs.Objects.{shown_text, place_text, service_place_text, node_text, address_text, subnet_text};

use std::alloc::AllocError;
use std::fmt::Write;
use swarm_objects::views::{PlaceShown, Shown};

pub fn put_shown(text: &mut String, shown: &Shown) -> Result<(), AllocError>
    ensures { Puts result text.old text.new (shown_text shown.now) }
{
    match shown {
        Shown::Name(name) => text.push_str(name.as_str()),
        Shown::Id(id) => write!(text, "{id}"),
    }
}

pub fn put_place(text: &mut String, place: &PlaceShown) -> Result<(), AllocError>
    ensures { Puts result text.old text.new (place_text place.now) }
{
    match place {
        PlaceShown::Slot(slot) => write!(text, "{slot}"),
        PlaceShown::On(node) => put_shown(text, node),
    }
}

/// Puts the service and the place, with a dot between them.
pub fn put_service_place(
    text: &mut String,
    service: &Shown,
    place: &PlaceShown,
) -> Result<(), AllocError>
    ensures { Puts result text.old text.new (service_place_text service.now place.now) }
{
    put_shown(text, service)?;
    text.push_str(".")?;
    put_place(text, place)
}

pub fn put_node_of(text: &mut String, node: &Option<Shown>) -> Result<(), AllocError>
    ensures { Puts result text.old text.new (node_text node.now) }
{
    match node {
        Some(node) => put_shown(text, node),
        None => text.push_str("-"),
    }
}

pub fn put_address(text: &mut String, address: u32) -> Result<(), AllocError>
    ensures { Puts result text.old text.new (address_text address) }
{
    let [first, second, third, fourth] = address.to_be_bytes();
    write!(text, "{first}.{second}.{third}.{fourth}")
}

#[tactic(auto, unfolding(crate::specs::Objects::subnet_text))]
pub fn put_subnet(text: &mut String, base: u32, length: u8) -> Result<(), AllocError>
    ensures { Puts result text.old text.new (subnet_text base length) }
{
    put_address(text, base)?;
    write!(text, "/{length}")
}
