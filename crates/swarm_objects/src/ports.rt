// The numbers of ports.
ghost use Rattle.std.specs.Prelude.{not, ◌&&◌, ◌≡◌, IfOk, Some};
ghost use Rattle.std.specs.List.{list_any};
ghost use Rattle.std.specs.Option.{option_eq};
ghost use Rattle.swarm_objects.specs.Same.{same_number};
ghost use Rattle.swarm_objects.specs.Rules.Services.{is_host_clash};
ghost use Rattle.swarm_objects.specs.Services.Ports.{gives_number, has_port_number, holds_port, is_numbered, is_open_in, kept_numbers, ports_of};

use crate::{Id, List, NoMemory, Port, PortNumber, Service, ServiceSpec, add};
use std::alloc::Global;

// The port has this protocol and number.
fn has_port_number(udp: bool, number: u16, port: Port) -> bool
    ensures { result ≡ has_port_number udp number port }
{
    port.udp == udp && port.number == Some(number)
}

fn is_numbered(udp: bool, number: u16, given: PortNumber) -> bool
    ensures { result ≡ is_numbered udp number given }
{
    given.udp == udp && given.number == number
}

fn has_number(udp: bool, number: u16, ports: &[Port]) -> bool
    ensures { result ≡ list_any (has_port_number udp number) ports.now }
{
    ports.iter().any(|port| has_port_number(udp, number, *port))
}

// The specification that was there before the last change names it.
fn had_number(udp: bool, number: u16, previous: &Option<ServiceSpec>) -> bool
    ensures { result ≡ list_any (has_port_number udp number) (ports_of previous.now) }
{
    match previous {
        Some(spec) => has_number(udp, number, spec.ports.as_slice()),
        None => false,
    }
}

fn was_given(udp: bool, number: u16, numbers: &[PortNumber]) -> bool
    ensures { result ≡ list_any (is_numbered udp number) numbers.now }
{
    numbers.iter().any(|given| is_numbered(udp, number, *given))
}

/// The service holds the number of this protocol.
pub fn holds_port(udp: bool, number: u16, service: &Service) -> bool
    ensures { result ≡ holds_port udp number service.now }
{
    has_number(udp, number, service.spec.ports.as_slice())
        || had_number(udp, number, &service.previous)
        || was_given(udp, number, service.numbers.as_slice())
}

/// The service is another one, and holds the number of this protocol.
pub fn is_other_holder(own: Option<Id>, udp: bool, number: u16, service: &Service) -> bool
    ensures { result ≡
        (not (option_eq same_number own (Some service.now.id)) && holds_port udp number service.now) }
{
    own != Some(service.id) && holds_port(udp, number, service)
}

/// The number was given to the port.
pub fn gives_number(port: Port, given: PortNumber) -> bool
    ensures { result ≡ gives_number port given }
{
    given.target == port.target && given.udp == port.udp
}

/// One of the ports is open, and this is its number.
pub fn is_open_in(ports: &[Port], given: PortNumber) -> bool
    ensures { result ≡ is_open_in ports.now given }
{
    ports
        .iter()
        .any(|port| port.number.is_none() && gives_number(*port, given))
}

/// The numbers that the service keeps with this specification and the one that it had.
pub fn kept_numbers(
    alloc: Global,
    service: &Service,
    spec: &ServiceSpec,
) -> Result<List<PortNumber>, NoMemory>
    ensures { IfOk result (λ kept. kept ≡ kept_numbers service.now.numbers spec.now (Some service.now.spec)) }
{
    let mut kept = List::new(alloc);
    for given in service.numbers.as_slice() {
        if is_open_in(spec.ports.as_slice(), *given)
            || is_open_in(service.spec.ports.as_slice(), *given)
        {
            add(&mut kept, *given)?;
        }
    }
    Ok(kept)
}

/// The two are host ports of one protocol and number.
pub fn is_host_clash(one: &Port, two: &Port) -> bool
    ensures { result ≡ is_host_clash one.now two.now }
{
    one.udp == two.udp && one.number.is_some() && one.number == two.number
}
