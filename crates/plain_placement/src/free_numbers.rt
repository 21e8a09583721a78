// The least numbers that are free: ports of a protocol, and addresses of a network.
ghost use Rattle.std.specs.Prelude.{◌≡◌, ◌+◌, ◌-◌, ◌^◌, ◌<◌, IfSome, find, is_none, true};
ghost use Rattle.std.specs.List.{list_all, list_any};
ghost use Rattle.swarm_objects.specs.Loops.Allocator.{has_free_address, has_free_port};
ghost use Rattle.swarm_objects.specs.Rules.Networks.{subnet_breaks, subnet_rules};
ghost use Rattle.swarm_objects.specs.Services.Ports.{free_port, holds_port};
ghost use Rattle.swarm_objects.specs.Sound.{is_subnet};
ghost use Rattle.swarm_objects.specs.Tasks.Addresses.{addresses_held, free_address, free_in};
ghost use Rattle.swarm_plain.specs.Plain.{tables_of};
ghost use Rattle.swarm_objects.specs.Tasks.Holders.{holds_address};

use swarm_alloc::holds_address;
use swarm_objects::ports::holds_port;
use swarm_objects::{Id, Network, Rows};
use swarm_plain::Plain;

// The numbers that open ingress ports are given.
const FIRST_PORT: u16 = 30_000;

const LAST_PORT: u16 = 32_767;

// A service holds the number of this protocol.
fn is_port_held(plain: &Plain, udp: bool, number: u16) -> bool
    ensures { result ≡ list_any (holds_port udp number) (tables_of plain.now).services }
{
    plain
        .services
        .as_slice()
        .iter()
        .any(|service| holds_port(udp, number, service))
}

/// The least number of the protocol that no service holds.
pub fn free_port(plain: &Plain, udp: bool) -> Option<u16>
    ensures { result ≡ free_port (tables_of plain.now) udp }
{
    for number in FIRST_PORT..=LAST_PORT {
        if !is_port_held(plain, udp, number) {
            return Some(number);
        }
    }
    None
}

/// A number of the protocol is free.
pub fn has_free_port(plain: &Plain, udp: bool) -> bool
    ensures { result ≡ has_free_port (tables_of plain.now) udp }
{
    free_port(plain, udp).is_some()
}

fn is_address_held(plain: &Plain, network: Id, number: u64) -> bool
    ensures { result ≡ list_any (holds_address network number) (tables_of plain.now).tasks }
{
    plain
        .tasks
        .as_slice()
        .iter()
        .any(|task| holds_address(network, number, task))
}

// The last address that a task may have; the one behind it is the network's last.
fn last_address(base: u32, length: u8) -> u64
    ensures value { result ≡ base + 2 ^ (32 - length) - 2 }
    ensures fits { is_none (find (subnet_breaks base length) subnet_rules) ≡ true → result < 2 ^ 32 }
{
    let size = 2u64.pow(32u32.saturating_sub(u32::from(length)));
    (u64::from(base) + size).saturating_sub(2)
}

// The least address of this network that no task holds; those of a subnet have 32 bits.
fn free_in(plain: &Plain, id: Id, network: &Network) -> Option<u64>
    ensures value { result ≡ free_in (addresses_held (tables_of plain.now) id) network.now }
    ensures fits { is_subnet network.now ≡ true → IfSome result (λ number. number < 2 ^ 32) }
{
    let first = u64::from(network.base) + 2;
    for number in first..=last_address(network.base, network.length) {
        if !is_address_held(plain, id, number) {
            return Some(number);
        }
    }
    None
}

/// The least address of the network that is free; none of one that is gone.
pub fn free_address(plain: &Plain, network: Id) -> Option<u64>
    ensures value { result ≡ free_address (tables_of plain.now) network }
    ensures fits { list_all is_subnet (tables_of plain.now).networks ≡ true →
        IfSome result (λ number. number < 2 ^ 32) }
{
    match plain.network(network) {
        Some(row) => free_in(plain, network, row),
        None => None,
    }
}

/// An address of the network is free.
pub fn has_free_address(plain: &Plain, network: Id) -> bool
    ensures { result ≡ has_free_address (tables_of plain.now) network }
{
    free_address(plain, network).is_some()
}
