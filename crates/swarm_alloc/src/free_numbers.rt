// The least numbers that are free, found without memory: ports of a protocol, by a flag for each number, and addresses of
// a network, by words of numbers.
ghost use Rattle.std.specs.Prelude.{◌≡◌, ◌+◌, ◌-◌, ◌^◌};
ghost use Rattle.std.specs.List.{list_any};
ghost use Rattle.swarm_objects.specs.Loops.Allocator.{has_free_address, has_free_port};
ghost use Rattle.swarm_objects.specs.Services.Ports.{free_port};
ghost use Rattle.swarm_objects.specs.Tasks.Addresses.{addresses_held, free_address, free_in};
ghost use Rattle.swarm_objects.specs.Usable.{IsUsable};
ghost use Rattle.swarm_objects.specs.Tasks.Holders.{holds_address, is_address};

use crate::held_ports::held_ports;
use crate::ports::{FIRST_PORT, LAST_PORT};
use crate::runs::{WORD, addresses_held_from};
use swarm_objects::{Address, Id, Network, Rows, Task};

/// The least number of the protocol that no service holds.
pub fn free_port<R: Rows>(rows: &R, udp: bool) -> Option<u16>
    requires { IsUsable (R.tables rows.now) }
    ensures { result ≡ free_port (R.tables rows.now) udp }
{
    let held = held_ports(rows, udp);
    let mut number = FIRST_PORT;
    while number <= LAST_PORT {
        if !held[usize::from(number - FIRST_PORT)] {
            return Some(number);
        }
        number += 1;
    }
    None
}

/// A number of the protocol is free.
pub fn has_free_port<R: Rows>(rows: &R, udp: bool) -> bool
    requires { IsUsable (R.tables rows.now) }
    ensures { result ≡ has_free_port (R.tables rows.now) udp }
{
    free_port(rows, udp).is_some()
}

fn is_address(network: Id, number: u64, address: Address) -> bool
    ensures { result ≡ is_address network number address }
{
    address.network == network && u64::from(address.number) == number
}

fn has_address(network: Id, number: u64, addresses: &[Address]) -> bool
    ensures { result ≡ list_any (is_address network number) addresses.now }
{
    addresses
        .iter()
        .any(|address| is_address(network, number, *address))
}

/// The task is up to RUNNING, and has this address.
pub fn holds_address(network: Id, number: u64, task: &Task) -> bool
    ensures { result ≡ holds_address network number task.now }
{
    task.is_not_over() && has_address(network, number, task.addresses.as_slice())
}

// The last address that a task may have; the one behind it is the network's last.
fn last_address(base: u32, length: u8) -> u64
    ensures { result ≡ base + 2 ^ (32 - length) - 2 }
{
    let size = 2u64.pow(32u32.saturating_sub(u32::from(length)));
    (u64::from(base) + size).saturating_sub(2)
}

// The least address of this network that no task holds.
fn free_in<R: Rows>(rows: &R, id: Id, network: &Network) -> Option<u64>
    requires { IsUsable (R.tables rows.now) }
    ensures { result ≡ free_in (addresses_held (R.tables rows.now) id) network.now }
{
    let last = last_address(network.base, network.length);
    let mut number = u64::from(network.base) + 2;
    while number <= last {
        let held = addresses_held_from(rows, id, number, last);
        number += held;
        if held < WORD && number <= last {
            return Some(number);
        }
    }
    None
}

// The least address of the network that is free; none of one that is gone.
fn free_address<R: Rows>(rows: &R, network: Id) -> Option<u64>
    requires { IsUsable (R.tables rows.now) }
    ensures { result ≡ free_address (R.tables rows.now) network }
{
    match rows.network(network) {
        Some(row) => free_in(rows, network, row),
        None => None,
    }
}

/// An address of the network is free.
pub fn has_free_address<R: Rows>(rows: &R, network: Id) -> bool
    requires { IsUsable (R.tables rows.now) }
    ensures { result ≡ has_free_address (R.tables rows.now) network }
{
    free_address(rows, network).is_some()
}
