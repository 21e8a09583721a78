// The least address that is free, found by a pool.
ghost use Rattle.std.specs.Prelude.{◌≡◌, ◌≤◌, ◌+◌, IfOk, IfSome, length, min, true};
ghost use Rattle.swarm_objects.specs.Rows.{first_free};
ghost use Rattle.swarm_objects.specs.Sound.{is_subnet};
ghost use Rattle.swarm_objects.specs.Tasks.Addresses.{addresses_held, free_address, free_in};
ghost use Rattle.swarm_objects.specs.Usable.{IsUsable};

use crate::held::held_addresses;
use std::alloc::Global;
use swarm_objects::{Id, Network, NoMemory, Rows};
use swarm_pools::{Pool, usable};

// The last number that the least free one can be: all numbers below that one are held, so no more lie between the first
// and it than there are held ones.
fn last_needed(first: u32, last: u32, held: &[u32]) -> u32
    requires { first ≤ last }
    ensures { result ≡ min last (first + length held.now) }
{
    if held.len() < (last - first) as usize {
        first + held.len() as u32
    } else {
        last
    }
}

/// The least number from the first to the last that is none of these.
pub fn free_number(
    alloc: Global,
    first: u32,
    last: u32,
    held: &[u32],
) -> Result<Option<u32>, NoMemory>
    requires { first ≤ last }
    ensures value { IfOk result (λ free. free ≡ first_free first last held.now) }
    ensures most { IfOk result (λ free. IfSome free (λ number. number ≤ last)) }
{
    let needed = last_needed(first, last, held);
    let mut pool = Pool::new(alloc, first, needed);
    for number in held {
        if first <= *number && *number <= needed {
            pool.take(*number)?;
        }
    }
    Ok(pool.least_free())
}

// The least address of this network that no task holds.
fn free_in<R: Rows>(
    alloc: Global,
    rows: &R,
    id: Id,
    network: &Network,
) -> Result<Option<u32>, NoMemory>
    requires tables { IsUsable (R.tables rows.now) }
    requires subnet { is_subnet network.now ≡ true }
    ensures { IfOk result (λ free. free ≡ free_in (addresses_held (R.tables rows.now) id) network.now) }
{
    let (first, last) = usable(network.base, network.length);
    let held = held_addresses(alloc, rows, id)?;
    free_number(alloc, first, last, held.as_slice())
}

/// The least address of the network that is free; none of one that is gone.
pub fn free_address<R: Rows>(alloc: Global, rows: &R, network: Id) -> Result<Option<u32>, NoMemory>
    requires { IsUsable (R.tables rows.now) }
    ensures { IfOk result (λ free. free ≡ free_address (R.tables rows.now) network) }
{
    match rows.network(network) {
        Some(row) => free_in(alloc, rows, network, row),
        None => Ok(None),
    }
}
