// How many addresses of a network are held without a gap, from one number on. One pass over the tasks tells it of as many
// numbers as a word has bits.
ghost use Rattle.std.specs.Prelude.{◌≡◌, ◌≤◌, ◌+◌, ◌==◌};
ghost use Rattle.std.specs.List.{list_any};
ghost use Rattle.swarm_alloc.specs.Runs.{HasMore, IsHeldRun};
ghost use Rattle.swarm_objects.specs.Tasks.Holders.{holds_address, is_address};
ghost use Rattle.swarm_objects.specs.Usable.{IsUsable};

use swarm_objects::walks::tasks;
use swarm_objects::{Address, Id, Rows, Task};
use swarm_pools::{low_ones, with_bit};

/// How many numbers one pass tells of.
pub const WORD: u64 = 64;

// With the bit of this number, where the word has one for it.
fn with_number(word: u64, from: u64, number: u64) -> u64
    ensures { HasMore word result (λ place. number == from + place) }
{
    if number < from {
        return word;
    }
    let place = number - from;
    if place < WORD {
        with_bit(word, place)
    } else {
        word
    }
}

fn with_address(word: u64, network: Id, from: u64, address: Address) -> u64
    ensures { HasMore word result (λ place. is_address network (from + place) address) }
{
    if address.network == network {
        with_number(word, from, u64::from(address.number))
    } else {
        word
    }
}

fn with_addresses(word: u64, network: Id, from: u64, addresses: &[Address]) -> u64
    ensures { HasMore word result (λ place. list_any (is_address network (from + place)) addresses.now) }
{
    let mut more = word;
    for address in addresses {
        more = with_address(more, network, from, *address);
    }
    more
}

// With the addresses that the task holds.
fn with_task(word: u64, network: Id, from: u64, task: &Task) -> u64
    ensures { HasMore word result (λ place. holds_address network (from + place) task.now) }
{
    if task.is_not_over() {
        with_addresses(word, network, from, task.addresses.as_slice())
    } else {
        word
    }
}

/// How many addresses of the network are held without a gap, from this one on: up to the last, and up to those of a
/// word. Where all are held, the pass over the tasks ends as soon as that is known.
pub fn addresses_held_from<R: Rows>(rows: &R, network: Id, from: u64, last: u64) -> u64
    requires usable { IsUsable (R.tables rows.now) }
    requires order { from ≤ last }
    ensures { IsHeldRun (λ number. list_any (holds_address network number) (R.tables rows.now).tasks) from last result }
{
    let mut word = 0;
    for task in tasks(rows) {
        word = with_task(word, network, from, task);
        let held = low_ones(word);
        if held == WORD || last - from < held {
            return held;
        }
    }
    low_ones(word)
}
