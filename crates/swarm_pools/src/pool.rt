// Numbers to give out.
ghost use Rattle.std.specs.Prelude.{◌≡◌, ◌≤◌, ◌+◌, ◌-◌, [], OnOk, OnErr};
ghost use Rattle.swarm_objects.specs.Rows.{drop_row, first_free, itself, with_number};

use crate::places::Places;
use std::alloc::Global;
use std::marker::Model;
use swarm_objects::NoMemory;

/// The numbers from a first to a last one, of which some are taken.
#[derive(Drop)]
pub struct Pool {
    alloc: Global,
    first: u32,
    last: u32,
    places: Places,
}

impl Model for Pool {
    ghost use Rattle.swarm_pools.specs.Numbers.{HasShape, Numbers, numbers};

    ghost Value = { Numbers };

    ghost view = { λ p. numbers p.first p.last p.places };

    ghost invariant = { λ p. HasShape p.first p.last p.places };
}

// How many numbers there are from the first to the last.
fn count(first: u32, last: u32) -> u64
    requires { first ≤ last }
    ensures { result ≡ last - first + 1 }
{
    u64::from(last - first) + 1
}

impl Pool {
    /// All numbers from the first to the last, and none taken.
    pub fn new(alloc: Global, first: u32, last: u32) -> Pool
        requires { first ≤ last }
        ensures { result ≡ record { first = first; last = last; taken = [] } }
    {
        Pool {
            alloc,
            first,
            last,
            places: Places::Clear,
        }
    }

    /// The least number that isn't taken, found in as many steps as the count of the numbers has halvings.
    pub fn least_free(&self) -> Option<u32>
        ensures { result ≡ first_free self.now.first self.now.last self.now.taken }
    {
        let size = count(self.first, self.last);
        if self.places.is_full(size) {
            None
        } else {
            Some(self.first + self.places.least_free(size) as u32)
        }
    }

    /// Takes the number; one that is taken stays so.
    pub fn take(&mut self, number: u32) -> Result<(), NoMemory>
        requires first { self.old.first ≤ number }
        requires last { number ≤ self.old.last }
        ensures ok { OnOk result (self.new ≡ record self.old { taken = with_number number self.old.taken }) }
        ensures err { OnErr result (self.new ≡ self.old) }
    {
        let size = count(self.first, self.last);
        self.places
            .take(self.alloc, size, u64::from(number - self.first))
    }

    /// Gives the number back; one that is free stays so. It takes no memory.
    pub fn give(&mut self, number: u32)
        requires first { self.old.first ≤ number }
        requires last { number ≤ self.old.last }
        ensures { self.new ≡ record self.old { taken = drop_row itself number self.old.taken } }
    {
        let size = count(self.first, self.last);
        self.places.give(size, u64::from(number - self.first));
    }
}
