// What is counted of a service's places.
ghost use Rattle.std.specs.Prelude.{◌≡◌, ◌+◌, ◌<◌, ◌^◌, length};
ghost use Rattle.role_words.specs.Slots.{slots};
ghost use Rattle.role_words.specs.Tallies.{counted, empty, tally_of};

use crate::reading::slots_among;
use crate::window::Slot;
use swarm_objects::{Service, Task};

/// How many places have a live task, how many are held, and the least number from a first one on that isn't held.
#[derive(Clone, Copy, Drop)]
pub struct Tally {
    pub live: u64,
    pub held: u64,
    pub gap: u64,
}

impl Tally {
    /// Nothing was counted. The gap is looked for from this number on.
    pub fn new(from: u64) -> Tally
        ensures { result ≡ empty from }
    {
        Tally {
            live: 0,
            held: 0,
            gap: from,
        }
    }

    /// Counts the next place, by rising number.
    pub fn count(&mut self, slot: Slot)
        requires live { self.old.live + 1 < 2 ^ 64 }
        requires held { self.old.held + 1 < 2 ^ 64 }
        requires gap { self.old.gap + 1 < 2 ^ 64 }
        ensures { self.new ≡ counted self.old slot }
    {
        if slot.is_live {
            self.live += 1;
        }
        if slot.is_held {
            self.held += 1;
            if slot.number == self.gap {
                self.gap += 1;
            }
        }
    }
}

// There are few of them.
fn are_few(tasks: &[Task])
    ensures { 2 ^ 32 + length tasks.now < 2 ^ 64 }
{
    let _count = tasks.len();
}

/// How many places of the service have a live one of these tasks, how many are held, and the least number from this
/// one on that isn't held.
pub fn tally_of(service: &Service, tasks: &[Task], from: u32) -> Tally
    ensures { result ≡ tally_of from (slots service.now tasks.now) }
{
    are_few(tasks);
    let mut tally = Tally::new(u64::from(from));
    for slot in slots_among(service, tasks) {
        tally.count(slot);
    }
    tally
}
