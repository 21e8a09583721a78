// Times with their owners, in the order of the times.
ghost use Rattle.std.specs.Prelude.{◌≡◌, OnErr, OnOk, ℕ, false};
ghost use Rattle.std.specs.BTreeSet.{IsOrdered};
ghost use Rattle.swarm_timers.specs.Inside.{AddsTime, DropsTime, IsFirstTime, KeepsTimes, has_time};
ghost use Rattle.swarm_timers.specs.Timers.{time_cmp};

use std::alloc::Global;
use std::collections::BTreeSet;
use std::collections::btree_set::Iter;
use swarm_objects::{Id, Ms, NoMemory};

#[derive(Drop)]
pub struct Times {
    set: BTreeSet<(Ms, Id)>,
}

impl Times {
    // No times. It takes no memory.
    pub fn new(alloc: Global) -> Times
        ensures { (at owner : ℕ) → has_time result.set at owner ≡ false }
    {
        Times {
            set: BTreeSet::new(alloc),
        }
    }

    // One time more, unless memory is wanting.
    pub fn add(&mut self, at: Ms, owner: Id) -> Result<(), NoMemory>
        ensures ok { OnOk result (AddsTime at owner self.old.set self.new.set) }
        ensures err { OnErr result (KeepsTimes self.old.set self.new.set) }
    {
        match self.set.insert((at, owner)) {
            Ok(_) => Ok(()),
            Err(_) => Err(NoMemory),
        }
    }

    // One time less. It takes no memory.
    pub fn remove(&mut self, at: Ms, owner: Id)
        ensures { DropsTime at owner self.old.set self.new.set }
    {
        self.set.remove(&(at, owner));
    }

    // The least time, and of its owners the least.
    pub fn first(&self) -> Option<(Ms, Id)>
        ensures { IsFirstTime self.now.set result }
    {
        match self.set.first() {
            Some(first) => Some(*first),
            None => None,
        }
    }

    // All, by rising time, and at one time by rising owner.
    pub fn iter(&self) -> Iter<'_, (Ms, Id)>
        ensures rest { result ≡ self.now.set.keys }
        ensures order { IsOrdered time_cmp self.now.set }
    {
        self.set.iter()
    }
}
