// Times of owners.
ghost use Rattle.std.specs.Prelude.{◌≡◌, ◌↔◌, [], OnErr, OnOk, ℕ};
ghost use Rattle.std.specs.Option.{option_map};
ghost use Rattle.swarm_objects.specs.Rows.{Has, IsRising, row_at};
ghost use Rattle.swarm_timers.specs.Inside.{LeavesFormer, timer_at};
ghost use Rattle.swarm_timers.specs.Timers.{AreInOrder, due_owner, first_timer, next_time};
ghost use Rattle.swarm_timers.specs.Timers.{timer_owner, timer_time, with_time, without_time};

use crate::times::Times;
use std::alloc::Global;
use std::collections::BTreeMap;
use std::collections::btree_set::Iter;
use std::marker::Model;
use swarm_objects::{Id, Ms, NoMemory};

/// Owners with a time each, by rising owner. No call goes through all of them. Only `set` takes memory.
#[derive(Drop)]
pub struct Timers {
    by_owner: BTreeMap<Id, Ms>,
    by_time: Times,
}

impl Model for Timers {
    ghost use Rattle.std.specs.Prelude.{List};
    ghost use Rattle.swarm_timers.specs.Inside.{AreSame, timers_of};
    ghost use Rattle.swarm_timers.specs.Timers.{Timer};

    ghost Value = { List Timer };

    ghost view = { λ t. timers_of t.by_owner.entries };

    ghost invariant = { λ t. AreSame t.by_owner.entries t.by_time.set };
}

// The owner's former time goes, unless it is the new one.
fn leave_former(times: &mut Times, owner: Id, former: Option<Ms>, at: Ms)
    ensures { LeavesFormer owner former at times.old.set times.new.set }
{
    match former {
        Some(former) if former != at => times.remove(former, owner),
        _ => {}
    }
}

impl Timers {
    /// No owner has a time.
    pub fn new(alloc: Global) -> Timers
        ensures { result ≡ [] }
    {
        Timers {
            by_owner: BTreeMap::new(alloc),
            by_time: Times::new(alloc),
        }
    }

    /// The owner's time is this one, whatever it was. Where memory is wanting, nothing changes.
    pub fn set(&mut self, owner: Id, at: Ms) -> Result<(), NoMemory>
        ensures ok { OnOk result (self.new ≡ with_time owner at self.old) }
        ensures err { OnErr result (self.new ≡ self.old) }
        ensures rises { IsRising timer_owner self.new }
    {
        // All that may be refused comes first.
        let Ok(()) = self.by_time.add(at, owner) else {
            return Err(NoMemory);
        };
        match self.by_owner.insert(owner, at) {
            Ok(former) => {
                leave_former(&mut self.by_time, owner, former, at);
                Ok(())
            }
            Err(_) => {
                self.by_time.remove(at, owner);
                Err(NoMemory)
            }
        }
    }

    /// The owner has no time.
    pub fn clear(&mut self, owner: Id)
        ensures { self.new ≡ without_time owner self.old }
    {
        if let Some(at) = self.by_owner.remove(&owner) {
            self.by_time.remove(at, owner);
        }
    }

    /// The owner's time.
    pub fn get(&self, owner: Id) -> Option<Ms>
        ensures { result ≡ option_map timer_time (row_at timer_owner owner self.now) }
    {
        match self.by_owner.get(&owner) {
            Some(at) => Some(*at),
            None => None,
        }
    }

    /// The times with their owners: by rising time, and at one time by rising owner.
    pub fn iter(&self) -> Iter<'_, (Ms, Id)>
        ensures all { (at owner : ℕ) → Has result (at, owner) ↔ Has self.now (record { owner = owner; at = at }) }
        ensures order { AreInOrder result }
    {
        self.by_time.iter()
    }

    // The first time with its owner.
    fn first(&self) -> Option<(Ms, Id)>
        ensures { option_map timer_at result ≡ first_timer self.now }
    {
        self.by_time.first()
    }

    /// The least owner of the least time, where this time is at most now.
    pub fn due(&self, now: Ms) -> Option<Id>
        ensures { result ≡ due_owner now self.now }
    {
        let Some((at, owner)) = self.first() else {
            return None;
        };
        if at <= now { Some(owner) } else { None }
    }

    /// The least time.
    pub fn next(&self) -> Option<Ms>
        ensures { result ≡ next_time self.now }
    {
        match self.first() {
            Some((at, _)) => Some(at),
            None => None,
        }
    }
}
