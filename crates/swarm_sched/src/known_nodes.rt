// What is remembered of nodes from one placement to the next.
ghost use Rattle.swarm_objects.specs.ChangeLists.{apply_changes};
ghost use Rattle.swarm_objects.specs.Usable.{IsUsable};
ghost use Rattle.swarm_objects.specs.World.{Tables};
ghost use Rattle.swarm_sched.specs.Inside.Known.{AreMoved};
ghost use Rattle.swarm_sched.specs.Inside.KnownNodes.{KnowsNodes};

use crate::classes::NodeClasses;
use crate::known::{KnownTotals, Moved, are_spared};
use crate::known_refusals::KnownRefusals;
use crate::last_group::LastGroup;
use std::alloc::Global;
use swarm_objects::{Change, Rows};

/// What the tasks on nodes come to, the nodes sorted by placement preferences, and which filters refused nodes waiting
/// tasks and those that were placed last.
#[derive(Drop)]
pub struct KnownNodes {
    pub(crate) totals: KnownTotals,
    pub(crate) classes: NodeClasses,
    pub(crate) refusals: KnownRefusals,
    pub(crate) placed: LastGroup,
}

impl KnownNodes {
    /// Nothing is remembered, and nothing will be. It takes no memory.
    pub fn none() -> KnownNodes
        ensures { (t : Tables) → KnowsNodes t result }
    {
        KnownNodes {
            totals: KnownTotals::none(),
            classes: NodeClasses::none(),
            refusals: KnownRefusals::none(),
            placed: LastGroup::none(),
        }
    }

    /// Nothing is remembered so far. What there is no memory for never will be.
    pub fn new(alloc: Global) -> KnownNodes
        ensures { (t : Tables) → KnowsNodes t result }
    {
        KnownNodes {
            totals: KnownTotals::new(alloc),
            classes: NodeClasses::new(alloc),
            refusals: KnownRefusals::new(alloc),
            placed: LastGroup::new(alloc),
        }
    }

    /// Forgets what these changes of the rows make untrue. It is asked before they are made, and gives what will be so
    /// of the nodes that are forgotten. Where a task counts as the one that it replaces, all stays as it is.
    #[tactic(auto, using(crate::proofs::Knowing::none_moved))]
    pub fn forget_changed<R: Rows>(&mut self, rows: &R, changes: &[Change]) -> Moved
        requires usable { IsUsable (R.tables rows.now) }
        requires knows { KnowsNodes (R.tables rows.now) self.old }
        ensures stays { KnowsNodes (R.tables rows.now) self.new }
        ensures goes_on { KnowsNodes (apply_changes (R.tables rows.now) changes.now) self.new }
        ensures moved { AreMoved (apply_changes (R.tables rows.now) changes.now) result }
    {
        if are_spared(rows, changes) {
            return Moved::NONE;
        }
        let moved = self.totals.forget_changed(rows, changes);
        self.classes.forget_changed(rows, changes);
        self.refusals.forget_changed(rows, changes);
        self.placed.forget_changed(rows, changes);
        moved
    }

    /// Remembers of the nodes what is so by now.
    pub fn remember(&mut self, moved: Moved)
        ensures { (t : Tables) → KnowsNodes t self.old → AreMoved t moved → KnowsNodes t self.new }
    {
        self.totals.remember_moved(moved);
    }

    /// Forgets all.
    pub fn forget_all(&mut self)
        ensures { (t : Tables) → KnowsNodes t self.new }
    {
        self.totals.forget_all();
        self.classes.forget();
        self.refusals.forget_all();
        self.placed.forget_all();
    }
}
