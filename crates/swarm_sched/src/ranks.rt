// The nodes of each class by rising live tasks: a placement looks at those with the fewest first.
ghost use Rattle.std.specs.List.{slice_get};
ghost use Rattle.std.specs.Prelude.{◌≡◌, ◌≤◌, ◌<◌, ◌-◌, IfSome, IsSome, IsTrue, List as Seq, Some, length, take, true};
ghost use Rattle.std.specs.Prelude.{ℕ};
ghost use Rattle.swarm_objects.specs.ChangeLists.{apply_change, apply_changes};
ghost use Rattle.swarm_objects.specs.Rows.{Has, RisesFrom};
ghost use Rattle.swarm_objects.specs.Tasks.Words.{is_live};
ghost use Rattle.swarm_objects.specs.Usable.{IsUsable};
ghost use Rattle.swarm_objects.specs.World.{Tables};
ghost use Rattle.swarm_sched.specs.Inside.Classes.{AreFew, entry_id};
ghost use Rattle.swarm_sched.specs.Inside.Known.{Knows, adds, one_if};
ghost use Rattle.swarm_sched.specs.Inside.Ranks.{AreCurrent, AreRanked, AreRight, AreStaler, AreUnranked, HaveSame};
ghost use Rattle.swarm_sched.specs.Inside.Ranks.{IsEntered, IsLeft, IsNumbered, IsPut, IsRight, IsStale, of_class};

use crate::class_loads::entry_of;
use crate::classes::{CLASSES, ClassedNode};
use crate::known::{KnownTotals, added_load};
use crate::touching::{former_node, touched};
use std::alloc::Global;
use std::marker::Model;
use swarm_objects::{Change, Id, Rows, Task};
use swarm_timers::Timers;

/// So many nodes are stale at most: to make all anew costs less than to keep account of more.
const MOST_STALE: usize = 4096;

/// The nodes of each class by rising live tasks. How many a node has stands as its time among `Timers`. A node of which
/// tasks may have come or gone is stale: it gets its number anew at the next placement.
#[derive(Drop)]
pub struct Ranks {
    classes: Vec<Timers>,
    stale: Vec<Id>,
}

impl Model for Ranks {
    ghost use Rattle.swarm_sched.specs.Inside.Ranks.{Ranking};

    ghost Value = { Ranking };

    ghost view = { λ r. record { classes = r.classes.items; stale = r.stale.items } };
}

// The node of the former task, where it has fewer live ones with this task in its place.
#[tactic(auto, using(crate::proofs::Ranking::left_steps))]
fn left_node(former: &Task, task: &Task) -> Option<Id>
    ensures { (m : ℕ) → (result ≡ Some m → ⊥) →
        adds (one_if is_live) m former.now ≤ adds (one_if is_live) m task.now }
{
    let Some(node) = former.node else {
        return None;
    };
    if added_load(node, task) < added_load(node, former) {
        return Some(node);
    }
    None
}

// The only node that may have fewer live tasks after the change, and the only one that may have more. A task that goes
// through states on its node moves none.
#[tactic(auto, using(crate::proofs::Ranking::moved_steps))]
fn moved_nodes<R: Rows>(rows: &R, change: &Change) -> (Option<Id>, Option<Id>)
    requires { IsUsable (R.tables rows.now) }
    ensures left { IsLeft (R.tables rows.now) change.now result.0 }
    ensures entered { IsEntered (R.tables rows.now) change.now result.1 }
{
    match change {
        Change::PutTask(task) => match rows.task(task.id) {
            Some(former) => (left_node(former, task), left_node(task, former)),
            None => (None, task.node),
        },
        Change::DropTask(id) => (former_node(rows, *id), None),
        Change::PutNode(_) | Change::PutService(_) | Change::Keep(_) => (None, None),
    }
}

impl Ranks {
    // No nodes.
    #[tactic(auto, using(crate::proofs::Ranking::empty_steps))]
    fn empty(alloc: Global) -> Option<Ranks>
        ensures { IfSome result AreUnranked }
    {
        let mut classes = Vec::new(alloc);
        for _class in 0..CLASSES {
            let Ok(()) = classes.push(Timers::new(alloc)) else {
                return None;
            };
        }
        Some(Ranks {
            classes,
            stale: Vec::new(alloc),
        })
    }

    // In the class the node has this number, unless memory is wanting.
    fn set(&mut self, class: usize, node: Id, count: u64) -> bool
        requires { class < length self.old.classes }
        ensures set { IsTrue result → IsNumbered class node count self.old self.new }
        ensures kept { (result ≡ true → ⊥) → self.new ≡ self.old }
    {
        let Ok(()) = self.classes[class].set(node, count) else {
            return false;
        };
        true
    }

    // The node is stale, unless memory is wanting.
    #[tactic(auto, using(crate::proofs::Ranking::stale_steps))]
    fn add_stale(&mut self, node: Id) -> bool
        ensures staler { AreStaler self.old self.new }
        ensures own { IsTrue result → Has self.new.stale node }
    {
        let Ok(()) = self.stale.push(node) else {
            return false;
        };
        true
    }

    // The same of a node, where there is one, unless too many are.
    #[tactic(auto, using(crate::proofs::Ranking::stale_steps))]
    fn mark(&mut self, node: Option<Id>) -> bool
        ensures staler { AreStaler self.old self.new }
        ensures own { IsTrue result → IsStale node self.new.stale }
    {
        let Some(node) = node else {
            return true;
        };
        if self.stale.len() >= MOST_STALE {
            return false;
        }
        self.add_stale(node)
    }

    // The same of two nodes.
    #[tactic(auto, using(crate::proofs::Ranking::stale_steps))]
    fn mark_both(&mut self, one: Option<Id>, other: Option<Id>) -> bool
        ensures staler { AreStaler self.old self.new }
        ensures own { IsTrue result → IsStale one self.new.stale × IsStale other self.new.stale }
    {
        if !self.mark(one) {
            return false;
        }
        self.mark(other)
    }

    // One node more; false for want of memory.
    fn put(&mut self, entry: &ClassedNode) -> bool
        requires { entry.now.class < length self.old.classes }
        ensures { IsTrue result → IsPut entry.now self.old self.new }
    {
        if !self.set(entry.class, entry.id, 0) {
            return false;
        }
        self.add_stale(entry.id)
    }

    /// These nodes, all of which are stale. None for want of memory.
    #[tactic(auto, using(crate::proofs::Ranking::new_steps))]
    pub fn new(alloc: Global, nodes: &[ClassedNode]) -> Option<Ranks>
        requires { AreFew nodes.now }
        ensures ranked { IfSome result (λ r. AreRanked nodes.now r) }
        ensures right { IfSome result (λ r. (t : Tables) → AreRight t r) }
    {
        let mut ranks = Ranks::empty(alloc)?;
        let mut left = nodes;
        while let Some((entry, others)) = left.split_first() {
            if !ranks.put(entry) {
                return None;
            }
            left = others;
        }
        Some(ranks)
    }

    // The nodes of which the change takes a live task, or to which it brings one, become stale.
    #[tactic(auto, using(crate::proofs::Ranking::touch_steps))]
    fn touch_moved<R: Rows>(&mut self, rows: &R, change: &Change) -> bool
        requires { IsUsable (R.tables rows.now) }
        ensures staler { AreStaler self.old self.new }
        ensures same { IsTrue result →
            HaveSame (R.tables rows.now) (apply_change (R.tables rows.now) change.now) self.new.stale }
    {
        let (left, entered) = moved_nodes(rows, change);
        self.mark_both(left, entered)
    }

    // The nodes that the changes touch become stale.
    #[tactic(auto, using(crate::proofs::Ranking::each_steps))]
    fn touch_each<R: Rows>(&mut self, rows: &R, changes: &[Change]) -> bool
        requires { IsUsable (R.tables rows.now) }
        ensures staler { AreStaler self.old self.new }
        ensures same { IsTrue result →
            HaveSame (R.tables rows.now) (apply_changes (R.tables rows.now) changes.now) self.new.stale }
    {
        let mut left = changes;
        while let Some((change, others)) = left.split_first() {
            let (node, former) = touched(rows, change);
            if !self.mark_both(node, former) {
                return false;
            }
            left = others;
        }
        true
    }

    /// The nodes that may have another number of live tasks after the changes become stale. It is asked before they are
    /// made. Where too many would be stale, or memory is wanting, it gives false, and nothing is known any more.
    #[tactic(auto, using(crate::proofs::Ranking::touched_steps))]
    pub fn touch<R: Rows>(&mut self, rows: &R, changes: &[Change]) -> bool
        requires usable { IsUsable (R.tables rows.now) }
        requires right { AreRight (R.tables rows.now) self.old }
        ensures ranked { (nodes : Seq ClassedNode) → AreRanked nodes self.old → AreRanked nodes self.new }
        ensures stays { IsTrue result → AreRight (R.tables rows.now) self.new }
        ensures goes_on { IsTrue result → AreRight (apply_changes (R.tables rows.now) changes.now) self.new }
    {
        let Some((change, others)) = changes.split_first() else {
            return true;
        };
        if others.is_empty() {
            return self.touch_moved(rows, change);
        }
        self.touch_each(rows, changes)
    }

    // The node gets its number anew, unless memory is wanting.
    #[tactic(auto, using(crate::proofs::Ranking::renew_steps))]
    fn renew<R: Rows>(
        &mut self,
        rows: &R,
        known: &mut KnownTotals,
        service: Id,
        nodes: &[ClassedNode],
        node: Id,
    ) -> bool
        requires usable { IsUsable (R.tables rows.now) }
        requires knows { Knows (R.tables rows.now) known.old }
        requires rises { RisesFrom entry_id 0 nodes.now }
        requires ranked { AreRanked nodes.now self.old }
        requires right { AreRight (R.tables rows.now) self.old }
        ensures ranked { AreRanked nodes.now self.new }
        ensures right { AreRight (R.tables rows.now) self.new }
        ensures own { IsTrue result → IsRight (R.tables rows.now) node self.new }
        ensures stale { self.new.stale ≡ self.old.stale }
        ensures knows { Knows (R.tables rows.now) known.new }
    {
        let Some(entry) = entry_of(nodes, node) else {
            return true;
        };
        let count = known.load(rows, node, service);
        self.set(entry.class, node, count)
    }

    // The last stale node.
    fn last_stale(&self) -> Option<Id>
        ensures { result ≡ slice_get self.now.stale (length self.now.stale - 1) }
    {
        match self.stale.last() {
            Some(node) => Some(*node),
            None => None,
        }
    }

    // It isn't any more.
    fn drop_last(&mut self)
        ensures classes { self.new.classes ≡ self.old.classes }
        ensures stale { self.new.stale ≡ take (length self.old.stale - 1) self.old.stale }
    {
        let _ = self.stale.pop();
    }

    /// Each stale node gets its number anew. For want of memory it gives false, and those that are left stay stale.
    #[tactic(auto, using(crate::proofs::Ranking::refresh_steps))]
    pub fn refresh<R: Rows>(
        &mut self,
        rows: &R,
        known: &mut KnownTotals,
        service: Id,
        nodes: &[ClassedNode],
    ) -> bool
        requires usable { IsUsable (R.tables rows.now) }
        requires knows { Knows (R.tables rows.now) known.old }
        requires rises { RisesFrom entry_id 0 nodes.now }
        requires ranked { AreRanked nodes.now self.old }
        requires right { AreRight (R.tables rows.now) self.old }
        ensures ranked { AreRanked nodes.now self.new }
        ensures right { AreRight (R.tables rows.now) self.new }
        ensures current { IsTrue result → (class : ℕ) → AreCurrent (R.tables rows.now) (of_class self.new class) }
        ensures knows { Knows (R.tables rows.now) known.new }
    {
        while let Some(node) = self.last_stale() {
            if !self.renew(rows, known, service, nodes, node) {
                return false;
            }
            self.drop_last();
        }
        true
    }

    /// The nodes of the class.
    pub fn of(&self, class: usize) -> Option<&Timers>
        ensures own { IfSome result (λ r. r.now ≡ of_class self.now class) }
        ensures there { class < length self.now.classes → IsSome result }
    {
        if class < self.classes.len() {
            return Some(&self.classes[class]);
        }
        None
    }
}
