// Which filters refused nodes the tasks that were placed last, as far as it is remembered to the next placement.
ghost use Rattle.std.specs.Prelude.{◌≡◌, IfSome, IsTrue};
ghost use Rattle.swarm_filters.specs.Tested.{is_open};
ghost use Rattle.swarm_objects.specs.ChangeLists.{apply_changes};
ghost use Rattle.swarm_objects.specs.Nodes.Filters.{has_resources};
ghost use Rattle.swarm_objects.specs.Rows.{Has};
ghost use Rattle.swarm_objects.specs.Usable.{IsUsable};
ghost use Rattle.swarm_objects.specs.World.{Tables};
ghost use Rattle.swarm_sched.specs.Inside.KnownRefusals.{IsRefused, IsRefusal, KnowsGroup, KnowsOwn, KnowsRefusals};
ghost use Rattle.swarm_sched.specs.Inside.Totals.{AreTotals};

use crate::known_refusals::{Group, forget_each, renewed_group};
use crate::totals::{OneNode, Totals};
use std::alloc::Global;
use std::marker::Model;
use std::{mem, slice};
use swarm_filters::{first_refusal_by, fits, is_tested_on};
use swarm_objects::{Change, Id, Node, Rows, Task};

// The number of the filter that asks for room.
const RESOURCES: u32 = 1;

/// The group of the tasks that were placed last. A task of another one begins its own in its place. That takes a few
/// steps, since the slots are used again as they are. Contracts see it as the only one of a list.
#[derive(Drop)]
pub struct LastGroup {
    // None where nothing will be remembered
    alloc: Option<Global>,
    group: Option<Group>,
}

impl Model for LastGroup {
    ghost use Rattle.std.specs.Prelude.{◌∷◌, [], List as Seq, Option};
    ghost use Rattle.swarm_sched.specs.Inside.KnownRefusals.{Refusals};

    ghost Value = { Seq (Option Refusals) };

    ghost view = { λ k. k.group ∷ [] };
}

impl LastGroup {
    /// Nothing is remembered, and nothing will be. It takes no memory.
    #[tactic(auto, using(crate::proofs::LastRefusing::last_steps))]
    pub fn none() -> LastGroup
        ensures { (t : Tables) → KnowsRefusals t result }
    {
        LastGroup {
            alloc: None,
            group: None,
        }
    }

    /// Nothing is remembered so far.
    #[tactic(auto, using(crate::proofs::LastRefusing::last_steps))]
    pub fn new(alloc: Global) -> LastGroup
        ensures { (t : Tables) → KnowsRefusals t result }
    {
        LastGroup {
            alloc: Some(alloc),
            group: None,
        }
    }

    /// Forgets all.
    #[tactic(auto, using(crate::proofs::LastRefusing::last_steps))]
    pub fn forget_all(&mut self)
        ensures { (t : Tables) → KnowsRefusals t self.new }
    {
        self.group = None;
    }

    /// Forgets what these changes of the rows make untrue. It is asked before they are made.
    #[tactic(auto, using(crate::proofs::LastRefusing::last_steps))]
    pub fn forget_changed<R: Rows>(&mut self, rows: &R, changes: &[Change])
        requires usable { IsUsable (R.tables rows.now) }
        requires knows { KnowsRefusals (R.tables rows.now) self.old }
        ensures stays { KnowsRefusals (R.tables rows.now) self.new }
        ensures goes_on { KnowsRefusals (apply_changes (R.tables rows.now) changes.now) self.new }
    {
        if self.group.is_none() {
            return;
        }
        forget_each(slice::from_mut(&mut self.group), rows, changes);
    }

    /// Takes the task's group, or begins one for so many nodes, where there are any. None where nothing will be
    /// remembered, or for want of memory.
    #[tactic(auto, using(crate::proofs::LastRefusing::last_steps))]
    pub fn take(&mut self, nodes: usize, task: &Task) -> Option<Group>
        ensures own { (t : Tables) → KnowsRefusals t self.old → KnowsOwn t task.now result }
        ensures others { (t : Tables) → KnowsRefusals t self.old → KnowsRefusals t self.new }
    {
        let Some(alloc) = self.alloc else {
            return None;
        };
        let group = mem::replace(&mut self.group, None);
        match group {
            Some(own) if own.is_for(task) => Some(own),
            other if nodes > 0 => renewed_group(alloc, other, nodes, task),
            other => {
                self.group = other;
                None
            }
        }
    }

    /// Puts the group back.
    #[tactic(auto, using(crate::proofs::LastRefusing::last_steps))]
    pub fn put(&mut self, group: Option<Group>)
        ensures { (t : Tables) → KnowsRefusals t self.old → IfSome group (KnowsGroup t) → KnowsRefusals t self.new }
    {
        if group.is_some() {
            self.group = group;
        }
    }
}

/// It is remembered that a filter refuses the tasks of the group the node.
pub fn is_refused(group: &Option<Group>, node: Id) -> bool
    ensures { IsTrue result → IsRefused group.now node }
{
    match group {
        Some(group) => group.recall(node).is_some(),
        None => false,
    }
}

// Remembers that the filter refuses them the node. That which reads the node's session is left out.
#[tactic(auto, using(crate::proofs::LastRefusing::last_steps))]
fn note_refusal(group: &mut Option<Group>, node: Id, filter: u32)
    ensures { (t : Tables) (x : Task) → KnowsOwn t x group.old →
        ((filter ≡ 0 → ⊥) → IfSome group.old (λ g. IsRefusal t g node filter)) → KnowsOwn t x group.new }
{
    if filter == 0 {
        return;
    }
    if let Some(group) = group {
        group.remember(node, filter);
    }
}

// The node has room for the task beside what its tasks come to.
fn has_room(totals: Totals, task: &Task, node: &Node) -> bool
    ensures { (t : Tables) → AreTotals t node.now.id totals → result ≡ has_resources t task.now node.now }
{
    fits(totals.cpu, task.template.cpu, node.cpu) && fits(totals.mem, task.template.mem, node.mem)
}

/// The node admits the task, where it is tested. What its tasks come to is known, so it is asked first whether it has
/// room: the filters would look for its session before that. That a filter refuses it is remembered for the task's
/// group.
#[tactic(auto, unfolding(swarm_filters::specs::Tested::is_open))]
pub fn is_open_in<R: Rows>(
    rows: &R,
    group: &mut Option<Group>,
    task: &Task,
    node: &Node,
    totals: Totals,
) -> bool
    requires usable { IsUsable (R.tables rows.now) }
    requires totals { AreTotals (R.tables rows.now) node.now.id totals }
    requires row { IfSome group.old (λ g. Has (R.tables rows.now).nodes node.now) }
    requires own { KnowsOwn (R.tables rows.now) task.now group.old }
    ensures is_open { result ≡ is_open (R.tables rows.now) task.now node.now }
    ensures own { KnowsOwn (R.tables rows.now) task.now group.new }
{
    if !is_tested_on(task.place, node.id) {
        return false;
    }
    if !has_room(totals, task, node) {
        note_refusal(group, node.id, RESOURCES);
        return false;
    }
    let loads = OneNode::new(rows, node.id, totals);
    match first_refusal_by(rows, &loads, node, task) {
        Some(filter) => {
            note_refusal(group, node.id, filter);
            false
        }
        None => true,
    }
}
