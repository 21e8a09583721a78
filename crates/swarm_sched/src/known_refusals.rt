// Which filters refused waiting tasks the nodes, as far as it is remembered from one placement to the next.
ghost use Rattle.std.specs.Prelude.{◌≡◌, ◌<◌, ◌≤◌, IfSome, IsTrue, None, [], length, map, replicate};
ghost use Rattle.swarm_objects.specs.ChangeLists.{apply_changes};
ghost use Rattle.swarm_objects.specs.Usable.{IsUsable};
ghost use Rattle.swarm_objects.specs.World.{Tables};
ghost use Rattle.swarm_sched.specs.Inside.KnownRefusals.{IsIn, IsRefusal, KnowsGroup, KnowsOwn, KnowsRefusals};
ghost use Rattle.swarm_sched.specs.Inside.KnownRefusals.{filter_of, forget, forget_each, in_slot, of_round};
ghost use Rattle.swarm_sched.specs.Inside.KnownRefusals.{put, recalled, set_slot, without};

use crate::touching::touched;
use std::alloc::Global;
use std::marker::Model;
use std::mem;
use swarm_objects::walks::nodes;
use swarm_objects::{Change, Duplicate, Id, Rows, Same, Shared, Task, Template};

// For so many groups of tasks something is remembered at once.
const GROUPS: usize = 64;

// Of so many nodes at most, for each group.
const MOST_SLOTS: usize = 16384;

/// The filter that refused the tasks of a group a node.
#[derive(Clone, Copy)]
pub struct Refusal {
    node: Id,
    filter: u32,
}

/// A refusal, and the round in which it was remembered.
#[derive(Clone, Copy)]
pub struct Noted {
    refusal: Refusal,
    round: u64,
}

/// Slots for refusals: each node has one, by the rest of its id, and of nodes with the same slot the last one is
/// remembered. A refusal counts in its round alone: so a further round empties all slots, and none is touched.
/// Contracts see what counts.
#[derive(Drop)]
pub struct Slots {
    round: u64,
    items: Vec<Option<Noted>>,
}

impl Model for Slots {
    ghost use Rattle.std.specs.Prelude.{List as Seq, Option, map};
    ghost use Rattle.swarm_sched.specs.Inside.KnownRefusals.{AreSoFar, of_round};
    ghost use Rattle.swarm_sched.specs.declared.known_refusals.Refusal.{Refusal};

    ghost Value = { Seq (Option Refusal) };

    ghost view = { λ s. map (of_round s.round) s.items.items };

    ghost invariant = { λ s. AreSoFar s.round s.items.items };
}

/// The tasks of a service by one template, and the filters that refused them nodes; that which reads the node's session
/// is left out.
#[derive(Drop)]
pub struct Group {
    service: Id,
    template: Shared<Template>,
    slots: Slots,
}

impl Model for Group {
    ghost use Rattle.swarm_sched.specs.Inside.KnownRefusals.{Refusals};

    ghost Value = { Refusals };

    ghost view = { λ g. record { service = g.service; template = g.template; slots = g.slots } };
}

/// The groups of tasks that were asked for, one a service and GROUPS at most: a service's group stays until one by
/// another template, or another service's, takes its slot, or until all is forgotten. What is forgotten of a node is
/// looked for in these alone. Contracts see their slots, or none before the first group.
#[derive(Drop)]
pub struct KnownRefusals {
    // None where nothing will be remembered
    alloc: Option<Global>,
    groups: Option<Vec<Option<Group>>>,
}

impl Model for KnownRefusals {
    ghost use Rattle.std.specs.Prelude.{List as Seq, Option};
    ghost use Rattle.swarm_sched.specs.Inside.KnownRefusals.{Refusals, shown};

    ghost Value = { Seq (Option Refusals) };

    ghost view = { λ k. shown k.groups };
}

// What stands in the slot, where it was remembered in this round.
fn of_round(round: u64, slot: Option<Noted>) -> Option<Refusal>
    ensures { result ≡ of_round round slot }
{
    match slot {
        Some(noted) if noted.round == round => Some(noted.refusal),
        _ => None,
    }
}

// What to put in a slot in this round.
fn in_round(round: u64, refusal: Option<Refusal>) -> Option<Noted>
    ensures so_far { IfSome result (λ n. n.round ≤ round) }
    ensures same { of_round round result ≡ refusal }
{
    match refusal {
        Some(refusal) => Some(Noted { refusal, round }),
        None => None,
    }
}

impl Slots {
    // No slots.
    fn none(alloc: Global) -> Slots {
        Slots {
            round: 0,
            items: Vec::new(alloc),
        }
    }

    // What stands in the node's slot.
    fn get(&self, node: Id) -> Option<Refusal>
        ensures { result ≡ in_slot self.now node }
    {
        if self.items.is_empty() {
            return None;
        }
        of_round(self.round, self.items[node as usize % self.items.len()])
    }

    // Puts it in the node's slot.
    fn put(&mut self, node: Id, refusal: Option<Refusal>)
        ensures { self.new ≡ set_slot self.old node refusal }
    {
        if self.items.is_empty() {
            return;
        }
        let slot = node as usize % self.items.len();
        self.items[slot] = in_round(self.round, refusal);
    }

    // Empties them by a further round, where one has a number.
    fn begin_round(&mut self) -> bool
        ensures { IsTrue result → self.new ≡ replicate (length self.old) None }
    {
        match self.round.checked_add(1) {
            Some(round) => {
                self.round = round;
                true
            }
            None => false,
        }
    }

    // So many empty ones, where there is memory.
    fn fill(&mut self, count: usize) -> bool
        ensures { IsTrue result → self.new ≡ replicate count None }
    {
        self.items.clear();
        self.round = 0;
        self.items.resize(count, None).is_ok()
    }

    // The same, by a further round where there are as many.
    fn make_empty(&mut self, count: usize) -> bool
        ensures { IsTrue result → self.new ≡ replicate count None }
    {
        (self.items.len() == count && self.begin_round()) || self.fill(count)
    }
}

// The filter in the slot, where it is of this node.
fn filter_of(node: Id, slot: Option<Refusal>) -> Option<u32>
    ensures { result ≡ filter_of node slot }
{
    match slot {
        Some(refusal) if refusal.node == node => Some(refusal.filter),
        _ => None,
    }
}

impl Group {
    /// The task is one of them.
    pub fn is_for(&self, task: &Task) -> bool
        ensures { IsTrue result → IsIn self.now task.now }
    {
        task.service == self.service && task.template.same(&self.template)
    }

    /// The filter that is remembered of the node.
    pub fn recall(&self, node: Id) -> Option<u32>
        ensures { result ≡ recalled self.now node }
    {
        filter_of(node, self.slots.get(node))
    }

    // Puts it in the node's slot.
    fn put(&mut self, node: Id, refusal: Option<Refusal>)
        ensures { self.new ≡ put self.old node refusal }
    {
        self.slots.put(node, refusal);
    }

    /// Remembers that this filter refuses them the node.
    #[tactic(auto, using(crate::proofs::Remembering::refusal_put))]
    pub fn remember(&mut self, node: Id, filter: u32)
        ensures knows { (t : Tables) → KnowsGroup t self.old → IsRefusal t self.old node filter
            → KnowsGroup t self.new }
        ensures own { (x : Task) → IsIn self.old x → IsIn self.new x }
    {
        self.put(node, Some(Refusal { node, filter }));
    }
}

// How many slots a group has for so many nodes: a power of two, and where it can be two a node.
fn slots_for(nodes: usize) -> usize {
    nodes.saturating_mul(2).min(MOST_SLOTS).next_power_of_two()
}

// How many it has for all nodes.
fn slot_count<R: Rows>(rows: &R) -> usize
    requires { IsUsable (R.tables rows.now) }
{
    let mut count: usize = 0;
    for _node in nodes(rows) {
        count = count.saturating_add(1);
    }
    slots_for(count)
}

// The task's group, for which nothing is remembered so far, with so many of these slots.
#[tactic(auto, using(crate::proofs::Remembering::nothing_known))]
fn empty_group(alloc: Global, mut slots: Slots, count: usize, task: &Task) -> Option<Group>
    ensures { (t : Tables) → KnowsOwn t task.now result }
{
    if !slots.make_empty(count) {
        return None;
    }
    let template = task.template.duplicate(alloc).ok()?;
    Some(Group {
        service: task.service,
        template,
        slots,
    })
}

// The same, with slots for all nodes.
fn new_group<R: Rows>(alloc: Global, rows: &R, task: &Task) -> Option<Group>
    requires { IsUsable (R.tables rows.now) }
    ensures { (t : Tables) → KnowsOwn t task.now result }
{
    empty_group(alloc, Slots::none(alloc), slot_count(rows), task)
}

/// The same, with slots for so many nodes. Those of another group are used again; where these are as many, none is
/// touched.
pub fn renewed_group(
    alloc: Global,
    former: Option<Group>,
    nodes: usize,
    task: &Task,
) -> Option<Group>
    ensures { (t : Tables) → KnowsOwn t task.now result }
{
    let slots = match former {
        Some(group) => group.slots,
        None => Slots::none(alloc),
    };
    empty_group(alloc, slots, slots_for(nodes), task)
}

// It is a group of the service.
fn is_of(slot: &Option<Group>, service: Id) -> bool {
    match slot {
        Some(group) => group.service == service,
        None => false,
    }
}

// The slot of the service's group.
fn slot_of(groups: &[Option<Group>], service: Id) -> Option<usize>
    ensures { IfSome result (λ slot. slot < length groups.now) }
{
    groups.iter().position(|slot| is_of(slot, service))
}

// The slot for one more group: an empty one, or another one's where there can't be more.
fn free_slot(groups: &[Option<Group>], service: Id) -> Option<usize>
    ensures { IfSome result (λ slot. slot < length groups.now) }
{
    let free = groups.iter().position(|slot| slot.is_none());
    if free.is_none() && groups.len() >= GROUPS {
        return Some(service as usize % groups.len());
    }
    free
}

// Forgets the node in all groups.
fn forget(groups: &mut [Option<Group>], node: Option<Id>)
    ensures { groups.new ≡ forget node groups.old }
{
    let Some(node) = node else {
        return;
    };
    forget_node(groups, node);
}

fn forget_node(groups: &mut [Option<Group>], node: Id)
    ensures { groups.new ≡ map (without node) groups.old }
{
    for slot in groups.iter_mut() {
        if let Some(group) = slot {
            group.put(node, None);
        }
    }
}

// Forgets both nodes, one after the other unless they are the same.
#[tactic(auto, using(crate::proofs::Remembering::same_steps))]
fn forget_both(groups: &mut [Option<Group>], node: Option<Id>, former: Option<Id>)
    ensures { groups.new ≡ forget former (forget node groups.old) }
{
    forget(groups, node);
    if former != node {
        forget(groups, former);
    }
}

/// Forgets the nodes that the changes touch.
pub fn forget_each<R: Rows>(groups: &mut [Option<Group>], rows: &R, changes: &[Change])
    ensures { groups.new ≡ forget_each (R.tables rows.now) changes.now groups.old }
{
    let mut left = changes;
    while let Some((change, others)) = left.split_first() {
        let (node, former) = touched(rows, change);
        forget_both(groups, node, former);
        left = others;
    }
}

impl KnownRefusals {
    /// Nothing is remembered, and nothing will be. It takes no memory.
    pub fn none() -> KnownRefusals
        ensures { result ≡ [] }
    {
        KnownRefusals {
            alloc: None,
            groups: None,
        }
    }

    /// Nothing is remembered so far.
    pub fn new(alloc: Global) -> KnownRefusals
        ensures { result ≡ [] }
    {
        KnownRefusals {
            alloc: Some(alloc),
            groups: None,
        }
    }

    /// Forgets all.
    pub fn forget_all(&mut self)
        ensures { self.new ≡ [] }
    {
        self.groups = None;
    }

    /// Forgets what these changes of the rows make untrue. It is asked before they are made.
    #[tactic(auto, using(crate::proofs::Remembering::changed_steps))]
    pub fn forget_changed<R: Rows>(&mut self, rows: &R, changes: &[Change])
        requires usable { IsUsable (R.tables rows.now) }
        requires knows { KnowsRefusals (R.tables rows.now) self.old }
        ensures stays { KnowsRefusals (R.tables rows.now) self.new }
        ensures goes_on { KnowsRefusals (apply_changes (R.tables rows.now) changes.now) self.new }
    {
        let Some(groups) = &mut self.groups else {
            return;
        };
        forget_each(groups.as_mut_slice(), rows, changes);
    }

    // Begins to remember, without a slot so far.
    #[tactic(auto, using(crate::proofs::Remembering::group_steps))]
    fn begin(&mut self, alloc: Global)
        ensures { (t : Tables) → KnowsRefusals t self.old → KnowsRefusals t self.new }
    {
        if self.groups.is_none() {
            self.groups = Some(Vec::new(alloc));
        }
    }

    // Takes the service's group out of its slot.
    #[tactic(auto, using(crate::proofs::Remembering::group_steps))]
    fn take_slot(&mut self, service: Id) -> Option<Group>
        ensures group { (t : Tables) → KnowsRefusals t self.old → IfSome result (KnowsGroup t) }
        ensures others { (t : Tables) → KnowsRefusals t self.old → KnowsRefusals t self.new }
    {
        let Some(groups) = &mut self.groups else {
            return None;
        };
        let Some(slot) = slot_of(groups.as_slice(), service) else {
            return None;
        };
        mem::replace(&mut groups[slot], None)
    }

    /// Takes the task's group out of its slot, or begins one. None where nothing will be remembered, or for want of
    /// memory.
    pub fn take<R: Rows>(&mut self, rows: &R, task: &Task) -> Option<Group>
        requires usable { IsUsable (R.tables rows.now) }
        requires knows { KnowsRefusals (R.tables rows.now) self.old }
        ensures own { KnowsOwn (R.tables rows.now) task.now result }
        ensures others { KnowsRefusals (R.tables rows.now) self.new }
    {
        let Some(alloc) = self.alloc else {
            return None;
        };
        self.begin(alloc);
        if let Some(group) = self.take_slot(task.service) {
            if group.is_for(task) {
                return Some(group);
            }
        }
        new_group(alloc, rows, task)
    }

    /// Puts the group in a slot, where there is memory.
    #[tactic(auto, using(crate::proofs::Remembering::group_steps))]
    pub fn put(&mut self, group: Option<Group>)
        ensures { (t : Tables) → KnowsRefusals t self.old → IfSome group (KnowsGroup t)
            → KnowsRefusals t self.new }
    {
        let Some(group) = group else {
            return;
        };
        let Some(groups) = &mut self.groups else {
            return;
        };
        match free_slot(groups.as_slice(), group.service) {
            Some(slot) => groups[slot] = Some(group),
            None => {
                let _ = groups.push(Some(group));
            }
        }
    }
}
