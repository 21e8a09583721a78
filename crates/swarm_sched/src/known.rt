// What the tasks on nodes come to, as far as it is remembered from one placement to the next.
ghost use Rattle.std.specs.Prelude.{◌≡◌, ◌≤◌, ◌+◌, ◌&&◌, ◌∷◌, [], IfSome, IsTrue, None, Some, length};
ghost use Rattle.swarm_objects.specs.ChangeLists.{apply_changes};
ghost use Rattle.swarm_objects.specs.Nodes.BestNode.{load};
ghost use Rattle.swarm_objects.specs.Nodes.Filters.{here};
ghost use Rattle.swarm_objects.specs.Nodes.Holdings.{is_placed_on, task_cpu, task_mem};
ghost use Rattle.swarm_objects.specs.Tasks.Words.{is_live, is_of};
ghost use Rattle.swarm_objects.specs.declared.rows.Change.TheVariants as change;
ghost use Rattle.swarm_objects.specs.Rows.{row_at, task_id};
ghost use Rattle.swarm_objects.specs.Usable.{IsUsable};
ghost use Rattle.swarm_objects.specs.World.{Tables};
ghost use Rattle.swarm_sched.specs.Inside.Known.{AreCounted, AreFewer, AreMoved, AreSpared, CountsAlike, Forgets};
ghost use Rattle.swarm_sched.specs.Inside.Known.{ForgetsAll, ForgetsChange, IsExchanged, Knows, adds, if_of};
ghost use Rattle.swarm_sched.specs.Inside.Known.{one_if, recalled};
ghost use Rattle.swarm_sched.specs.Inside.Totals.{AreTotals};

use crate::totals::{Totals, count_up};
use std::alloc::Global;
use std::marker::Model;
use swarm_objects::loads::Loads;
use swarm_objects::placed::{here, load, reserved_cpu, reserved_mem};
use swarm_objects::{Change, Id, Rows, Same, Task};

// How many slots there are at first.
const SLOTS: usize = 64;

// They are doubled up to so many, some megabyte, where two nodes want one slot.
const MOST_SLOTS: usize = 16384;

/// A node's totals, and how many of its live tasks are of the service that asked last.
#[derive(Clone, Copy)]
pub struct NodeTotals {
    node: Id,
    totals: Totals,
    service: Id,
    here: u64,
}

/// The totals of nodes that were asked for last. Each node has one slot, by the rest of its id. Of nodes with the same
/// slot the last one is remembered, where there can't be more slots. Contracts see the slots, or none where nothing is
/// remembered.
#[derive(Drop)]
pub struct KnownTotals {
    // None for want of memory: then nothing is ever remembered
    slots: Option<Vec<Option<NodeTotals>>>,
    // else the slots hold what isn't true any more
    is_fresh: bool,
}

impl Model for KnownTotals {
    ghost use Rattle.std.specs.Prelude.{List as Seq, Option};
    ghost use Rattle.swarm_sched.specs.Inside.Known.{shown};
    ghost use Rattle.swarm_sched.specs.declared.known.NodeTotals.{NodeTotals as Known};

    ghost Value = { Seq (Option Known) };

    ghost view = { λ k. shown k.is_fresh k.slots };
}

// What the slot holds, where it is of this node.
fn if_of(node: Id, slot: Option<NodeTotals>) -> Option<NodeTotals>
    ensures { result ≡ if_of node slot }
{
    match slot {
        Some(known) if known.node == node => Some(known),
        _ => None,
    }
}

// The slot is that of another node.
fn is_taken(node: Id, slot: Option<NodeTotals>) -> bool {
    match slot {
        Some(known) => known.node != node,
        None => false,
    }
}

// Twice as many slots, all empty. For want of memory they stay as they are.
#[tactic(auto, using(crate::proofs::Knowing::remember_steps))]
fn double(slots: &mut Vec<Option<NodeTotals>>)
    ensures knows { (t : Tables) → Knows t slots.old.items → Knows t slots.new.items }
    ensures some { length slots.old.items ≤ length slots.new.items }
{
    let twice = slots.len().saturating_mul(2);
    if slots.resize(twice, None).is_ok() {
        slots.fill(None);
    }
}

// It is placed, and on this node.
fn is_placed_on(task: &Task, node: Id) -> bool
    ensures { result ≡ is_placed_on node task.now }
{
    task.is_placed() && task.node == Some(node)
}

fn added_cpu(node: Id, task: &Task) -> u64
    ensures { result ≡ adds task_cpu node task.now }
{
    if is_placed_on(task, node) {
        task.template.cpu
    } else {
        0
    }
}

fn added_mem(node: Id, task: &Task) -> u64
    ensures { result ≡ adds task_mem node task.now }
{
    if is_placed_on(task, node) {
        task.template.mem
    } else {
        0
    }
}

/// How many live tasks the task adds to the node's.
pub fn added_load(node: Id, task: &Task) -> u64
    ensures { result ≡ adds (one_if is_live) node task.now }
{
    if is_placed_on(task, node) && task.is_live() {
        1
    } else {
        0
    }
}

fn added_here(node: Id, service: Id, task: &Task) -> u64
    ensures { result ≡ adds (one_if (λ x. is_of service x && is_live x)) node task.now }
{
    if is_placed_on(task, node) && task.is_of(service) && task.is_live() {
        1
    } else {
        0
    }
}

// The sum with the one number more and the other one less.
fn exchange_sum(sum: u128, more: u64, less: u64) -> Option<u128>
    ensures { IfSome result (λ after. after + less ≡ sum + more) }
{
    let with = sum.checked_add(u128::from(more))?;
    with.checked_sub(u128::from(less))
}

// The same of a count.
fn exchange_count(count: u64, more: u64, less: u64) -> Option<u64>
    ensures { IfSome result (λ after. after + less ≡ count + more) }
{
    let with = count.checked_add(more)?;
    with.checked_sub(less)
}

impl NodeTotals {
    // The node's totals with one task in the place of another one.
    fn exchange(self, old: &Task, new: &Task) -> Option<NodeTotals>
        ensures { IfSome result (IsExchanged self old.now new.now) }
    {
        let NodeTotals {
            node,
            totals,
            service,
            here,
        } = self;
        let cpu = exchange_sum(totals.cpu, added_cpu(node, new), added_cpu(node, old))?;
        let mem = exchange_sum(totals.mem, added_mem(node, new), added_mem(node, old))?;
        let load = exchange_count(totals.load, added_load(node, new), added_load(node, old))?;
        let here = exchange_count(
            here,
            added_here(node, service, new),
            added_here(node, service, old),
        )?;
        Some(NodeTotals {
            node,
            totals: Totals { cpu, mem, load },
            service,
            here,
        })
    }
}

// The task counts for every node as the one that it replaces.
fn counts_alike(old: &Task, new: &Task) -> bool
    ensures { IsTrue result → CountsAlike old.now new.now }
{
    new.node == old.node
        && new.service == old.service
        && new.is_placed() == old.is_placed()
        && new.is_live() == old.is_live()
        && new.template.cpu == old.template.cpu
        && new.template.mem == old.template.mem
        && new.template.host_ports.same(&old.template.host_ports)
}

// The change puts a task that counts as the one that it replaces.
#[tactic(auto, using(crate::proofs::Knowing::spared_steps))]
fn is_spared<R: Rows>(rows: &R, change: &Change) -> bool
    ensures { IsTrue result → AreSpared (R.tables rows.now) (change.now ∷ []) }
{
    let Change::PutTask(new) = change else {
        return false;
    };
    match rows.task(new.id) {
        Some(old) => counts_alike(old, new),
        None => false,
    }
}

/// The changes are one that puts a task which counts as the one that it replaces. Half of all are so: they only take a
/// task from one state to the next on its node.
#[tactic(auto, using(crate::proofs::Knowing::spared_steps))]
pub fn are_spared<R: Rows>(rows: &R, changes: &[Change]) -> bool
    ensures { IsTrue result → AreSpared (R.tables rows.now) changes.now }
{
    match changes.split_first() {
        Some((change, others)) => others.is_empty() && is_spared(rows, change),
        None => false,
    }
}

/// What will be known of the nodes that a task leaves and enters, once it is put in its place.
#[derive(Clone, Copy)]
pub struct Moved {
    from: Option<NodeTotals>,
    to: Option<NodeTotals>,
}

impl Moved {
    /// Of no node.
    pub(crate) const NONE: Moved = Moved {
        from: None,
        to: None,
    };
}

impl KnownTotals {
    /// Nothing is remembered, and nothing will be. It takes no memory.
    pub fn none() -> KnownTotals
        ensures { result ≡ [] }
    {
        KnownTotals {
            slots: None,
            is_fresh: false,
        }
    }

    /// Nothing is remembered so far. Where memory is wanting, nothing ever will be.
    pub fn new(alloc: Global) -> KnownTotals
        ensures { result ≡ [] }
    {
        let slots = match vec![in alloc; None; SLOTS] {
            Ok(slots) => Some(slots),
            Err(_) => None,
        };
        KnownTotals {
            slots,
            is_fresh: false,
        }
    }

    // What is remembered of the node.
    fn recall(&self, node: Id) -> Option<NodeTotals>
        ensures { result ≡ recalled self.now node }
    {
        if !self.is_fresh {
            return None;
        }
        let Some(slots) = &self.slots else {
            return None;
        };
        if slots.is_empty() {
            return None;
        }
        if_of(node, slots[node as usize % slots.len()])
    }

    // How many live tasks are remembered of the node. It is read where it stands: this is asked for node after node.
    fn recall_load(&self, node: Id) -> Option<u64>
        ensures { (t : Tables) → Knows t self.now → IfSome result (λ count. count ≡ load t node) }
    {
        if !self.is_fresh {
            return None;
        }
        let Some(slots) = &self.slots else {
            return None;
        };
        if slots.is_empty() {
            return None;
        }
        match &slots[node as usize % slots.len()] {
            Some(known) if known.node == node => Some(known.totals.load),
            _ => None,
        }
    }

    // Empties the slots, where they hold what isn't true any more.
    #[tactic(auto, using(crate::proofs::Knowing::remember_steps))]
    fn refresh(&mut self)
        ensures { (t : Tables) → Knows t self.old → Knows t self.new }
    {
        if self.is_fresh {
            return;
        }
        if let Some(slots) = &mut self.slots {
            slots.fill(None);
        }
        self.is_fresh = true;
    }

    // Puts them in the node's slot, where there is one.
    #[tactic(auto, using(crate::proofs::Knowing::remember_steps))]
    fn put(&mut self, known: NodeTotals)
        ensures { (t : Tables) → Knows t self.old → AreCounted t known.node known → Knows t self.new }
    {
        let Some(slots) = &mut self.slots else {
            return;
        };
        if slots.is_empty() {
            return;
        }
        if is_taken(known.node, slots[known.node as usize % slots.len()])
            && slots.len() < MOST_SLOTS
        {
            double(slots);
        }
        let slot = known.node as usize % slots.len();
        slots[slot] = Some(known);
    }

    // Remembers them, where there is memory.
    fn remember(&mut self, known: NodeTotals)
        ensures { (t : Tables) → Knows t self.old → AreCounted t known.node known → Knows t self.new }
    {
        self.refresh();
        self.put(known);
    }

    // What will be remembered of the node with one task in the place of another one.
    fn exchanged(&self, node: Option<Id>, old: &Task, new: &Task) -> Option<NodeTotals>
        ensures { (t : Tables) → IsUsable t → Knows t self.now → row_at task_id new.now.id t.tasks ≡ Some old.now →
            IfSome result (λ k. AreCounted (apply_changes t (change.PutTask new.now ∷ [])) k.node k) }
    {
        let Some(node) = node else {
            return None;
        };
        let Some(known) = self.recall(node) else {
            return None;
        };
        known.exchange(old, new)
    }

    // What will be remembered of the nodes of the task that the change puts in its place.
    #[tactic(auto, using(crate::proofs::Knowing::moved_steps))]
    fn moved_by<R: Rows>(&self, rows: &R, change: &Change) -> Moved
        requires usable { IsUsable (R.tables rows.now) }
        requires knows { Knows (R.tables rows.now) self.now }
        ensures { AreMoved (apply_changes (R.tables rows.now) (change.now ∷ [])) result }
    {
        let Change::PutTask(new) = change else {
            return Moved::NONE;
        };
        let Some(old) = rows.task(new.id) else {
            return Moved::NONE;
        };
        Moved {
            from: self.exchanged(old.node, old, new),
            to: self.exchanged(new.node, old, new),
        }
    }

    // The same of one change alone. Of more nothing is foreseen.
    #[tactic(auto, using(crate::proofs::Knowing::moved_steps))]
    fn moved<R: Rows>(&self, rows: &R, changes: &[Change]) -> Moved
        requires usable { IsUsable (R.tables rows.now) }
        requires knows { Knows (R.tables rows.now) self.now }
        ensures { AreMoved (apply_changes (R.tables rows.now) changes.now) result }
    {
        let Some((change, others)) = changes.split_first() else {
            return Moved::NONE;
        };
        if !others.is_empty() {
            return Moved::NONE;
        }
        self.moved_by(rows, change)
    }

    /// Remembers of the nodes what is so by now.
    pub fn remember_moved(&mut self, moved: Moved)
        ensures { (t : Tables) → Knows t self.old → AreMoved t moved → Knows t self.new }
    {
        if let Some(from) = moved.from {
            self.remember(from);
        }
        if let Some(to) = moved.to {
            self.remember(to);
        }
    }

    // Forgets what is remembered of the node.
    fn forget(&mut self, node: Id)
        ensures fewer { AreFewer self.old self.new }
        ensures gone { recalled self.new node ≡ None }
    {
        let Some(slots) = &mut self.slots else {
            return;
        };
        if slots.is_empty() {
            return;
        }
        let slot = node as usize % slots.len();
        slots[slot] = None;
    }

    // Forgets what is remembered of the task's node.
    #[tactic(auto, using(crate::proofs::Knowing::node_steps))]
    fn forget_node_of(&mut self, task: &Task)
        ensures fewer { AreFewer self.old self.new }
        ensures gone { Forgets self.new (Some task.now) }
    {
        if let Some(node) = task.node {
            self.forget(node);
        }
    }

    // The same of the task with this id.
    #[tactic(auto, using(crate::proofs::Knowing::former_steps))]
    fn forget_former<R: Rows>(&mut self, rows: &R, id: Id)
        ensures fewer { AreFewer self.old self.new }
        ensures gone { Forgets self.new (row_at task_id id (R.tables rows.now).tasks) }
    {
        if let Some(task) = rows.task(id) {
            self.forget_node_of(task);
        }
    }

    // The same of what one change puts or drops.
    #[tactic(auto, using(crate::proofs::Knowing::change_steps))]
    fn forget_by<R: Rows>(&mut self, rows: &R, change: &Change)
        ensures fewer { AreFewer self.old self.new }
        ensures gone { ForgetsChange (R.tables rows.now) self.new change.now }
    {
        match change {
            Change::PutTask(task) => {
                self.forget_node_of(task);
                self.forget_former(rows, task.id);
            }
            Change::DropTask(id) => self.forget_former(rows, *id),
            Change::PutNode(_) | Change::PutService(_) | Change::Keep(_) => {}
        }
    }

    // Forgets what is remembered of the nodes of tasks that the changes put or drop.
    #[tactic(auto, using(crate::proofs::Knowing::all_steps))]
    fn forget_each<R: Rows>(&mut self, rows: &R, changes: &[Change])
        ensures fewer { AreFewer self.old self.new }
        ensures gone { ForgetsAll (R.tables rows.now) self.new changes.now }
    {
        let mut left = changes;
        while let Some((change, others)) = left.split_first() {
            self.forget_by(rows, change);
            left = others;
        }
    }

    /// Forgets what these changes of the rows make untrue. It is asked before they are made, and gives what will be so
    /// of the nodes that are forgotten.
    #[tactic(auto, using(crate::proofs::Knowing::changed_steps))]
    pub fn forget_changed<R: Rows>(&mut self, rows: &R, changes: &[Change]) -> Moved
        requires usable { IsUsable (R.tables rows.now) }
        requires knows { Knows (R.tables rows.now) self.old }
        ensures stays { Knows (R.tables rows.now) self.new }
        ensures goes_on { Knows (apply_changes (R.tables rows.now) changes.now) self.new }
        ensures moved { AreMoved (apply_changes (R.tables rows.now) changes.now) result }
    {
        let moved = self.moved(rows, changes);
        self.forget_each(rows, changes);
        moved
    }

    /// Forgets all.
    pub fn forget_all(&mut self)
        ensures { self.new ≡ [] }
    {
        self.is_fresh = false;
    }

    // What is remembered of the node, be it for another service, or else what is counted for this one.
    fn counted<R: Rows>(&mut self, rows: &R, node: Id, service: Id) -> NodeTotals
        requires usable { IsUsable (R.tables rows.now) }
        requires knows { Knows (R.tables rows.now) self.old }
        ensures counted { AreCounted (R.tables rows.now) node result }
        ensures knows { Knows (R.tables rows.now) self.new }
    {
        if let Some(known) = self.recall(node) {
            return known;
        }
        let (totals, here) = count_up(rows, node, service);
        let counted = NodeTotals {
            node,
            totals,
            service,
            here,
        };
        self.remember(counted);
        counted
    }

    /// The node's totals. They are counted where they aren't remembered, and by the same walk the service's own tasks,
    /// which may be asked for next.
    pub fn totals<R: Rows>(&mut self, rows: &R, node: Id, service: Id) -> Totals
        requires usable { IsUsable (R.tables rows.now) }
        requires knows { Knows (R.tables rows.now) self.old }
        ensures totals { AreTotals (R.tables rows.now) node result }
        ensures knows { Knows (R.tables rows.now) self.new }
    {
        self.counted(rows, node, service).totals
    }

    /// How many live tasks the node has, of all services. They are counted as the totals are.
    pub fn load<R: Rows>(&mut self, rows: &R, node: Id, service: Id) -> u64
        requires usable { IsUsable (R.tables rows.now) }
        requires knows { Knows (R.tables rows.now) self.old }
        ensures load { result ≡ load (R.tables rows.now) node }
        ensures knows { Knows (R.tables rows.now) self.new }
    {
        if let Some(count) = self.recall_load(node) {
            return count;
        }
        self.totals(rows, node, service).load
    }

    /// How many of the node's live tasks are the service's. They are counted where they aren't remembered, as those of
    /// the service that asked last are.
    pub fn here<R: Rows>(&mut self, rows: &R, node: Id, service: Id) -> u64
        requires usable { IsUsable (R.tables rows.now) }
        requires knows { Knows (R.tables rows.now) self.old }
        ensures here { result ≡ here (R.tables rows.now) node service }
        ensures knows { Knows (R.tables rows.now) self.new }
    {
        let known = self.counted(rows, node, service);
        if known.service == service {
            return known.here;
        }
        let here = here(rows, node, service);
        self.remember(NodeTotals {
            node,
            totals: known.totals,
            service,
            here,
        });
        here
    }
}

/// What is remembered of nodes, and scans of the tasks of those of which nothing is. Contracts see the tables that are
/// read.
#[derive(Drop)]
pub struct KnownLoads<'a, R: Rows> {
    rows: &'a R,
    known: &'a KnownTotals,
}

impl<'a, R: Rows> Model for KnownLoads<'a, R> {
    ghost use Rattle.swarm_objects.specs.World.{Tables};
    ghost use Rattle.swarm_objects.specs.Usable.{IsUsable};
    ghost use Rattle.swarm_sched.specs.Inside.Known.{Knows};

    ghost Value = { Tables };

    ghost view = { λ k. R.tables k.rows.now };

    ghost invariant = { λ k. IsUsable (R.tables k.rows.now) × Knows (R.tables k.rows.now) k.known.now };
}

impl<'a, R: Rows> KnownLoads<'a, R> {
    /// What is known of these rows.
    pub fn new(rows: &'a R, known: &'a KnownTotals) -> KnownLoads<'a, R>
        requires usable { IsUsable (R.tables rows.now) }
        requires knows { Knows (R.tables rows.now) known.now }
        ensures { result ≡ R.tables rows.now }
    {
        KnownLoads { rows, known }
    }
}

impl<'a, R: Rows> Loads for KnownLoads<'a, R> {
    ghost tables = { λ t. t };

    #[tactic(auto, using(crate::proofs::Knowing::recall_steps))]
    fn load(&self, node: Id) -> u64 {
        match self.known.recall(node) {
            Some(known) => known.totals.load,
            None => load(self.rows, node),
        }
    }

    #[tactic(auto, using(crate::proofs::Knowing::recall_steps))]
    fn cpu(&self, node: Id) -> u128 {
        match self.known.recall(node) {
            Some(known) => known.totals.cpu,
            None => reserved_cpu(self.rows, node),
        }
    }

    #[tactic(auto, using(crate::proofs::Knowing::recall_steps))]
    fn mem(&self, node: Id) -> u128 {
        match self.known.recall(node) {
            Some(known) => known.totals.mem,
            None => reserved_mem(self.rows, node),
        }
    }
}
