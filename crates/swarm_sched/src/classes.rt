// The nodes by their values for placement preferences, as far as they are remembered from one placement to the next.
ghost use Rattle.std.specs.List.{list_any, position};
ghost use Rattle.std.specs.Option.{option_copied};
ghost use Rattle.std.specs.Prelude.{◌≡◌, ◌≤◌, IfSome, IsTrue, None, false, length};
ghost use Rattle.swarm_objects.specs.ChangeLists.{apply_changes};
ghost use Rattle.swarm_objects.specs.Nodes.BestNode.{agrees, best_node};
ghost use Rattle.swarm_objects.specs.Usable.{IsUsable};
ghost use Rattle.swarm_sched.specs.Inside.Classes.{AreClasses, AreFew, AreSorted, AreValues, HaveClasses};
ghost use Rattle.swarm_sched.specs.Inside.Classes.{IsMore, IsOf, IsServed, classes, puts_node, sorted_by};
ghost use Rattle.swarm_sched.specs.Inside.Known.{Knows};
ghost use Rattle.swarm_sched.specs.Inside.KnownRefusals.{KnowsOwn};
ghost use Rattle.swarm_sched.specs.declared.classes.TheConstants.{CLASSES};

use crate::class_table::ClassTable;
use crate::keys::agrees;
use crate::known::KnownTotals;
use crate::known_refusals::Group;
use crate::placing::best_of_classes;
use crate::ranks::Ranks;
use std::alloc::Global;
use std::marker::Model;
use swarm_objects::walks::nodes;
use swarm_objects::{Change, Duplicate, Id, Key, List, Node, Rows, Same, Task};

/// The most classes into which nodes are sorted.
pub const CLASSES: usize = 16;

/// A node, and the class that it is of.
#[derive(Clone, Copy)]
pub struct ClassedNode {
    pub id: Id,
    pub class: usize,
}

// All nodes by rising id, where those of one class have the same values.
#[derive(Drop)]
struct SortedNodes {
    nodes: List<ClassedNode>,
    table: ClassTable,
    ranks: Ranks,
}

// Whether the nodes are sorted.
#[derive(Drop)]
enum Sorting {
    NotYet,
    Done(SortedNodes),
    // there are too many classes, or memory was wanting
    InVain,
}

// The preferences that were asked for last.
#[derive(Drop)]
struct Asked {
    keys: List<Key>,
    sorting: Sorting,
}

/// The nodes, sorted into classes by the placement preferences that were asked for last. Contracts see these
/// preferences and the nodes, or none where they aren't sorted.
#[derive(Drop)]
pub struct NodeClasses {
    // None where none will be sorted
    alloc: Option<Global>,
    asked: Option<Asked>,
}

impl Model for NodeClasses {
    ghost use Rattle.std.specs.Prelude.{Option};
    ghost use Rattle.swarm_sched.specs.Inside.Classes.{Classes, shown};

    ghost Value = { Option Classes };

    ghost view = { λ c. shown c.asked };
}

// The first of the heads that the node agrees with.
fn class_among(keys: &[Key], heads: &[&Node], node: &Node) -> Option<usize>
    ensures { result ≡ position (λ head. agrees keys.now head.now node.now) heads.now }
{
    heads.iter().position(|head| agrees(keys, *head, node))
}

// The class of the node, by the first node of each. Where it is of none, one more begins with it, unless there are too
// many or memory is wanting.
fn class_of<'a>(keys: &[Key], heads: &mut List<&'a Node>, node: &'a Node) -> Option<usize>
    requires { length heads.old ≤ CLASSES }
    ensures class { IfSome result (λ class. IsOf keys.now heads.new class node.now) }
    ensures more { IsMore keys.now heads.old heads.new }
    ensures few { length heads.new ≤ CLASSES }
{
    if let Some(class) = class_among(keys, heads.as_slice(), node) {
        return Some(class);
    }
    let class = heads.len();
    if class == CLASSES {
        return None;
    }
    match heads.push(node) {
        Ok(()) => Some(class),
        Err(_) => None,
    }
}

// All nodes with their classes by these keys, and what is known of these, unless there are too many or memory is
// wanting.
fn sorted_nodes<R: Rows>(
    alloc: Global,
    rows: &R,
    keys: &[Key],
) -> Option<(List<ClassedNode>, ClassTable)>
    requires { IsUsable (R.tables rows.now) }
    ensures sorted { IfSome result (λ s. AreSorted (R.tables rows.now).nodes keys.now s.0) }
    ensures count { IfSome result (λ s. HaveClasses s.1.count s.0) }
    ensures values { IfSome result (λ s. AreValues (R.tables rows.now).nodes keys.now s.0 s.1.values) }
{
    let mut heads = List::new(alloc);
    let mut sorted = List::new(alloc);
    for node in nodes(rows) {
        let class = class_of(keys, &mut heads, node)?;
        let Ok(()) = sorted.push(ClassedNode { id: node.id, class }) else {
            return None;
        };
    }
    let table = ClassTable::new(class_count(sorted.as_slice()), keys, heads.as_slice());
    Some((sorted, table))
}

// How many classes they are of.
#[tactic(auto, using(crate::proofs::Classing::count_steps))]
fn class_count(sorted: &[ClassedNode]) -> usize
    requires { AreFew sorted.now }
    ensures { HaveClasses result sorted.now }
{
    let mut count = 0;
    for entry in sorted {
        count = count.max(entry.class + 1);
    }
    count
}

// The same as it is kept, where nothing is known so far of how many live tasks they have.
fn sorting_of<R: Rows>(alloc: Global, rows: &R, keys: &[Key]) -> Sorting
    requires { IsUsable (R.tables rows.now) }
    ensures { AreClasses (R.tables rows.now) (sorted_by keys.now result) }
{
    let Some((nodes, table)) = sorted_nodes(alloc, rows, keys) else {
        return Sorting::InVain;
    };
    match Ranks::new(alloc, nodes.as_slice()) {
        Some(ranks) => Sorting::Done(SortedNodes {
            nodes,
            table,
            ranks,
        }),
        None => Sorting::InVain,
    }
}

impl Asked {
    // The nodes of a class have the same values for these keys too. Where there are none, so have any nodes.
    fn is_for(&self, keys: &List<Key>) -> bool
        ensures { IsTrue result → IsServed self.now.keys keys.now }
    {
        keys.is_empty() || keys.same(&self.keys)
    }

    // The best of the nodes for the task, where they are sorted by its preferences, and it is known how many live tasks
    // they have.
    fn best<'a, R: Rows>(
        &mut self,
        rows: &'a R,
        known: &mut KnownTotals,
        group: &mut Option<Group>,
        task: &Task,
    ) -> Option<Option<&'a Node>>
        requires usable { IsUsable (R.tables rows.now) }
        requires knows { Knows (R.tables rows.now) known.old }
        requires own { KnowsOwn (R.tables rows.now) task.now group.old }
        requires classes { AreClasses (R.tables rows.now) (classes self.old) }
        ensures best { IfSome result (λ best. option_copied best ≡ best_node (R.tables rows.now) task.now) }
        ensures knows { Knows (R.tables rows.now) known.new }
        ensures own { KnowsOwn (R.tables rows.now) task.now group.new }
        ensures classes { AreClasses (R.tables rows.now) (classes self.new) }
    {
        if !self.is_for(&task.template.spread) {
            return None;
        }
        match &mut self.sorting {
            Sorting::Done(sorted) => {
                let nodes = sorted.nodes.as_slice();
                if !sorted.ranks.refresh(rows, known, task.service, nodes) {
                    return None;
                }
                let best = best_of_classes(
                    rows,
                    known,
                    group,
                    nodes,
                    &sorted.ranks,
                    &sorted.table,
                    task,
                );
                Some(best)
            }
            Sorting::NotYet | Sorting::InVain => None,
        }
    }

    // How many nodes are sorted.
    fn count(&self) -> usize {
        match &self.sorting {
            Sorting::Done(sorted) => sorted.nodes.len(),
            Sorting::NotYet | Sorting::InVain => 0,
        }
    }

    // It is noted which nodes may have another number of live tasks after the changes; false where it can't be.
    fn note<R: Rows>(&mut self, rows: &R, changes: &[Change]) -> bool
        requires usable { IsUsable (R.tables rows.now) }
        requires knows { AreClasses (R.tables rows.now) (classes self.old) }
        requires spares { list_any puts_node changes.now ≡ false }
        ensures stays { IsTrue result → AreClasses (R.tables rows.now) (classes self.new) }
        ensures goes_on { IsTrue result →
            AreClasses (apply_changes (R.tables rows.now) changes.now) (classes self.new) }
    {
        match &mut self.sorting {
            Sorting::Done(sorted) => sorted.ranks.touch(rows, changes),
            Sorting::NotYet | Sorting::InVain => true,
        }
    }

    // The same. Where it can't be, the nodes are sorted anew when they are asked for again.
    fn touch<R: Rows>(&mut self, rows: &R, changes: &[Change])
        requires usable { IsUsable (R.tables rows.now) }
        requires knows { AreClasses (R.tables rows.now) (classes self.old) }
        requires spares { list_any puts_node changes.now ≡ false }
        ensures stays { AreClasses (R.tables rows.now) (classes self.new) }
        ensures goes_on { AreClasses (apply_changes (R.tables rows.now) changes.now) (classes self.new) }
    {
        if !self.note(rows, changes) {
            self.sorting = Sorting::NotYet;
        }
    }

    // Sorts the nodes, unless that was tried before.
    fn sort<R: Rows>(&mut self, alloc: Global, rows: &R)
        requires usable { IsUsable (R.tables rows.now) }
        requires knows { AreClasses (R.tables rows.now) (classes self.old) }
        ensures { AreClasses (R.tables rows.now) (classes self.new) }
    {
        if let Sorting::NotYet = self.sorting {
            self.sorting = sorting_of(alloc, rows, self.keys.as_slice());
        }
    }
}

// The preferences are asked for first. Nothing is sorted yet.
fn first_asked(alloc: Global, keys: &List<Key>) -> Option<Asked>
    ensures { IfSome result (λ asked. classes asked ≡ None) }
{
    let keys = keys.duplicate(alloc).ok()?;
    Some(Asked {
        keys,
        sorting: Sorting::NotYet,
    })
}

// The change puts a node.
fn puts_node(change: &Change) -> bool
    ensures { result ≡ puts_node change.now }
{
    matches!(change, Change::PutNode(_))
}

// One of the changes does.
fn any_puts_node(changes: &[Change]) -> bool
    ensures { result ≡ list_any puts_node changes.now }
{
    changes.iter().any(puts_node)
}

impl NodeClasses {
    /// Nothing is sorted, and nothing will be. It takes no memory.
    pub fn none() -> NodeClasses
        ensures { result ≡ None }
    {
        NodeClasses {
            alloc: None,
            asked: None,
        }
    }

    /// Nothing is sorted so far.
    pub fn new(alloc: Global) -> NodeClasses
        ensures { result ≡ None }
    {
        NodeClasses {
            alloc: Some(alloc),
            asked: None,
        }
    }

    /// Forgets all.
    pub fn forget(&mut self)
        ensures { self.new ≡ None }
    {
        self.asked = None;
    }

    /// Forgets what these changes of the rows make untrue: all, where they put a node. It is asked before they are
    /// made.
    pub fn forget_changed<R: Rows>(&mut self, rows: &R, changes: &[Change])
        requires usable { IsUsable (R.tables rows.now) }
        requires knows { AreClasses (R.tables rows.now) self.old }
        ensures stays { AreClasses (R.tables rows.now) self.new }
        ensures goes_on { AreClasses (apply_changes (R.tables rows.now) changes.now) self.new }
    {
        if any_puts_node(changes) {
            self.forget();
            return;
        }
        if let Some(asked) = &mut self.asked {
            asked.touch(rows, changes);
        }
    }

    /// Sorts the nodes by the preferences, where they are asked for again. Where others were asked for before, these
    /// are only noted: to sort costs more than to place one task.
    pub fn ask<R: Rows>(&mut self, rows: &R, keys: &List<Key>)
        requires usable { IsUsable (R.tables rows.now) }
        requires knows { AreClasses (R.tables rows.now) self.old }
        ensures { AreClasses (R.tables rows.now) self.new }
    {
        let Some(alloc) = self.alloc else {
            return;
        };
        match &mut self.asked {
            Some(asked) if asked.is_for(keys) => asked.sort(alloc, rows),
            _ => self.asked = first_asked(alloc, keys),
        }
    }

    /// How many nodes are sorted.
    pub fn count(&self) -> usize {
        match &self.asked {
            Some(asked) => asked.count(),
            None => 0,
        }
    }

    /// The best of the nodes for the task; None where they aren't sorted by its preferences.
    pub fn best<'a, R: Rows>(
        &mut self,
        rows: &'a R,
        known: &mut KnownTotals,
        group: &mut Option<Group>,
        task: &Task,
    ) -> Option<Option<&'a Node>>
        requires usable { IsUsable (R.tables rows.now) }
        requires knows { Knows (R.tables rows.now) known.old }
        requires own { KnowsOwn (R.tables rows.now) task.now group.old }
        requires classes { AreClasses (R.tables rows.now) self.old }
        ensures best { IfSome result (λ best. option_copied best ≡ best_node (R.tables rows.now) task.now) }
        ensures knows { Knows (R.tables rows.now) known.new }
        ensures own { KnowsOwn (R.tables rows.now) task.now group.new }
        ensures classes { AreClasses (R.tables rows.now) self.new }
    {
        match &mut self.asked {
            Some(asked) => asked.best(rows, known, group, task),
            None => None,
        }
    }
}
