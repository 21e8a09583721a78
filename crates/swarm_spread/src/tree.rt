// The counts of a service's tasks, and the best node by them.
ghost use Rattle.std.specs.Prelude.{◌≡◌, ◌<◌, ◌≤◌, ◌+◌, ◌^◌, ◌&&◌, ◌↔◌, IfOk, IfSome, IsTrue, None, Some, if◌then◌else◌, is_ok, length, replicate, sum_by, true};
ghost use Rattle.std.specs.Option.{option_map};
ghost use Rattle.std.specs.Ordering.{nat_cmp, ordering_then};
ghost use Rattle.swarm_objects.specs.Nodes.BestNode.{best_node, load};
ghost use Rattle.swarm_objects.specs.Nodes.Filters.{admits, is_tested_on};
ghost use Rattle.swarm_objects.specs.Rows.{RisesFrom, itself, node_id};
ghost use Rattle.swarm_objects.specs.declared.nodes.Node.{Node as NodeRow};
ghost use Rattle.swarm_objects.specs.Usable.{IsUsable};
ghost use Rattle.swarm_spread.specs.Counts.{HasTask, IsFor, IsPlaceOf, IsScanned, Stands, best_by, best_place, counted_node, counts_of, empty_counts, is_before, one_fewer, one_more, place_order, with_change, with_task};

use crate::Admits;
use crate::levels::{Levels, empty_levels, zeros};
use crate::values::{has_path, keys_again, nodes_of, paths_of};
use std::alloc::Global;
use std::cmp::Ordering;
use std::marker::Model;
use swarm_objects::loads::{Loads, Scans};
use swarm_objects::placed::here;
use swarm_objects::walks::{nodes, tasks_of};
use swarm_objects::{Id, Key, List, Name, NoMemory, Node, Rows, Same, Task};

/// The counts of a service's tasks, on each node and in each branch of its placement preferences. Contracts see the
/// service, the keys of the preferences, the nodes, the values of each and how many tasks it has.
#[derive(Drop)]
pub struct SpreadTree {
    service: Id,
    keys: List<Key>,
    // By rising id.
    nodes: List<Id>,
    paths: List<List<Name>>,
    here: Vec<u64>,
    levels: Levels,
}

impl Model for SpreadTree {
    ghost use Rattle.swarm_spread.specs.Counts.{Counts, IsKept};

    ghost Value = { Counts };

    ghost view = { λ t. record {
      service = t.service;
      keys = t.keys;
      nodes = t.nodes;
      paths = t.paths;
      here = t.here.items;
    } };

    ghost invariant = { λ t. IsKept t.nodes t.paths t.here.items t.levels };
}

// One branch with so many places.
fn root(alloc: Global, count: usize) -> Result<Vec<usize>, NoMemory>
    ensures { IfOk result (λ branches. branches.items ≡ replicate count 0) }
{
    Ok(vec![in alloc; 0; count]?)
}

// Where the node stands.
fn place_of(nodes: &[Id], node: Id) -> Option<usize>
    requires { RisesFrom itself 0 nodes.now }
    ensures { IsPlaceOf nodes.now node result }
{
    match nodes.binary_search(&node) {
        Ok(place) => Some(place),
        Err(_) => None,
    }
}

// The node that the task counts on.
fn counted_node(task: &Task) -> Option<Id>
    ensures { result ≡ counted_node task.now }
{
    if task.is_live() && task.is_placed() {
        task.node
    } else {
        None
    }
}

// Which of two nodes comes first by the tasks of all services, and then by its id.
fn load_order<L: Loads>(loads: &L, one: Id, other: Id) -> Ordering
    ensures { let t = L.tables loads.now in
        result ≡ ordering_then (nat_cmp (load t one) (load t other)) (nat_cmp one other) }
{
    loads
        .load(one)
        .cmp(&loads.load(other))
        .then(one.cmp(&other))
}

impl SpreadTree {
    // The nodes of the rows, without a task.
    fn empty<R: Rows>(
        alloc: Global,
        rows: &R,
        service: Id,
        keys: &[Key],
    ) -> Result<SpreadTree, NoMemory>
        requires { IsUsable (R.tables rows.now) }
        ensures { IfOk result (λ tree. tree ≡ empty_counts (R.tables rows.now) service keys.now) }
    {
        let own = keys_again(alloc, keys)?;
        let nodes = nodes_of(alloc, rows)?;
        let paths = paths_of(alloc, rows, keys)?;
        let none = root(alloc, nodes.len())?;
        let levels = empty_levels(alloc, &none, paths.as_slice(), 0, keys.len())?;
        let here = zeros(alloc, nodes.len())?;
        Ok(SpreadTree {
            service,
            keys: own,
            nodes,
            paths,
            here,
            levels,
        })
    }

    // One task more on the node.
    fn raise(&mut self, node: Id)
        requires { sum_by itself self.old.here < 2 ^ 60 }
        ensures count { self.new ≡ with_change one_more self.old node }
        ensures few { sum_by itself self.new.here ≤ sum_by itself self.old.here + 1 }
    {
        match place_of(self.nodes.as_slice(), node) {
            Some(place) => {
                self.levels.raise(&self.here, place);
                self.here[place] += 1;
            }
            None => {}
        }
    }

    // The task is counted.
    fn count_task(&mut self, task: &Task)
        requires { sum_by itself self.old.here < 2 ^ 60 }
        ensures count { self.new ≡ with_task self.old task.now }
        ensures few { sum_by itself self.new.here ≤ sum_by itself self.old.here + 1 }
    {
        match counted_node(task) {
            Some(node) => self.raise(node),
            None => {}
        }
    }

    /// The tree of a service: its tasks are counted on each node and in each branch, which is all nodes that have the
    /// same values for the keys up to one.
    pub fn build<R: Rows>(
        alloc: Global,
        rows: &R,
        service: Id,
        keys: &[Key],
    ) -> Result<SpreadTree, NoMemory>
        requires { IsUsable (R.tables rows.now) }
        ensures counts { IfOk result (λ tree. tree ≡ counts_of (R.tables rows.now) service keys.now) }
        ensures few { IfOk result (λ tree. sum_by itself tree.here < 2 ^ 60) }
    {
        let mut tree = SpreadTree::empty(alloc, rows, service, keys)?;
        for task in tasks_of(rows, service) {
            tree.count_task(task);
        }
        Ok(tree)
    }

    /// Whether the counts are those of the task's service, by the keys of its own preferences.
    pub fn is_for(&self, task: &Task) -> bool
        ensures { IsTrue result ↔ IsFor task.now self.now }
    {
        self.service == task.service && self.keys.same(&task.template.spread)
    }

    // What stands at the place is what a scan of the rows says of the node.
    fn is_scanned<R: Rows>(&self, rows: &R, place: usize, node: &Node) -> bool
        requires { IsUsable (R.tables rows.now) }
        ensures { IsTrue result ↔ IsScanned (R.tables rows.now) self.now place node.now }
    {
        if place >= self.nodes.len() {
            return false;
        }
        if self.nodes.as_slice()[place] != node.id {
            return false;
        }
        let path = self.paths.as_slice()[place].as_slice();
        self.here[place] == here(rows, node.id, self.service)
            && has_path(node, self.keys.as_slice(), path)
    }

    /// Whether the counts are those of a scan of the rows. It takes no memory.
    pub fn stands<R: Rows>(&self, rows: &R) -> bool
        requires { IsUsable (R.tables rows.now) }
        ensures { IsTrue result ↔ Stands (R.tables rows.now) self.now }
    {
        let count = self.nodes.len();
        let mut place = 0;
        for node in nodes(rows) {
            if !self.is_scanned(rows, place, node) {
                return false;
            }
            place += 1;
        }
        place == count
    }

    /// Counts one task more on the node; a node that isn't in the tree changes nothing. It takes no memory.
    pub fn add(&mut self, node: Id) -> Result<(), NoMemory>
        requires { sum_by itself self.old.here < 2 ^ 60 }
        ensures always { is_ok result ≡ true }
        ensures count { self.new ≡ with_change one_more self.old node }
    {
        self.raise(node);
        Ok(())
    }

    /// Counts one task fewer on the node.
    pub fn drop_task(&mut self, node: Id)
        requires { HasTask self.old node }
        ensures { self.new ≡ with_change one_fewer self.old node }
    {
        match place_of(self.nodes.as_slice(), node) {
            Some(place) => {
                self.levels.lower(&self.here, place);
                self.here[place] -= 1;
            }
            None => {}
        }
    }

    // Which of two places comes first.
    fn order<L: Loads>(&self, loads: &L, one: usize, other: usize) -> Ordering
        requires one { one < length self.now.nodes }
        requires other { other < length self.now.nodes }
        ensures { result ≡ place_order (L.tables loads.now) self.now one other }
    {
        let order = self
            .levels
            .order(self.paths.as_slice(), &self.here, 0, one, other);
        if order != Ordering::Equal {
            return order;
        }
        let order = self.here[one].cmp(&self.here[other]);
        if order != Ordering::Equal {
            return order;
        }
        let nodes = self.nodes.as_slice();
        load_order(loads, nodes[one], nodes[other])
    }

    // The place comes before the best one so far.
    fn is_before<L: Loads>(&self, loads: &L, place: usize, best: Option<usize>) -> bool
        requires place { place < length self.now.nodes }
        requires best { IfSome best (λ other. other < length self.now.nodes) }
        ensures { result ≡ is_before (place_order (L.tables loads.now) self.now) place best }
    {
        match best {
            None => true,
            Some(best) => self.order(loads, place, best) == Ordering::Less,
        }
    }

    // The best place so far, or this one where its node passes the test and it comes before.
    fn better<L: Loads, A: Admits>(
        &self,
        loads: &L,
        task: &Task,
        test: &A,
        best: Option<usize>,
        place: usize,
        node: &Node,
    ) -> Option<usize>
        requires place { place < length self.now.nodes }
        requires best { IfSome best (λ other. other < length self.now.nodes) }
        ensures value { let order = place_order (L.tables loads.now) self.now in
            result ≡ if is_before order place best && A.test test.now node.now task.now then Some place else best }
        ensures within { IfSome result (λ other. other < length self.now.nodes) }
    {
        if self.is_before(loads, place, best) && test.admits(node, task) {
            Some(place)
        } else {
            best
        }
    }

    // The best place of those whose nodes pass the test.
    fn best_place<R: Rows, L: Loads, A: Admits>(
        &self,
        rows: &R,
        loads: &L,
        task: &Task,
        test: &A,
    ) -> Option<usize>
        requires usable { IsUsable (R.tables rows.now) }
        requires same { L.tables loads.now ≡ R.tables rows.now }
        requires nodes { length self.now.nodes ≡ length (R.tables rows.now).nodes }
        ensures value { let t = R.tables rows.now in
            result ≡ best_place (place_order t self.now) (λ n. A.test test.now n task.now) None 0 t.nodes }
        ensures within { IfSome result (λ other. other < length self.now.nodes) }
    {
        let mut best = None;
        let mut place = 0;
        for node in nodes(rows) {
            best = self.better(loads, task, test, best, place, node);
            place += 1;
        }
        best
    }

    /// As `best`, where it is known what the tasks on each node come to.
    pub fn best_by<R: Rows, L: Loads, A: Admits>(
        &self,
        rows: &R,
        loads: &L,
        task: &Task,
        test: &A,
    ) -> Option<Id>
        requires usable { IsUsable (R.tables rows.now) }
        requires same { L.tables loads.now ≡ R.tables rows.now }
        requires own { IsFor task.now self.now }
        requires stands { Stands (R.tables rows.now) self.now }
        ensures tested { let t = R.tables rows.now in
            result ≡ option_map node_id (best_by (λ n. A.test test.now n task.now) t task.now) }
        ensures filtered { let t = R.tables rows.now in
            ((n : NodeRow) →
            A.test test.now n task.now ≡ (is_tested_on task.now.place n.id && admits t task.now n)) →
            result ≡ option_map node_id (best_node t task.now) }
    {
        match self.best_place(rows, loads, task, test) {
            Some(place) => Some(self.nodes.as_slice()[place]),
            None => None,
        }
    }

    /// The best node for the task of those that pass the test. The sums of a node's branches are looked up, one for
    /// each preference; a node that doesn't come before the best one so far isn't tested.
    pub fn best<R: Rows, A: Admits>(&self, rows: &R, task: &Task, test: &A) -> Option<Id>
        requires usable { IsUsable (R.tables rows.now) }
        requires own { IsFor task.now self.now }
        requires stands { Stands (R.tables rows.now) self.now }
        ensures tested { let t = R.tables rows.now in
            result ≡ option_map node_id (best_by (λ n. A.test test.now n task.now) t task.now) }
        ensures filtered { let t = R.tables rows.now in
            ((n : NodeRow) →
            A.test test.now n task.now ≡ (is_tested_on task.now.place n.id && admits t task.now n)) →
            result ≡ option_map node_id (best_node t task.now) }
    {
        self.best_by(rows, &Scans::new(rows), task, test)
    }
}
