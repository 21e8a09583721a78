// Rows one after the other, as iterators that are seen as the list of the rows that are left.
ghost use Rattle.std.specs.Prelude.{◌≡◌, ◌∷◌, MatchOption, [], filter};
ghost use Rattle.std.specs.Iterator.{YieldsFirstRef, item_count};
ghost use Rattle.std.specs.Option.{option_copied};
ghost use Rattle.swarm_objects.specs.Rows.{row_above, task_id};
ghost use Rattle.swarm_objects.specs.Tasks.Words.{has_key, is_at, is_of, is_on};
ghost use Rattle.swarm_objects.specs.Usable.{IsUsable};
ghost use Rattle.swarm_objects.specs.Walks.{named_with};

use crate::{Id, Network, Node, Place, Rows, Service, Task, TaskKey};
use std::marker::Model;

/// The nodes that are left, by rising id. Contracts see the list of them.
#[derive(Drop)]
pub struct NodeRows<'a, R: Rows> {
    rows: &'a R,
    after: Id,
}

impl<'a, R: Rows> Model for NodeRows<'a, R> {
    ghost use Rattle.std.specs.Prelude.{List};
    ghost use Rattle.swarm_objects.specs.declared.nodes.Node.{Node as Row};
    ghost use Rattle.swarm_objects.specs.Rows.{node_id};
    ghost use Rattle.swarm_objects.specs.Walks.{walk};

    ghost Value = { List Row };

    ghost view = { λ it. walk node_id it.after (R.tables it.rows.now).nodes };
}

impl<'a, R: Rows> Iterator for NodeRows<'a, R> {
    type Item = &'a Node;

    ghost next_gives = { YieldsFirstRef (λ it. it) };

    ghost remaining = { item_count (λ it. it) };

    #[tactic(auto, using(crate::proofs::WalkLemmas::walk_end))]
    fn next(&mut self) -> Option<&'a Node> {
        let row = self.rows.next_node(self.after)?;
        self.after = row.id;
        Some(row)
    }
}

/// All nodes, by rising id.
#[tactic(auto, using(crate::proofs::WalkLemmas::walk_begins))]
pub fn nodes<R: Rows>(rows: &R) -> NodeRows<'_, R>
    requires { IsUsable (R.tables rows.now) }
    ensures { result ≡ (R.tables rows.now).nodes }
{
    NodeRows { rows, after: 0 }
}

/// The services that are left, by rising id. Contracts see the list of them.
#[derive(Drop)]
pub struct ServiceRows<'a, R: Rows> {
    rows: &'a R,
    after: Id,
}

impl<'a, R: Rows> Model for ServiceRows<'a, R> {
    ghost use Rattle.std.specs.Prelude.{List};
    ghost use Rattle.swarm_objects.specs.declared.services.Service.{Service as Row};
    ghost use Rattle.swarm_objects.specs.Rows.{service_id};
    ghost use Rattle.swarm_objects.specs.Walks.{walk};

    ghost Value = { List Row };

    ghost view = { λ it. walk service_id it.after (R.tables it.rows.now).services };
}

impl<'a, R: Rows> Iterator for ServiceRows<'a, R> {
    type Item = &'a Service;

    ghost next_gives = { YieldsFirstRef (λ it. it) };

    ghost remaining = { item_count (λ it. it) };

    #[tactic(auto, using(crate::proofs::WalkLemmas::walk_end))]
    fn next(&mut self) -> Option<&'a Service> {
        let row = self.rows.next_service(self.after)?;
        self.after = row.id;
        Some(row)
    }
}

/// All services, by rising id.
#[tactic(auto, using(crate::proofs::WalkLemmas::walk_begins))]
pub fn services<R: Rows>(rows: &R) -> ServiceRows<'_, R>
    requires { IsUsable (R.tables rows.now) }
    ensures { result ≡ (R.tables rows.now).services }
{
    ServiceRows { rows, after: 0 }
}

/// The tasks that are left, by rising id. Contracts see the list of them.
#[derive(Drop)]
pub struct TaskRows<'a, R: Rows> {
    rows: &'a R,
    after: Id,
}

impl<'a, R: Rows> Model for TaskRows<'a, R> {
    ghost use Rattle.std.specs.Prelude.{List};
    ghost use Rattle.swarm_objects.specs.declared.tasks.Task.{Task as Row};
    ghost use Rattle.swarm_objects.specs.Rows.{task_id};
    ghost use Rattle.swarm_objects.specs.Walks.{walk};

    ghost Value = { List Row };

    ghost view = { λ it. walk task_id it.after (R.tables it.rows.now).tasks };
}

impl<'a, R: Rows> Iterator for TaskRows<'a, R> {
    type Item = &'a Task;

    ghost next_gives = { YieldsFirstRef (λ it. it) };

    ghost remaining = { item_count (λ it. it) };

    #[tactic(auto, using(crate::proofs::WalkLemmas::walk_end))]
    fn next(&mut self) -> Option<&'a Task> {
        let row = self.rows.next_task(self.after)?;
        self.after = row.id;
        Some(row)
    }
}

/// All tasks, by rising id.
#[tactic(auto, using(crate::proofs::WalkLemmas::walk_begins))]
pub fn tasks<R: Rows>(rows: &R) -> TaskRows<'_, R>
    requires { IsUsable (R.tables rows.now) }
    ensures { result ≡ (R.tables rows.now).tasks }
{
    TaskRows { rows, after: 0 }
}

/// The networks that are left, by rising id. Contracts see the list of them.
#[derive(Drop)]
pub struct NetworkRows<'a, R: Rows> {
    rows: &'a R,
    after: Id,
}

impl<'a, R: Rows> Model for NetworkRows<'a, R> {
    ghost use Rattle.std.specs.Prelude.{List};
    ghost use Rattle.swarm_objects.specs.declared.networks.Network.{Network as Row};
    ghost use Rattle.swarm_objects.specs.Rows.{network_id};
    ghost use Rattle.swarm_objects.specs.Walks.{walk};

    ghost Value = { List Row };

    ghost view = { λ it. walk network_id it.after (R.tables it.rows.now).networks };
}

impl<'a, R: Rows> Iterator for NetworkRows<'a, R> {
    type Item = &'a Network;

    ghost next_gives = { YieldsFirstRef (λ it. it) };

    ghost remaining = { item_count (λ it. it) };

    #[tactic(auto, using(crate::proofs::WalkLemmas::walk_end))]
    fn next(&mut self) -> Option<&'a Network> {
        let row = self.rows.next_network(self.after)?;
        self.after = row.id;
        Some(row)
    }
}

/// All networks, by rising id.
#[tactic(auto, using(crate::proofs::WalkLemmas::walk_begins))]
pub fn networks<R: Rows>(rows: &R) -> NetworkRows<'_, R>
    requires { IsUsable (R.tables rows.now) }
    ensures { result ≡ (R.tables rows.now).networks }
{
    NetworkRows { rows, after: 0 }
}

// How the tasks with a key that are left are met.
#[derive(Clone, Copy)]
enum Left<'a> {
    // those of these ids that have the key
    Named(&'a [Id]),
    // from one to the next by the key, behind this id
    Behind(Id),
}

/// The tasks with a key that are left, by rising id. The key is looked up once, where the rows have the ids at hand.
/// Contracts see the list of the tasks.
#[derive(Drop)]
pub struct TasksWith<'a, R: Rows> {
    rows: &'a R,
    key: TaskKey,
    left: Left<'a>,
}

impl<'a, R: Rows> Model for TasksWith<'a, R> {
    ghost use Rattle.std.specs.Prelude.{List};
    ghost use Rattle.swarm_objects.specs.declared.tasks.Task.{Task as Row};
    ghost use Rattle.swarm_objects.specs.Walks.{left_with};

    ghost Value = { List Row };

    ghost view = { λ it. left_with it.key it.left (R.tables it.rows.now).tasks };
}

// The task with the key that has the least id above this one.
fn next_with<R: Rows>(rows: &R, key: TaskKey, after: Id) -> Option<&Task>
    ensures { option_copied result ≡ row_above task_id after (filter (has_key key) (R.tables rows.now).tasks) }
{
    match key {
        TaskKey::Service(service) => rows.next_task_of(service, after),
        TaskKey::Place(service, place) => rows.next_task_at(service, place, after),
        TaskKey::Node(node) => rows.next_task_on(node, after),
    }
}

// The first of these ids' tasks that has the key, and the ids behind it.
fn first_named<'a, R: Rows>(
    rows: &'a R,
    key: TaskKey,
    ids: &'a [Id],
) -> Option<(&'a Task, &'a [Id])>
    ensures { let tasks = (R.tables rows.now).tasks in
        MatchOption result (named_with key ids.now tasks ≡ [])
        (λ first. named_with key ids.now tasks ≡ first.0.now ∷ named_with key first.1.now tasks) }
{
    let mut left = ids;
    while let Some((id, others)) = left.split_first() {
        if let Some(task) = rows.task(*id) {
            if task.has_key(key) {
                return Some((task, others));
            }
        }
        left = others;
    }
    None
}

impl<'a, R: Rows> Iterator for TasksWith<'a, R> {
    type Item = &'a Task;

    ghost next_gives = { YieldsFirstRef (λ it. it) };

    ghost remaining = { item_count (λ it. it) };

    #[tactic(auto, using(crate::proofs::WalkLemmas::walk_end))]
    fn next(&mut self) -> Option<&'a Task> {
        match self.left {
            Left::Named(ids) => {
                let (task, others) = first_named(self.rows, self.key, ids)?;
                self.left = Left::Named(others);
                Some(task)
            }
            Left::Behind(after) => {
                let task = next_with(self.rows, self.key, after)?;
                self.left = Left::Behind(task.id);
                Some(task)
            }
        }
    }
}

// The tasks with the key, by rising id.
#[tactic(auto, using(crate::proofs::WalkLemmas::walk_begins_among))]
fn tasks_with<R: Rows>(rows: &R, key: TaskKey) -> TasksWith<'_, R>
    requires { IsUsable (R.tables rows.now) }
    ensures { result ≡ filter (has_key key) (R.tables rows.now).tasks }
{
    let left = match rows.ids_with(key) {
        Some(ids) => Left::Named(ids),
        None => Left::Behind(0),
    };
    TasksWith { rows, key, left }
}

/// The tasks of the service, by rising id.
pub fn tasks_of<R: Rows>(rows: &R, service: Id) -> TasksWith<'_, R>
    requires { IsUsable (R.tables rows.now) }
    ensures { result ≡ filter (is_of service) (R.tables rows.now).tasks }
{
    tasks_with(rows, TaskKey::Service(service))
}

/// The tasks whose place is this one of the service, by rising id.
pub fn tasks_at<R: Rows>(rows: &R, service: Id, place: Place) -> TasksWith<'_, R>
    requires { IsUsable (R.tables rows.now) }
    ensures { result ≡ filter (is_at service place) (R.tables rows.now).tasks }
{
    tasks_with(rows, TaskKey::Place(service, place))
}

/// The tasks of the node, by rising id.
pub fn tasks_on<R: Rows>(rows: &R, node: Id) -> TasksWith<'_, R>
    requires { IsUsable (R.tables rows.now) }
    ensures { result ≡ filter (is_on node) (R.tables rows.now).tasks }
{
    tasks_with(rows, TaskKey::Node(node))
}
