// The tasks that are placed on a node, what they reserve, and how many they are.
ghost use Rattle.std.specs.Prelude.{◌≡◌, ◌&&◌};
ghost use Rattle.std.specs.Iterator.{YieldsFirstRef, item_count};
ghost use Rattle.swarm_objects.specs.Nodes.BestNode.{load};
ghost use Rattle.swarm_objects.specs.Nodes.Filters.{here};
ghost use Rattle.swarm_objects.specs.Nodes.Holdings.{reserved_cpu, reserved_mem, task_cpu, task_mem, tasks_placed_on};
ghost use Rattle.swarm_objects.specs.Tasks.Words.{is_live, is_of};
ghost use Rattle.std.specs.Prelude.{count_by};
ghost use Rattle.swarm_objects.specs.Usable.{IsUsable};

use crate::walks::{TasksWith, tasks_on};
use crate::{Id, Rows, Task};
use std::marker::Model;

/// The tasks from ASSIGNED to RUNNING on a node that are left, by rising id. Contracts see the list of them.
#[derive(Drop)]
pub struct PlacedTasks<'a, R: Rows> {
    rest: TasksWith<'a, R>,
}

impl<'a, R: Rows> Model for PlacedTasks<'a, R> {
    ghost use Rattle.std.specs.Prelude.{List, filter};
    ghost use Rattle.swarm_objects.specs.declared.tasks.Task.{Task as Row};
    ghost use Rattle.swarm_objects.specs.Tasks.Words.{is_placed};

    ghost Value = { List Row };

    ghost view = { λ it. filter is_placed it.rest };
}

impl<'a, R: Rows> Iterator for PlacedTasks<'a, R> {
    type Item = &'a Task;

    ghost next_gives = { YieldsFirstRef (λ it. it) };

    ghost remaining = { item_count (λ it. it) };

    fn next(&mut self) -> Option<&'a Task> {
        while let Some(row) = self.rest.next() {
            if row.is_placed() {
                return Some(row);
            }
        }
        None
    }
}

/// The tasks from ASSIGNED to RUNNING on the node, by rising id.
#[tactic(auto, using(crate::proofs::Placing::placed_is))]
pub fn tasks_placed_on<R: Rows>(rows: &R, node: Id) -> PlacedTasks<'_, R>
    requires { IsUsable (R.tables rows.now) }
    ensures { result ≡ tasks_placed_on (R.tables rows.now) node }
{
    PlacedTasks {
        rest: tasks_on(rows, node),
    }
}

fn task_cpu(task: &Task) -> u64
    ensures { result ≡ task_cpu task.now }
{
    task.template.cpu
}

fn task_mem(task: &Task) -> u64
    ensures { result ≡ task_mem task.now }
{
    task.template.mem
}

/// What they reserve of the node's processors.
#[tactic(auto, using(crate::proofs::Placing::sum_steps))]
pub fn reserved_cpu<R: Rows>(rows: &R, node: Id) -> u128
    requires { IsUsable (R.tables rows.now) }
    ensures { result ≡ reserved_cpu (R.tables rows.now) node }
{
    let mut sum = 0;
    for task in tasks_placed_on(rows, node) {
        sum += u128::from(task_cpu(task));
    }
    sum
}

/// What they reserve of its memory.
#[tactic(auto, using(crate::proofs::Placing::sum_steps))]
pub fn reserved_mem<R: Rows>(rows: &R, node: Id) -> u128
    requires { IsUsable (R.tables rows.now) }
    ensures { result ≡ reserved_mem (R.tables rows.now) node }
{
    let mut sum = 0;
    for task in tasks_placed_on(rows, node) {
        sum += u128::from(task_mem(task));
    }
    sum
}

// The live ones of the service among them.
#[tactic(auto, using(crate::proofs::Placing::count_steps))]
fn count_here<R: Rows>(rows: &R, node: Id, service: Id) -> u64
    requires { IsUsable (R.tables rows.now) }
    ensures { let placed = tasks_placed_on (R.tables rows.now) node in
        result ≡ count_by (λ x. is_of service x && is_live x) placed }
{
    let mut count = 0;
    for task in tasks_placed_on(rows, node) {
        if task.is_of(service) && task.is_live() {
            count += 1;
        }
    }
    count
}

/// The service's live tasks from ASSIGNED to RUNNING on the node.
pub fn here<R: Rows>(rows: &R, node: Id, service: Id) -> u64
    requires { IsUsable (R.tables rows.now) }
    ensures { result ≡ here (R.tables rows.now) node service }
{
    count_here(rows, node, service)
}

// The live ones among them.
#[tactic(auto, using(crate::proofs::Placing::count_steps))]
fn count_live<R: Rows>(rows: &R, node: Id) -> u64
    requires { IsUsable (R.tables rows.now) }
    ensures { result ≡ count_by is_live (tasks_placed_on (R.tables rows.now) node) }
{
    let mut count = 0;
    for task in tasks_placed_on(rows, node) {
        if task.is_live() {
            count += 1;
        }
    }
    count
}

/// The live tasks of all services from ASSIGNED to RUNNING on the node.
#[tactic(auto, using(crate::proofs::Placing::load_is))]
pub fn load<R: Rows>(rows: &R, node: Id) -> u64
    requires { IsUsable (R.tables rows.now) }
    ensures { result ≡ load (R.tables rows.now) node }
{
    count_live(rows, node)
}
