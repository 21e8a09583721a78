// The scheduler's duties over any rows: the first, and what each changes. What is remembered of nodes need not be found
// by scans again.
#![tactic(auto)]

mod alike;
mod branches;
mod changing;
mod class_loads;
mod class_search;
mod class_table;
mod classes;
mod filters;
mod keys;
mod known;
mod known_nodes;
mod known_refusals;
mod last_group;
mod near;
mod orders;
mod placing;
mod ranks;
mod refused;
mod totals;
mod touching;

ghost use Rattle.std.specs.Prelude.{◌≡◌};
ghost use Rattle.swarm_objects.specs.Loops.Scheduler.{is_to_drop, is_to_place, schedule, scheduler};
ghost use Rattle.swarm_objects.specs.Rows.{first_of};
ghost use Rattle.swarm_objects.specs.Usable.{IsUsable};
ghost use Rattle.swarm_sched.specs.Inside.KnownNodes.{KnowsNodes};

use crate::refused::{counts_if_refused, explained, explanation, was_refused};
pub use alike::{schedule_after, waits_alike};
pub use changing::changes;
pub use filters::Filters;
pub use keys::{agrees, value_cmp};
pub use known::Moved;
pub use known_nodes::KnownNodes;
pub use near::{Near, least_near};
pub use placing::{best_node, best_node_by};
use swarm_objects::walks::tasks;
use swarm_objects::{Duty, Rows, Task};

/// The task isn't placed yet, and is to stop.
pub fn is_to_drop(task: &Task) -> bool
    ensures { result ≡ is_to_drop task.now }
{
    task.is_below_assigned() && task.is_unwanted()
}

/// The task waits for a node, and is to run.
pub fn is_to_place(task: &Task) -> bool
    ensures { result ≡ is_to_place task.now }
{
    task.state.is_pending() && task.is_wanted()
}

/// What there is to do about the task.
pub fn schedule<R: Rows>(rows: &R, known: &mut KnownNodes, task: &Task) -> Option<Duty>
    requires usable { IsUsable (R.tables rows.now) }
    requires knows { KnowsNodes (R.tables rows.now) known.old }
    ensures first { result ≡ first_of (schedule (R.tables rows.now) task.now) }
    ensures knows { KnowsNodes (R.tables rows.now) known.new }
{
    if is_to_drop(task) {
        return Some(Duty::Drop(task.id));
    }
    if !is_to_place(task) {
        return None;
    }
    if was_refused(task)
        && let Some(counts) = counts_if_refused(rows, known, task)
    {
        return explained(task, counts);
    }
    match best_node(rows, known, task) {
        Some(node) => Some(Duty::Place(task.id, node.id)),
        None => explanation(rows, &known.totals, task),
    }
}

/// The scheduler's first duty.
pub fn least<R: Rows>(rows: &R) -> Option<Duty>
    requires { IsUsable (R.tables rows.now) }
    ensures { result ≡ first_of (scheduler (R.tables rows.now)) }
{
    let mut known = KnownNodes::none();
    for task in tasks(rows) {
        if let Some(duty) = schedule(rows, &mut known, task) {
            return Some(duty);
        }
    }
    None
}
