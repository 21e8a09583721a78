// The enforcer: tasks on nodes that don't meet their constraints any more.
ghost use Rattle.std.specs.Prelude.{◌≡◌};
ghost use Rattle.swarm_objects.specs.Loops.Enforcer.{breaks_constraints, enforcer, is_misplaced};
ghost use Rattle.swarm_objects.specs.Rows.{first_of};
ghost use Rattle.swarm_objects.specs.Usable.{IsUsable};

use swarm_filters::meets_all;
use swarm_objects::homes::node_of;
use swarm_objects::walks::tasks;
use swarm_objects::{Duty, Node, Rows, Task};

/// The node doesn't meet each of the task's constraints.
pub fn breaks_constraints(task: &Task, node: &Node) -> bool
    ensures { result ≡ breaks_constraints task.now node.now }
{
    !meets_all(task.template.constraints.as_slice(), node)
}

/// It is live, on a node that doesn't meet its constraints any more.
pub fn is_misplaced<R: Rows>(rows: &R, task: &Task) -> bool
    ensures { result ≡ is_misplaced (R.tables rows.now) task.now }
{
    task.is_live()
        && task.is_placed()
        && node_of(rows, task).is_some_and(|node| breaks_constraints(task, node))
}

/// The first duty of the enforcer.
pub fn least_enforcer<R: Rows>(rows: &R) -> Option<Duty>
    requires { IsUsable (R.tables rows.now) }
    ensures { result ≡ first_of (enforcer (R.tables rows.now)) }
{
    for task in tasks(rows) {
        if is_misplaced(rows, task) {
            return Some(Duty::Reject(task.id));
        }
    }
    None
}
