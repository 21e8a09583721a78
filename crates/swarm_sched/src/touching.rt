// The nodes that changes of rows touch, as they will be and as they were.
ghost use Rattle.std.specs.Prelude.{◌≡◌};
ghost use Rattle.swarm_sched.specs.Inside.Touching.{former_node, touched};

use swarm_objects::{Change, Id, Rows};

/// The node of the task with this id.
pub fn former_node<R: Rows>(rows: &R, id: Id) -> Option<Id>
    ensures { result ≡ former_node (R.tables rows.now) id }
{
    match rows.task(id) {
        Some(task) => task.node,
        None => None,
    }
}

/// The node that the change puts, or those of the task that it puts or drops, as it will be and as it was.
pub fn touched<R: Rows>(rows: &R, change: &Change) -> (Option<Id>, Option<Id>)
    ensures { result ≡ touched (R.tables rows.now) change.now }
{
    match change {
        Change::PutNode(node) => (Some(node.id), None),
        Change::PutTask(task) => (task.node, former_node(rows, task.id)),
        Change::DropTask(id) => (None, former_node(rows, *id)),
        Change::PutService(_) | Change::Keep(_) => (None, None),
    }
}
