// What a node may report of a task.
ghost use Rattle.std.specs.Prelude.{◌≡◌};
ghost use Rattle.swarm_objects.specs.Refusals.{unless};
ghost use Rattle.swarm_objects.specs.Nodes.Admission.{bad_report, is_no_report};
ghost use Rattle.swarm_objects.specs.Agents.Messages.{is_assigned_on};

use swarm_objects::{Id, Refusal, Task, TaskState, rank};

// It has this node, and is from ASSIGNED on.
fn is_assigned_on(node: Id, task: &Task) -> bool
    ensures { result ≡ is_assigned_on node task.now }
{
    rank(TaskState::Assigned) <= rank(task.state) && task.is_on(node)
}

/// No node reports this state.
pub fn is_no_report(state: TaskState) -> bool
    ensures { result ≡ is_no_report state }
{
    rank(state) < rank(TaskState::Accepted) || rank(TaskState::Rejected) < rank(state)
}

/// Whether the node may report this state of the task: the task is assigned to it, and the state is one from ACCEPTED
/// to REJECTED.
pub fn status_check(task: &Task, node: Id, state: TaskState) -> Result<(), Refusal>
    ensures { result ≡ unless (bad_report node task.now state) tt }
{
    if !is_assigned_on(node, task) {
        return Err(Refusal::NotThisNode(task.id));
    }
    if is_no_report(state) {
        return Err(Refusal::BadState(state));
    }
    Ok(())
}
