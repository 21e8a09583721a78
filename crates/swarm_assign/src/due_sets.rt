// What a node is to have.
ghost use Rattle.std.specs.Prelude.{◌≡◌, ◌∷◌, false, IfOk, List, MatchOption};
ghost use Rattle.std.specs.Cmp.Lexicographic.{pointwise};
ghost use Rattle.swarm_assign.specs.Inside.Merging.{is_from_assigned};
ghost use Rattle.swarm_objects.specs.Agents.Messages.{assigned_task, due_set, same_assigned};
ghost use Rattle.swarm_objects.specs.Rows.{IsRising};
ghost use Rattle.swarm_objects.specs.Usable.{IsUsable};

use crate::differences::same_assigned;
use std::alloc::Global;
use swarm_objects::messages::assignment;
use swarm_objects::walks::tasks_on;
use swarm_objects::{Assigned, Id, List, NoMemory, Rows, Task, TaskState, add, rank};

// It is at least ASSIGNED.
fn is_from_assigned(task: &Task) -> bool
    ensures { result ≡ is_from_assigned task.now }
{
    rank(TaskState::Assigned) <= rank(task.state)
}

#[tactic(auto, using(crate::proofs::DueSets::due_of_node))]
fn assigned_tasks<R: Rows>(alloc: Global, rows: &R, node: Id) -> Result<List<Assigned>, NoMemory>
    requires { IsUsable (R.tables rows.now) }
    ensures { IfOk result (λ due. due ≡ due_set (R.tables rows.now) node) }
{
    let mut due = List::new(alloc);
    for task in tasks_on(rows, node) {
        if is_from_assigned(task) {
            add(&mut due, assignment(task))?;
        }
    }
    Ok(due)
}

/// What the node is to have: its tasks that are at least ASSIGNED, by rising id.
#[tactic(auto, using(crate::proofs::DueSets::due_list_rises))]
pub fn due_set<R: Rows>(alloc: Global, rows: &R, node: Id) -> Result<List<Assigned>, NoMemory>
    requires { IsUsable (R.tables rows.now) }
    ensures set { IfOk result (λ due. due ≡ due_set (R.tables rows.now) node) }
    ensures rises { IfOk result (λ due. IsRising assigned_task due) }
{
    assigned_tasks(alloc, rows, node)
}

// What was sent behind this, where this comes first.
fn behind<'a>(sent: &'a [Assigned], one: &Assigned) -> Option<&'a [Assigned]>
    ensures { (due : List Assigned) → MatchOption result
        (pointwise same_assigned sent.now (one.now ∷ due) ≡ false)
        (λ rest. pointwise same_assigned sent.now (one.now ∷ due) ≡ pointwise same_assigned rest.now due) }
{
    match sent {
        [first, rest @ ..] if same_assigned(first, one) => Some(rest),
        _ => None,
    }
}

/// What was sent is what the node is to have; by one pass, without memory.
#[tactic(auto, using(crate::proofs::DueSets::due_of_node))]
pub fn is_all_sent<R: Rows>(sent: &[Assigned], rows: &R, node: Id) -> bool
    requires { IsUsable (R.tables rows.now) }
    ensures { result ≡ pointwise same_assigned sent.now (due_set (R.tables rows.now) node) }
{
    let mut left = sent;
    for task in tasks_on(rows, node) {
        if is_from_assigned(task) {
            match behind(left, &assignment(task)) {
                Some(rest) => left = rest,
                None => return false,
            }
        }
    }
    left.is_empty()
}
