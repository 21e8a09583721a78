// How what is due differs from what was sent, and what a node has by such changes.
ghost use Rattle.std.specs.Prelude.{◌≡◌, IfOk, map};
ghost use Rattle.std.specs.Option.{option_to_list};
ghost use Rattle.swarm_assign.specs.Inside.Merging.{change_task, difference_of, head_at, left_of, merged};
ghost use Rattle.swarm_objects.specs.Agents.Messages.{assigned_task, same_assigned};
ghost use Rattle.swarm_objects.specs.Rows.{IsRising};
ghost use Rattle.swarm_objects.specs.Same.{same_workload};

use crate::merging::{head_at, least_task, put, rest_at};
use std::alloc::Global;
use swarm_objects::{
    AssignChange, Assigned, Id, List, NoMemory, Same, Workload, add, desired_rank,
};

fn same_workload(one: &Workload, other: &Workload) -> bool
    ensures { result ≡ same_workload one.now other.now }
{
    one.same(other)
}

/// The same is said of one task.
pub fn same_assigned(one: &Assigned, other: &Assigned) -> bool
    ensures { result ≡ same_assigned one.now other.now }
{
    one.task == other.task
        && desired_rank(one.desired) == desired_rank(other.desired)
        && same_workload(&one.workload, &other.workload)
}

// How what is due of the task, which comes first in one of the lists, differs from what was sent of it.
fn difference_at(sent: &[Assigned], due: &[Assigned], task: Id) -> Option<AssignChange>
    ensures { option_to_list result
        ≡ difference_of task (head_at assigned_task task sent.now) (head_at assigned_task task due.now) }
{
    match (head_at(sent, task), head_at(due, task)) {
        (_, None) => Some(AssignChange::Remove(task)),
        (None, Some(due)) => Some(AssignChange::Update(*due)),
        (Some(sent), Some(due)) if same_assigned(due, sent) => None,
        (Some(_), Some(due)) => Some(AssignChange::Update(*due)),
    }
}

/// How what is due differs from what was sent, by rising task.
pub fn differences(
    alloc: Global,
    sent: &[Assigned],
    due: &[Assigned],
) -> Result<List<AssignChange>, NoMemory>
    requires sent { IsRising assigned_task sent.now }
    requires due { IsRising assigned_task due.now }
    ensures { IfOk result
        (λ changes. changes ≡ merged assigned_task assigned_task difference_of sent.now due.now) }
{
    let mut changes = List::new(alloc);
    let mut sent = sent;
    let mut due = due;
    while let Some(task) = least_task(sent, due) {
        put(&mut changes, difference_at(sent, due, task))?;
        sent = rest_at(sent, task);
        due = rest_at(due, task);
    }
    Ok(changes)
}

/// An update for each that is due.
pub fn updates(alloc: Global, due: &[Assigned]) -> Result<List<AssignChange>, NoMemory>
    ensures { IfOk result (λ changes. changes ≡ map AssignChange.Update due.now) }
{
    let mut changes = List::new(alloc);
    for one in due {
        add(&mut changes, AssignChange::Update(*one))?;
    }
    Ok(changes)
}

// What the node has of the task, which comes first in one of the lists, by the change of it.
fn left_at(changes: &[AssignChange], told: &[Assigned], task: Id) -> Option<Assigned>
    ensures { option_to_list result
        ≡ left_of task (head_at change_task task changes.now) (head_at assigned_task task told.now) }
{
    match (head_at(changes, task), head_at(told, task)) {
        (None, None) => None,
        (None, Some(one)) => Some(*one),
        (Some(AssignChange::Update(one)), _) => Some(*one),
        (Some(AssignChange::Remove(_)), _) => None,
    }
}

/// What a node has by the changes, of which there is one a task at most.
pub fn changed(
    alloc: Global,
    changes: &[AssignChange],
    told: &[Assigned],
) -> Result<List<Assigned>, NoMemory>
    requires changes { IsRising change_task changes.now }
    requires told { IsRising assigned_task told.now }
    ensures { IfOk result (λ left. left ≡ merged change_task assigned_task left_of changes.now told.now) }
{
    let mut left = List::new(alloc);
    let mut changes = changes;
    let mut told = told;
    while let Some(task) = least_task(changes, told) {
        put(&mut left, left_at(changes, told, task))?;
        changes = rest_at(changes, task);
        told = rest_at(told, task);
    }
    Ok(left)
}
