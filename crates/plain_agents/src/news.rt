// Whether a message is there for a node, without making it.
ghost use Rattle.std.specs.Prelude.{◌≡◌, ◌&&◌, MatchOption, false, is_some, not, true};
ghost use Rattle.std.specs.Cmp.Lexicographic.{pointwise};
ghost use Rattle.std.specs.List.{list_any};
ghost use Rattle.std.specs.Option.{option_copied};
ghost use Rattle.plain_agents.specs.Inside.News.{LeavesStep, StepsOn, differs, is_due_on, is_next, is_unsent_on, rest_of};
ghost use Rattle.swarm_objects.specs.Agents.Messages.{assigned, due_set, is_assigned_on, is_sent, message_for, same_assigned, sent_of};
ghost use Rattle.swarm_plain.specs.Entries.{HasOrder};
ghost use Rattle.swarm_plain.specs.Plain.{tables_of, world_of};

use swarm_objects::{Assigned, Id, NodeSent, Same, Task, TaskState, desired_rank, rank};
use swarm_plain::Plain;
use swarm_plain::halving::find_row;

// The node is to have it.
fn is_assigned_on(node: Id, task: &Task) -> bool
    ensures { result ≡ is_assigned_on node task.now }
{
    task.is_on(node) && rank(TaskState::Assigned) <= rank(task.state)
}

// This is what its node is to be told of it.
fn is_told(task: &Task, sent: &Assigned) -> bool
    ensures { result ≡ same_assigned (assigned task.now) sent.now }
{
    task.id == sent.task
        && desired_rank(task.desired) == desired_rank(sent.desired)
        && task.template.workload.same(&sent.workload)
}

fn was_told(task: &Task, sent: &[Assigned]) -> bool
    ensures { result ≡ is_sent sent.now (assigned task.now) }
{
    sent.iter().any(|one| is_told(task, one))
}

// The node is to have the task, and wasn't told so.
fn is_unsent_on(node: Id, sent: &[Assigned], task: &Task) -> bool
    ensures { result ≡ is_unsent_on node sent.now task.now }
{
    is_assigned_on(node, task) && !was_told(task, sent)
}

fn any_unsent(plain: &Plain, node: Id, sent: &[Assigned]) -> bool
    ensures { result ≡ list_any (is_unsent_on node sent.now) (tables_of plain.now).tasks }
{
    plain
        .tasks
        .as_slice()
        .iter()
        .any(|task| is_unsent_on(node, sent, task))
}

// The node is to have the task with this id.
fn is_due_on(plain: &Plain, node: Id, task: Id) -> bool
    requires { HasOrder (tables_of plain.now) }
    ensures { result ≡ is_due_on (tables_of plain.now) node task }
{
    find_row(plain.tasks.as_slice(), task).is_some_and(|row| is_assigned_on(node, row))
}

// It was told of a task that it isn't to have any more.
fn any_gone(plain: &Plain, node: Id, sent: &[Assigned]) -> bool
    requires { HasOrder (tables_of plain.now) }
    ensures { result ≡ list_any (λ one. not (is_due_on (tables_of plain.now) node one.task)) sent.now }
{
    for one in sent {
        if !is_due_on(plain, node, one.task) {
            return true;
        }
    }
    false
}

// What is left of what was sent behind the task, where the task is the next one of it.
fn behind<'a>(task: &Task, left: &'a [Assigned]) -> Option<&'a [Assigned]>
    ensures { let a = assigned task.now in
        MatchOption result (is_next a left.now ≡ false)
        (λ rest. (is_next a left.now ≡ true) × (rest.now ≡ rest_of left.now)) }
{
    let Some((one, rest)) = left.split_first() else {
        return None;
    };
    if is_told(task, one) { Some(rest) } else { None }
}

// The same, where the node is to have the task; else all of it is left.
fn step_on<'a>(node: Id, task: &Task, left: &'a [Assigned]) -> Option<&'a [Assigned]>
    ensures { MatchOption result (LeavesStep node task.now left.now) (λ rest. StepsOn node task.now left.now rest.now) }
{
    if is_assigned_on(node, task) {
        behind(task, left)
    } else {
        Some(left)
    }
}

// What was sent is what the node is to have, in its order.
fn is_in_step(plain: &Plain, node: Id, sent: &[Assigned]) -> bool
    ensures { result ≡ pointwise same_assigned (due_set (tables_of plain.now) node) sent.now }
{
    let mut left = sent;
    for task in plain.tasks.as_slice() {
        match step_on(node, task, left) {
            Some(rest) => left = rest,
            None => return false,
        }
    }
    left.is_empty()
}

// What the node is to have differs from what was sent. Mostly it doesn't, and one pass tells that.
fn differs(plain: &Plain, node: Id, sent: &[Assigned]) -> bool
    requires { HasOrder (tables_of plain.now) }
    ensures { result ≡ differs (tables_of plain.now) node sent.now }
{
    if is_in_step(plain, node, sent) {
        return false;
    }
    any_gone(plain, node, sent) || any_unsent(plain, node, sent)
}

fn sent_of(plain: &Plain, node: Id) -> Option<&NodeSent>
    ensures { option_copied result ≡ sent_of (world_of plain.now) node }
{
    plain.sent.as_slice().iter().find(|row| row.node == node)
}

/// A message is there for the node: nothing was sent in its session, or what was sent differs from what is due.
pub fn has_message(plain: &Plain, node: Id) -> bool
    requires { HasOrder (tables_of plain.now) }
    ensures { result ≡ is_some (message_for (world_of plain.now) node) }
{
    match sent_of(plain, node) {
        Some(sent) => differs(plain, node, sent.tasks.as_slice()),
        None => true,
    }
}
