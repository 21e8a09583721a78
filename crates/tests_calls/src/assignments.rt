// Messages of a session, due sets, and whether a message is there, each answer once.
ghost use Rattle.std.specs.Prelude.{◌≡◌, ◌<◌, ◌≤◌, ◌+◌, IfOk, OnOk};
ghost use Rattle.swarm_objects.specs.Agents.Messages.{assigned_task};
ghost use Rattle.swarm_objects.specs.Bounds.{far_end};
ghost use Rattle.swarm_objects.specs.Rows.{IsRising};

use crate::small_rows::pair;
use std::alloc::Global;
use std::test::Fail;
use swarm_assign::{Sent, Sents, due_set};
use swarm_objects::{
    AssignChange, Assigned, Desired, Id, List, Message, NoMemory, NodeState, TaskState, Workload,
};

// What a message shows.
type Shown = (bool, u64, u64, u64);

// The changes two digits each: 10 and the task that is updated, or 20 and the one that is removed.
fn digits(changes: &[AssignChange]) -> u64 {
    let mut code: u64 = 0;
    for change in changes {
        let one = match change {
            AssignChange::Update(assigned) => assigned.task.wrapping_add(10),
            AssignChange::Remove(task) => task.wrapping_add(20),
        };
        code = code.wrapping_mul(100).wrapping_add(one);
    }
    code
}

// Whether the message is a whole one, the numbers before and after it, and its changes.
fn shown(message: &Message) -> Shown {
    (
        message.complete,
        message.applies_to,
        message.results_in,
        digits(message.changes.as_slice()),
    )
}

// The next message, which is confirmed; nothing but zeros where there is none.
fn tell(sent: &mut Sent, due: &[Assigned]) -> Result<Shown, NoMemory>
    requires count { sent.old.count < far_end }
    requires rises { IsRising assigned_task due.now }
    ensures { OnOk result (sent.new.count ≤ sent.old.count + 1) }
{
    let Some(message) = sent.next(due)? else {
        return Ok((false, 0, 0, 0));
    };
    sent.confirm(&message)?;
    Ok(shown(&message))
}

fn wanted(task: Id, desired: Desired) -> Assigned
    ensures { result.task ≡ task }
{
    Assigned {
        task,
        desired,
        workload: Workload::usual(),
    }
}

// Nothing is due, nothing again, task 4 runs, it is to be removed, and is gone.
fn tell_of_one_task(sent: &mut Sent) -> Result<[Shown; 5], NoMemory>
    requires { sent.old.count ≡ 0 }
{
    Ok([
        tell(sent, &[])?,
        tell(sent, &[])?,
        tell(sent, &[wanted(4, Desired::Running)])?,
        tell(sent, &[wanted(4, Desired::Remove)])?,
        tell(sent, &[])?,
    ])
}

fn one_task_told(alloc: Global) -> Result<[Shown; 5], NoMemory> {
    let mut sent = Sent::new(alloc);
    let told = tell_of_one_task(&mut sent);
    drop(sent);
    told
}

#[test]
fn messages_of_a_session(rt: HostRuntime) -> Result<(), Fail> {
    let told = one_task_told(rt.alloc())?;
    assert_eq!(rt; told[0], (true, 0, 1, 0));
    assert_eq!(rt; told[1], (false, 0, 0, 0));
    assert_eq!(rt; told[2], (false, 1, 2, 14));
    assert_eq!(rt; told[3], (false, 2, 3, 14));
    assert_eq!(rt; told[4], (false, 3, 4, 24));
    Ok(())
}

// Tasks 2 and 5 run; 3 runs, 2 is gone and 5 is to stop; and nothing changes.
fn tell_of_three_tasks(sent: &mut Sent) -> Result<[Shown; 3], NoMemory>
    requires { sent.old.count ≡ 0 }
{
    let begun = [wanted(2, Desired::Running), wanted(5, Desired::Running)];
    let later = [wanted(3, Desired::Running), wanted(5, Desired::Shutdown)];
    Ok([
        tell(sent, &begun)?,
        tell(sent, &later)?,
        tell(sent, &later)?,
    ])
}

fn three_tasks_told(alloc: Global) -> Result<[Shown; 3], NoMemory> {
    let mut sent = Sent::new(alloc);
    let told = tell_of_three_tasks(&mut sent);
    drop(sent);
    told
}

#[test]
fn changes_by_rising_task(rt: HostRuntime) -> Result<(), Fail> {
    let told = three_tasks_told(rt.alloc())?;
    assert_eq!(rt; told[0], (true, 0, 1, 1215));
    assert_eq!(rt; told[1], (false, 1, 2, 221315));
    assert_eq!(rt; told[2], (false, 0, 0, 0));
    Ok(())
}

// How many tasks the node is to have, where the one on node 1 is in this state.
fn due_count(alloc: Global, node: Id, state: TaskState) -> Result<usize, NoMemory> {
    let rows = pair(alloc, 0, NodeState::Ready, state, Desired::Running)?;
    let due = due_set(alloc, &rows, node);
    drop(rows);
    Ok(due?.len())
}

#[test]
fn due_from_assigned_on(rt: HostRuntime) -> Result<(), Fail> {
    let alloc = rt.alloc();
    assert_eq!(rt; due_count(alloc, 1, TaskState::Pending)?, 0);
    assert_eq!(rt; due_count(alloc, 1, TaskState::Assigned)?, 1);
    assert_eq!(rt; due_count(alloc, 4, TaskState::Assigned)?, 0);
    Ok(())
}

// Whether a message is there for a node whose task runs.
fn is_due(alloc: Global, sent: &Sent, desired: Desired) -> Result<bool, NoMemory> {
    let rows = pair(alloc, 0, NodeState::Ready, TaskState::Running, desired)?;
    let is_due = sent.is_due(&rows, 1);
    drop(rows);
    Ok(is_due)
}

fn due_tasks(alloc: Global) -> Result<List<Assigned>, NoMemory>
    ensures { IfOk result (λ due. IsRising assigned_task due) }
{
    let rows = pair(
        alloc,
        0,
        NodeState::Ready,
        TaskState::Running,
        Desired::Running,
    )?;
    let due = due_set(alloc, &rows, 1);
    drop(rows);
    due
}

fn tell_due(sent: &mut Sent, due: &Result<List<Assigned>, NoMemory>) -> Result<(), NoMemory>
    requires count { sent.old.count < far_end }
    requires rises { IfOk due.now (λ due. IsRising assigned_task due) }
{
    match due {
        Ok(due) => {
            tell(sent, due.as_slice())?;
            Ok(())
        }
        Err(NoMemory) => Err(NoMemory),
    }
}

// A node is told of a task that runs.
fn tell_to_run(alloc: Global, sent: &mut Sent) -> Result<(), NoMemory>
    requires { sent.old.count < far_end }
{
    let due = due_tasks(alloc);
    let told = tell_due(sent, &due);
    drop(due);
    told
}

fn due_then(alloc: Global, sent: &mut Sent, desired: Desired) -> Result<(bool, bool), NoMemory>
    requires { sent.old.count < far_end }
{
    let before = is_due(alloc, sent, Desired::Running)?;
    tell_to_run(alloc, sent)?;
    Ok((before, is_due(alloc, sent, desired)?))
}

// Whether a message is there before any, and again once the task that was told to run is wanted so.
fn is_due_then(alloc: Global, desired: Desired) -> Result<(bool, bool), NoMemory> {
    let mut sent = Sent::new(alloc);
    let due = due_then(alloc, &mut sent, desired);
    drop(sent);
    due
}

#[test]
fn due_until_it_is_told(rt: HostRuntime) -> Result<(), Fail> {
    assert_eq!(rt; is_due_then(rt.alloc(), Desired::Running)?, (true, false));
    assert_eq!(rt; is_due_then(rt.alloc(), Desired::Shutdown)?, (true, true));
    Ok(())
}

fn shown_or_none(pulled: &Result<Option<Message>, NoMemory>) -> Result<Shown, NoMemory> {
    match pulled {
        Ok(Some(message)) => Ok(shown(message)),
        Ok(None) => Ok((false, 0, 0, 0)),
        Err(NoMemory) => Err(NoMemory),
    }
}

// What node 1 is sent of task 4, which is to run.
fn pulled(alloc: Global) -> Result<Shown, NoMemory> {
    let mut sents = Sents::new(alloc);
    let pulled = sents.pull(1, &[wanted(4, Desired::Running)]);
    drop(sents);
    let shown = shown_or_none(&pulled);
    drop(pulled);
    shown
}

#[test]
fn pulled_once(rt: HostRuntime) -> Result<(), Fail> {
    assert_eq!(rt; pulled(rt.alloc())?, (true, 0, 1, 14));
    Ok(())
}
