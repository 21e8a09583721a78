// What a message makes of executors. Where memory is wanting, what was changed so far is changed back.
ghost use Rattle.std.specs.Prelude.{◌≡◌, ◌∷◌, ◌++◌, [], IfOk, OnErr, OnOk, fold, map};
ghost use Rattle.swarm_objects.specs.Agents.Messages.{is_stale};
ghost use Rattle.swarm_agent.specs.Inside.Named.{AreNamed};
ghost use Rattle.swarm_agent.specs.Inside.Undo.{restored, undone};
ghost use Rattle.swarm_objects.specs.Agents.Messages.{
  applied,
  apply_change,
  change_executor,
  gone_executor,
  left_out,
  new_executor,
  updated,
};

use crate::executors::{Executors, executor_of};
use std::alloc::Global;
use std::collections::BTreeSet;
use swarm_objects::{AssignChange, Assigned, Executor, Id, Message, NoMemory, TaskState};

// What a task had before a change.
#[derive(Clone, Copy)]
struct Former {
    task: Id,
    executor: Option<Executor>,
}

/// The message has only changes, which don't begin at this number.
pub fn is_stale(applied: u64, message: &Message) -> bool
    ensures { result ≡ is_stale applied message.now }
{
    !message.complete && message.applies_to != applied
}

// The executor of a task that is assigned now.
fn new_executor(assigned: &Assigned) -> Executor
    ensures { result ≡ new_executor 0 assigned.now }
{
    Executor {
        task: assigned.task,
        desired: assigned.desired,
        workload: assigned.workload,
        state: TaskState::Accepted,
        since: 0,
        stopping: None,
        reported: None,
        gone: false,
    }
}

// The task has what it had.
fn restore(executors: &mut Executors, former: Former)
    ensures { executors.new ≡ restored former executors.old }
{
    match former.executor {
        Some(executor) => executors.set(executor),
        None => executors.remove(former.task),
    }
}

// All of them have what they had, the last one first.
fn undo(executors: &mut Executors, mut log: Vec<Former>)
    ensures { executors.new ≡ undone log.items executors.old }
{
    while let Some(former) = log.pop() {
        restore(executors, former);
    }
}

// Puts it last, unless memory is wanting; then the log stays as it is.
fn note(log: &mut Vec<Former>, former: Former) -> Result<(), NoMemory>
    ensures ok { OnOk result (log.new.items ≡ log.old.items ++ former ∷ []) }
    ensures err { OnErr result (log.new.items ≡ log.old.items) }
{
    match log.push(former) {
        Ok(()) => Ok(()),
        Err(_) => Err(NoMemory),
    }
}

// An executor that is there gets its desired state, and another one comes.
fn update(
    executors: &mut Executors,
    log: &mut Vec<Former>,
    assigned: &Assigned,
) -> Result<(), NoMemory>
    ensures ok { OnOk result (executors.new ≡ updated 0 executors.old assigned.now) }
    ensures back { undone log.new.items executors.new ≡ undone log.old.items executors.old }
{
    let executor = executor_of(executors, assigned.task);
    note(
        log,
        Former {
            task: assigned.task,
            executor,
        },
    )?;
    match executor {
        Some(mut executor) => {
            executor.desired = assigned.desired;
            executors.set(executor);
            Ok(())
        }
        None => executors.put(new_executor(assigned)),
    }
}

// The executor of the task is gone.
fn leave(executors: &mut Executors, log: &mut Vec<Former>, task: Id) -> Result<(), NoMemory>
    ensures ok { OnOk result (executors.new ≡ change_executor task gone_executor executors.old) }
    ensures back { undone log.new.items executors.new ≡ undone log.old.items executors.old }
{
    let executor = executor_of(executors, task);
    note(log, Former { task, executor })?;
    if let Some(mut executor) = executor {
        executor.gone = true;
        executors.set(executor);
    }
    Ok(())
}

fn apply_change(
    executors: &mut Executors,
    log: &mut Vec<Former>,
    change: &AssignChange,
) -> Result<(), NoMemory>
    ensures ok { OnOk result (executors.new ≡ apply_change 0 executors.old change.now) }
    ensures back { undone log.new.items executors.new ≡ undone log.old.items executors.old }
{
    match change {
        AssignChange::Update(assigned) => update(executors, log, assigned),
        AssignChange::Remove(task) => leave(executors, log, *task),
    }
}

fn apply_changes(
    executors: &mut Executors,
    log: &mut Vec<Former>,
    changes: &[AssignChange],
) -> Result<(), NoMemory>
    ensures ok { OnOk result (executors.new ≡ fold (apply_change 0) executors.old changes.now) }
    ensures back { undone log.new.items executors.new ≡ undone log.old.items executors.old }
{
    for change in changes {
        apply_change(executors, log, change)?;
    }
    Ok(())
}

// The tasks that an update names.
fn named_tasks(alloc: Global, changes: &[AssignChange]) -> Result<BTreeSet<Id>, NoMemory>
    ensures { IfOk result (λ named. AreNamed named changes.now) }
{
    let mut named = BTreeSet::new(alloc);
    for change in changes {
        if let AssignChange::Update(assigned) = change {
            match named.insert(assigned.task) {
                Ok(_) => {}
                Err(_) => return Err(NoMemory),
            }
        }
    }
    Ok(named)
}

// What a complete message doesn't name is gone.
fn leave_out(alloc: Global, executors: &mut Executors, message: &Message) -> Result<(), NoMemory>
    ensures ok { OnOk result (executors.new ≡ map (left_out message.now) executors.old) }
    ensures err { OnErr result (executors.new ≡ executors.old) }
{
    if message.complete {
        let named = named_tasks(alloc, message.changes.as_slice())?;
        executors.leave_out(&named);
    }
    Ok(())
}

// The executors after the message; where memory is wanting, the log has what was changed.
fn apply_logged(
    alloc: Global,
    executors: &mut Executors,
    log: &mut Vec<Former>,
    message: &Message,
) -> Result<(), NoMemory>
    ensures ok { OnOk result (executors.new ≡ applied 0 message.now executors.old) }
    ensures back { OnErr result (undone log.new.items executors.new ≡ undone log.old.items executors.old) }
{
    apply_changes(executors, log, message.changes.as_slice())?;
    leave_out(alloc, executors, message)
}

/// The executors after the message; where memory is wanting, as before it.
pub fn take_in(alloc: Global, executors: &mut Executors, message: &Message) -> Result<(), NoMemory>
    ensures ok { OnOk result (executors.new ≡ applied 0 message.now executors.old) }
    ensures err { OnErr result (executors.new ≡ executors.old) }
{
    let mut log = Vec::new(alloc);
    match apply_logged(alloc, executors, &mut log, message) {
        Ok(()) => Ok(()),
        Err(fault) => {
            undo(executors, log);
            Err(fault)
        }
    }
}
