// What a message makes of executors.
ghost use Rattle.std.specs.Prelude.{◌≡◌, ◌&&◌, ◌<◌, IfOk, OnOk, map, not, true};
ghost use Rattle.std.specs.List.{list_any};
ghost use Rattle.std.specs.Option.{option_copied};
ghost use Rattle.swarm_objects.specs.Agents.Messages.{applied, apply_change, change_executor, gone_executor, left_out, names, new_executor, updated};
ghost use Rattle.swarm_objects.specs.Rows.{executor_task, has_row, row_at};

use std::alloc::Global;
use swarm_objects::{
    AssignChange, Assigned, Desired, Duplicate, Executor, Id, List, Message, Ms, NoMemory,
    TaskState, put_in_order,
};

// The executor of a task that is assigned now.
fn new_executor(clock: Ms, assigned: &Assigned) -> Executor
    ensures { result ≡ new_executor clock assigned.now }
{
    Executor {
        task: assigned.task,
        desired: assigned.desired,
        workload: assigned.workload,
        state: TaskState::Accepted,
        since: clock,
        stopping: None,
        reported: None,
        gone: false,
    }
}

/// The executor of the task.
pub fn executor_of(executors: &[Executor], task: Id) -> Option<&Executor>
    ensures { option_copied result ≡ row_at executor_task task executors.now }
{
    executors.iter().find(|executor| executor.task == task)
}

fn has_executor(executors: &[Executor], task: Id) -> bool
    ensures { result ≡ has_row executor_task task executors.now }
{
    executor_of(executors, task).is_some()
}

// This is wanted of the task now.
fn set_desired(executors: &mut [Executor], task: Id, desired: Desired)
    ensures { executors.new ≡ change_executor task (λ e. record e { desired = desired }) executors.old }
{
    for executor in executors.iter_mut() {
        if executor.task == task {
            executor.desired = desired;
        }
    }
}

// The task is no longer assigned.
fn set_gone(executors: &mut [Executor], task: Id)
    ensures { executors.new ≡ change_executor task gone_executor executors.old }
{
    for executor in executors.iter_mut() {
        if executor.task == task {
            executor.gone = true;
        }
    }
}

// An executor that is there gets its desired state, and another one comes.
fn update(executors: &mut List<Executor>, clock: Ms, assigned: &Assigned) -> Result<(), NoMemory>
    ensures { OnOk result (executors.new ≡ updated clock executors.old assigned.now) }
{
    if has_executor(executors.as_slice(), assigned.task) {
        set_desired(executors.as_mut_slice(), assigned.task, assigned.desired);
        return Ok(());
    }
    put_in_order(executors, new_executor(clock, assigned))
}

fn apply_change(
    executors: &mut List<Executor>,
    clock: Ms,
    change: &AssignChange,
) -> Result<(), NoMemory>
    ensures { OnOk result (executors.new ≡ apply_change clock executors.old change.now) }
{
    match change {
        AssignChange::Update(assigned) => update(executors, clock, assigned),
        AssignChange::Remove(task) => {
            set_gone(executors.as_mut_slice(), *task);
            Ok(())
        }
    }
}

// The change is an update of the task.
fn names(task: Id, change: &AssignChange) -> bool
    ensures { result ≡ names task change.now }
{
    match change {
        AssignChange::Update(assigned) => assigned.task == task,
        AssignChange::Remove(_) => false,
    }
}

// One of the changes is an update of the task.
fn is_named(changes: &[AssignChange], task: Id) -> bool
    ensures { result ≡ list_any (names task) changes.now }
{
    changes.iter().any(|change| names(task, change))
}

// The message is complete, and no update of it names the task.
fn is_left_out(message: &Message, task: Id) -> bool
    ensures { result ≡ (message.now.complete && not (list_any (names task) message.now.changes)) }
{
    message.complete && !is_named(message.changes.as_slice(), task)
}

// What a complete message doesn't name is gone.
fn leave_out(executors: &mut [Executor], message: &Message)
    ensures { executors.new ≡ map (left_out message.now) executors.old }
{
    for executor in executors.iter_mut() {
        if is_left_out(message, executor.task) {
            executor.gone = true;
        }
    }
}

/// The executors after the message.
pub fn applied(
    alloc: Global,
    clock: Ms,
    message: &Message,
    executors: &List<Executor>,
) -> Result<List<Executor>, NoMemory>
    ensures { IfOk result (λ after. after ≡ applied clock message.now executors.now) }
{
    let mut after = executors.duplicate(alloc)?;
    for change in message.changes.as_slice() {
        apply_change(&mut after, clock, change)?;
    }
    leave_out(after.as_mut_slice(), message);
    Ok(after)
}
