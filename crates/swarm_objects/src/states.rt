// The states of tasks, set or raised, as lists of changes.
ghost use Rattle.std.specs.Prelude.{◌≡◌, IfOk, Some};
ghost use Rattle.swarm_objects.specs.Changes.{change_task, in_state, raised_to};
ghost use Rattle.swarm_objects.specs.Rows.{row_at, task_id};
ghost use Rattle.swarm_objects.specs.ChangeLists.{Makes, put_found, put_raised};
ghost use Rattle.swarm_objects.specs.Usable.{IsUsable};

use crate::effects::in_state;
use crate::{Change, Id, List, NoMemory, Rows, Task, TaskState, Version, list_of, rank};
use std::alloc::Global;

fn states<R: Rows>(
    alloc: Global,
    rows: &R,
    version: Version,
    id: Id,
    state: TaskState,
) -> Result<List<Change>, NoMemory>
    ensures { let t = R.tables rows.now in
        IfOk result (λ changes. changes ≡ put_found (in_state version t.clock state) (row_at task_id id t.tasks)) }
{
    match rows.task(id) {
        Some(task) => list_of(
            alloc,
            Change::PutTask(in_state(alloc, task, version, rows.now(), state)?),
        ),
        None => Ok(List::new(alloc)),
    }
}

/// The state of the task with this id is set now, where it is there.
#[tactic(auto, using(crate::proofs::Applied::states_make))]
pub fn set_state<R: Rows>(
    alloc: Global,
    rows: &R,
    version: Version,
    id: Id,
    state: TaskState,
) -> Result<List<Change>, NoMemory>
    requires { IsUsable (R.tables rows.now) }
    ensures { let t = R.tables rows.now in
        IfOk result (λ changes. Makes t changes (change_task id (in_state version t.clock state) t)) }
{
    states(alloc, rows, version, id, state)
}

// Its state is set now, where that is above the one that it has.
fn raised<R: Rows>(
    alloc: Global,
    rows: &R,
    version: Version,
    task: &Task,
    state: TaskState,
) -> Result<List<Change>, NoMemory>
    ensures { let t = R.tables rows.now in
        IfOk result (λ changes. changes ≡ put_raised version t.clock state (Some task.now)) }
{
    if rank(task.state) < rank(state) {
        let row = in_state(alloc, task, version, rows.now(), state)?;
        list_of(alloc, Change::PutTask(row))
    } else {
        Ok(List::new(alloc))
    }
}

fn raises<R: Rows>(
    alloc: Global,
    rows: &R,
    version: Version,
    id: Id,
    state: TaskState,
) -> Result<List<Change>, NoMemory>
    ensures { let t = R.tables rows.now in
        IfOk result (λ changes. changes ≡ put_raised version t.clock state (row_at task_id id t.tasks)) }
{
    match rows.task(id) {
        Some(task) => raised(alloc, rows, version, task, state),
        None => Ok(List::new(alloc)),
    }
}

/// The state of the task with this id is set now, where it is there and that is above its state. Else the list is
/// empty, so nobody hears of it.
#[tactic(auto, using(crate::proofs::Applied::raises_make))]
pub fn raise_state<R: Rows>(
    alloc: Global,
    rows: &R,
    version: Version,
    id: Id,
    state: TaskState,
) -> Result<List<Change>, NoMemory>
    requires { IsUsable (R.tables rows.now) }
    ensures { let t = R.tables rows.now in
        IfOk result (λ changes. Makes t changes (change_task id (raised_to version t.clock state) t)) }
{
    raises(alloc, rows, version, id, state)
}
