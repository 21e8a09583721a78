// Changes of one task that control loops make: rows that are changed, and the lists of changes that put them.
ghost use Rattle.std.specs.Prelude.{◌≡◌, IfOk};
ghost use Rattle.swarm_objects.specs.ChangeLists.{Makes, drop_found, put_found};
ghost use Rattle.swarm_objects.specs.Changes.{change_task, in_state, noted, wanted};
ghost use Rattle.swarm_objects.specs.Loops.Reaper.{without_task};
ghost use Rattle.swarm_objects.specs.Rows.{row_at, task_id};
ghost use Rattle.swarm_objects.specs.Usable.{IsUsable};

use crate::{
    Change, Desired, Duplicate, Id, List, Ms, NoMemory, Note, Rows, Task, TaskState, Version,
    list_of,
};
use std::alloc::Global;

// Rows that are changed.

/// The task, of which this is wanted by the entry with this number.
pub fn wanted(
    alloc: Global,
    task: &Task,
    version: Version,
    desired: Desired,
) -> Result<Task, NoMemory>
    ensures { IfOk result (λ row. row ≡ wanted version desired task.now) }
{
    let mut row = task.duplicate(alloc)?;
    row.version = version;
    row.desired = desired;
    Ok(row)
}

/// The task, whose state is set at this time by the entry with this number.
pub fn in_state(
    alloc: Global,
    task: &Task,
    version: Version,
    now: Ms,
    state: TaskState,
) -> Result<Task, NoMemory>
    ensures { IfOk result (λ row. row ≡ in_state version now state task.now) }
{
    let mut row = task.duplicate(alloc)?;
    row.version = version;
    row.state = state;
    row.since = now;
    Ok(row)
}

/// The task with this note, by the entry with this number.
pub fn noted(alloc: Global, task: &Task, version: Version, note: Note) -> Result<Task, NoMemory>
    ensures { IfOk result (λ row. row ≡ noted version note task.now) }
{
    let mut row = task.duplicate(alloc)?;
    row.version = version;
    row.note = note;
    Ok(row)
}

// One task.

fn wishes<R: Rows>(
    alloc: Global,
    rows: &R,
    version: Version,
    id: Id,
    desired: Desired,
) -> Result<List<Change>, NoMemory>
    ensures { let t = R.tables rows.now in
        IfOk result (λ changes. changes ≡ put_found (wanted version desired) (row_at task_id id t.tasks)) }
{
    match rows.task(id) {
        Some(task) => list_of(
            alloc,
            Change::PutTask(wanted(alloc, task, version, desired)?),
        ),
        None => Ok(List::new(alloc)),
    }
}

/// This is wanted of the task with this id, where it is there.
#[tactic(auto, using(crate::proofs::Applied::wishes_make))]
pub fn want<R: Rows>(
    alloc: Global,
    rows: &R,
    version: Version,
    id: Id,
    desired: Desired,
) -> Result<List<Change>, NoMemory>
    requires { IsUsable (R.tables rows.now) }
    ensures { let t = R.tables rows.now in
        IfOk result (λ changes. Makes t changes (change_task id (wanted version desired) t)) }
{
    wishes(alloc, rows, version, id, desired)
}

fn notes<R: Rows>(
    alloc: Global,
    rows: &R,
    version: Version,
    id: Id,
    note: Note,
) -> Result<List<Change>, NoMemory>
    ensures { let t = R.tables rows.now in
        IfOk result (λ changes. changes ≡ put_found (noted version note) (row_at task_id id t.tasks)) }
{
    match rows.task(id) {
        Some(task) => list_of(alloc, Change::PutTask(noted(alloc, task, version, note)?)),
        None => Ok(List::new(alloc)),
    }
}

/// The task with this id has this note, where it is there.
#[tactic(auto, using(crate::proofs::Applied::notes_make))]
pub fn set_note<R: Rows>(
    alloc: Global,
    rows: &R,
    version: Version,
    id: Id,
    note: Note,
) -> Result<List<Change>, NoMemory>
    requires { IsUsable (R.tables rows.now) }
    ensures { let t = R.tables rows.now in
        IfOk result (λ changes. Makes t changes (change_task id (noted version note) t)) }
{
    notes(alloc, rows, version, id, note)
}

fn drops<R: Rows>(alloc: Global, rows: &R, id: Id) -> Result<List<Change>, NoMemory>
    ensures { IfOk result (λ changes. changes ≡ drop_found (row_at task_id id (R.tables rows.now).tasks)) }
{
    match rows.task(id) {
        Some(task) => list_of(alloc, Change::DropTask(task.id)),
        None => Ok(List::new(alloc)),
    }
}

/// The task with this id goes, where it is there.
#[tactic(auto, using(crate::proofs::Applied::drops_make))]
pub fn drop_task<R: Rows>(alloc: Global, rows: &R, id: Id) -> Result<List<Change>, NoMemory>
    requires { IsUsable (R.tables rows.now) }
    ensures { let t = R.tables rows.now in IfOk result (λ changes. Makes t changes (without_task id t)) }
{
    drops(alloc, rows, id)
}
