// A task that stops, and whose place is closed.
ghost use Rattle.std.specs.Prelude.{◌≡◌, IfOk, Some};
ghost use Rattle.swarm_objects.specs.Loops.Restart.{by_policy, closed_by, shut};
ghost use Rattle.swarm_objects.specs.Rows.{row_at, task_id};
ghost use Rattle.swarm_objects.specs.Tasks.Places.{newest, tasks_of_place};
ghost use Rattle.swarm_restart.specs.Closing.{closing_changes, closing_found};
ghost use Rattle.swarm_objects.specs.ChangeLists.{Makes};
ghost use Rattle.swarm_objects.specs.Usable.{IsUsable};

use role_words::newest;
use std::alloc::Global;
use swarm_objects::effects::wanted;
use swarm_objects::{
    Change, Closed, Desired, Duplicate, List, NoMemory, Rows, Service, Task, Version, add, list_of,
};

// The task closes its place, for this cause.
fn closed_by(alloc: Global, task: &Task, version: Version, cause: Closed) -> Result<Task, NoMemory>
    ensures { IfOk result (λ row. row ≡ closed_by version cause task.now) }
{
    let mut row = task.duplicate(alloc)?;
    row.version = version;
    row.closed = Some(cause);
    Ok(row)
}

// The task stops, and the newest one closes the place: where these are the same, by one change.
fn closing_changes(
    alloc: Global,
    version: Version,
    task: &Task,
    newest: &Task,
    cause: Closed,
) -> Result<List<Change>, NoMemory>
    ensures { IfOk result (λ changes. changes ≡ closing_changes version cause task.now newest.now) }
{
    let stopped = wanted(alloc, task, version, Desired::Shutdown)?;
    if newest.id == task.id {
        return list_of(
            alloc,
            Change::PutTask(closed_by(alloc, &stopped, version, cause)?),
        );
    }
    let mut changes = list_of(alloc, Change::PutTask(stopped))?;
    add(
        &mut changes,
        Change::PutTask(closed_by(alloc, newest, version, cause)?),
    )?;
    Ok(changes)
}

// The task stops, and the newest one of its place, where there is one, closes the place; as a list.
fn closing_found<R: Rows>(
    alloc: Global,
    rows: &R,
    version: Version,
    service: &Service,
    task: &Task,
    cause: Closed,
) -> Result<List<Change>, NoMemory>
    requires { IsUsable (R.tables rows.now) }
    ensures { let place = tasks_of_place service.now task.now.place (R.tables rows.now).tasks in
        IfOk result (λ changes. changes ≡ closing_found version cause task.now (newest place)) }
{
    match newest(rows, service, task.place) {
        Some(newest) => closing_changes(alloc, version, task, newest, cause),
        None => list_of(
            alloc,
            Change::PutTask(wanted(alloc, task, version, Desired::Shutdown)?),
        ),
    }
}

/// The task stops, and the newest one of its place closes the place.
#[tactic(auto, using(crate::proofs::Closings::closing_makes))]
pub fn close<R: Rows>(
    alloc: Global,
    rows: &R,
    version: Version,
    service: &Service,
    task: &Task,
    cause: Closed,
) -> Result<List<Change>, NoMemory>
    requires usable { IsUsable (R.tables rows.now) }
    requires there { Some task.now ≡ row_at task_id task.now.id (R.tables rows.now).tasks }
    ensures { let t = R.tables rows.now in let shut = shut version task.now.id t in
        IfOk result (λ changes. Makes t changes (by_policy version shut service.now task.now.place (Some cause))) }
{
    closing_found(alloc, rows, version, service, task, cause)
}
