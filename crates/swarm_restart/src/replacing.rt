// A task that stops, and the one that comes in its place.
ghost use Rattle.std.specs.Prelude.{◌≡◌, ◌<◌, ◌+◌, ◌^◌, ◌∷◌, [], IfOk, Some};
ghost use Rattle.swarm_objects.specs.Changes.{wanted};
ghost use Rattle.swarm_objects.specs.Loops.Restart.{
  by_policy,
  new_attempt,
  next_task,
  shut,
};
ghost use Rattle.std.specs.Prelude.{None};
ghost use Rattle.swarm_objects.specs.Rows.{row_at, task_id};
ghost use Rattle.swarm_objects.specs.ChangeLists.{Makes};
ghost use Rattle.swarm_objects.specs.Usable.{IsUsable};

use std::alloc::Global;
use swarm_objects::effects::wanted;
use swarm_objects::{
    Attempt, Change, Desired, List, NoMemory, Place, Rows, Service, Task, Version, add, list_of,
};

// An attempt that is made now.
fn new_attempt<R: Rows>(rows: &R, service: &Service, place: Place) -> Attempt
    ensures { result ≡ new_attempt (R.tables rows.now) service.now place }
{
    Attempt {
        service: service.id,
        place,
        version: service.template_version,
        at: rows.now(),
    }
}

// The task that comes in the place waits for the delay.
fn next_task<R: Rows>(
    alloc: Global,
    rows: &R,
    version: Version,
    service: &Service,
    place: Place,
) -> Result<Task, NoMemory>
    requires { (R.tables rows.now).clock + service.now.spec.template.restart.delay < 2 ^ 64 }
    ensures { IfOk result (λ task. task ≡ next_task version (R.tables rows.now) service.now place) }
{
    let mut task = Task::new(alloc, rows, version, service, place, Desired::Ready)?;
    task.raise_at = rows.now() + service.spec.template.restart.delay;
    Ok(task)
}

// The task stops, an attempt is kept, and the next task comes; as a list.
fn replacement<R: Rows>(
    alloc: Global,
    rows: &R,
    version: Version,
    service: &Service,
    task: &Task,
) -> Result<List<Change>, NoMemory>
    requires { (R.tables rows.now).clock + service.now.spec.template.restart.delay < 2 ^ 64 }
    ensures { let t = R.tables rows.now in IfOk result (λ changes. changes
        ≡ Change.PutTask (wanted version Desired.Shutdown task.now)
        ∷ Change.Keep (new_attempt t service.now task.now.place)
        ∷ Change.PutTask (next_task version t service.now task.now.place) ∷ []) }
{
    let mut changes = list_of(
        alloc,
        Change::PutTask(wanted(alloc, task, version, Desired::Shutdown)?),
    )?;
    add(
        &mut changes,
        Change::Keep(new_attempt(rows, service, task.place)),
    )?;
    add(
        &mut changes,
        Change::PutTask(next_task(alloc, rows, version, service, task.place)?),
    )?;
    Ok(changes)
}

/// The task stops, and another one comes in its place by an attempt that counts.
#[tactic(auto, using(crate::proofs::Replacements::replacement_makes))]
pub fn replace<R: Rows>(
    alloc: Global,
    rows: &R,
    version: Version,
    service: &Service,
    task: &Task,
) -> Result<List<Change>, NoMemory>
    requires usable { IsUsable (R.tables rows.now) }
    requires there { Some task.now ≡ row_at task_id task.now.id (R.tables rows.now).tasks }
    requires time { (R.tables rows.now).clock + service.now.spec.template.restart.delay < 2 ^ 64 }
    ensures { let t = R.tables rows.now in let shut = shut version task.now.id t in
        IfOk result (λ changes. Makes t changes (by_policy version shut service.now task.now.place None)) }
{
    replacement(alloc, rows, version, service, task)
}
