// The reaper's duties.
ghost use Rattle.std.specs.Prelude.{◌≡◌, ◌==◌, ◌++◌, ◌&&◌, IfOk, OnOk, count_by, find};
ghost use Rattle.std.specs.List.{list_any};
ghost use Rattle.std.specs.Option.{option_copied};
ghost use Rattle.swarm_objects.specs.Changes.{with_tables};
ghost use Rattle.swarm_objects.specs.Duties.{is_due};
ghost use Rattle.swarm_objects.specs.Loops.Reaper.{is_oldest_past, is_past, is_removable, is_trimmed, is_trimmed_in, reaper, without_task};
ghost use Rattle.swarm_objects.specs.Loops.Words.{duty_where};
ghost use Rattle.swarm_objects.specs.Services.Runs.{has_open_run};
ghost use Rattle.swarm_objects.specs.Tasks.Places.{is_in_place, tasks_of_place};
ghost use Rattle.swarm_plain.specs.Plain.{world_of};

use swarm_objects::{
    Duty, Id, List, NoMemory, Place, Rows, RunStatus, Service, Task, add, drop_row,
};
use swarm_plain::Plain;
use swarm_plain::places::newest;
use swarm_upkeep::is_removable;

// It is such a task of the place.
fn is_past_in(service: &Service, place: Place, task: &Task) -> bool
    ensures { result ≡ (is_in_place service.now place task.now && is_past task.now) }
{
    task.is_in_place(service, place) && task.is_past()
}

// How many such tasks the place has.
fn past_count(service: &Service, place: Place, tasks: &[Task]) -> u64
    ensures { result ≡ count_by is_past (tasks_of_place service.now place tasks.now) }
{
    tasks
        .iter()
        .filter(|task| is_past_in(service, place, task))
        .count() as u64
}

// The oldest of them.
fn oldest_past<'a>(service: &Service, place: Place, tasks: &'a [Task]) -> Option<&'a Task>
    ensures { option_copied result ≡ find is_past (tasks_of_place service.now place tasks.now) }
{
    tasks
        .iter()
        .filter(|task| task.is_in_place(service, place))
        .find(|task| task.is_past())
}

// The place has more such tasks than are kept. This one is the oldest of them, and not the place's newest.
fn is_oldest_past(history: u64, service: &Service, tasks: &[Task], task: &Task) -> bool
    ensures { result
        ≡ is_oldest_past history (tasks_of_place service.now task.now.place tasks.now) task.now }
{
    let place = task.place;
    history < past_count(service, place, tasks)
        && oldest_past(service, place, tasks).is_some_and(|oldest| oldest.id == task.id)
        && !newest(service, place, tasks).is_some_and(|newest| newest.id == task.id)
}

// The service has an update under way.
fn has_open_run(service: &Service) -> bool
    ensures { result ≡ has_open_run service.now }
{
    match &service.run {
        Some(run) => match run.status {
            RunStatus::Updating | RunStatus::RollbackStarted => true,
            _ => false,
        },
        None => false,
    }
}

// The service has no update under way, and the task is such a one of its place.
fn is_trimmed_in(plain: &Plain, task: &Task, service: &Service) -> bool
    ensures { result ≡ is_trimmed_in (world_of plain.now).tables task.now service.now }
{
    let history = plain.settings.history;
    !has_open_run(service) && is_oldest_past(history, service, plain.tasks.as_slice(), task)
}

// It is the oldest of more ended tasks of its place than are kept.
fn is_trimmed(plain: &Plain, task: &Task) -> bool
    ensures { result ≡ is_trimmed (world_of plain.now).tables task.now }
{
    plain
        .service(task.service)
        .is_some_and(|service| is_trimmed_in(plain, task, service))
}

// The tasks that are to be removed.
fn put_removable(plain: &Plain, duties: &mut List<Duty>) -> Result<(), NoMemory>
    ensures { let t = (world_of plain.now).tables in
        OnOk result (duties.new ≡ duties.old ++ duty_where is_removable (λ x. Duty.Delete x.id) t.tasks) }
{
    for task in plain.tasks.as_slice() {
        if is_removable(task) {
            add(duties, Duty::Delete(task.id))?;
        }
    }
    Ok(())
}

// The old ended tasks.
fn put_trimmed(plain: &Plain, duties: &mut List<Duty>) -> Result<(), NoMemory>
    ensures { let t = (world_of plain.now).tables in
        OnOk result (duties.new ≡ duties.old ++ duty_where (is_trimmed t) (λ x. Duty.Trim x.id) t.tasks) }
{
    for task in plain.tasks.as_slice() {
        if is_trimmed(plain, task) {
            add(duties, Duty::Trim(task.id))?;
        }
    }
    Ok(())
}

/// The tasks that are to be removed, and then the old ended ones.
pub fn reaper_duties(plain: &Plain) -> Result<List<Duty>, NoMemory>
    ensures { IfOk result (λ duties. duties ≡ reaper (world_of plain.now).tables) }
{
    let mut duties = List::new(plain.alloc);
    put_removable(plain, &mut duties)?;
    put_trimmed(plain, &mut duties)?;
    Ok(duties)
}

// Some task with this id is removable.
fn has_removable(plain: &Plain, id: Id) -> bool
    ensures { let t = (world_of plain.now).tables in result ≡ list_any (λ x. x.id == id && is_removable x) t.tasks }
{
    plain
        .tasks
        .as_slice()
        .iter()
        .any(|task| task.id == id && is_removable(task))
}

/// The task with this id is to be removed, and nothing of it runs.
pub fn is_delete_due(plain: &Plain, id: Id) -> bool
    ensures { result ≡ is_due (world_of plain.now) (Duty.Delete id) }
{
    has_removable(plain, id)
}

// Some task with this id is trimmed.
fn has_trimmed(plain: &Plain, id: Id) -> bool
    ensures { let t = (world_of plain.now).tables in result ≡ list_any (λ x. x.id == id && is_trimmed t x) t.tasks }
{
    plain
        .tasks
        .as_slice()
        .iter()
        .any(|task| task.id == id && is_trimmed(plain, task))
}

/// The task with this id is the oldest of more ended ones of its place than are kept.
pub fn is_trim_due(plain: &Plain, id: Id) -> bool
    ensures { result ≡ is_due (world_of plain.now) (Duty.Trim id) }
{
    has_trimmed(plain, id)
}

/// The task is gone. Both duties of the reaper do this.
pub fn remove_task(plain: &mut Plain, task: Id)
    ensures { let w = world_of plain.old in world_of plain.new ≡ with_tables w (without_task task w.tables) }
{
    drop_row(&mut plain.tasks, task);
}
