// The duties on tasks that ended, and on tasks that wait to be raised.
ghost use Rattle.std.specs.Prelude.{◌≡◌, ◌<◌, ◌^◌, ◌+◌, ◌++◌, ◌∷◌, [], ◌==◌, ◌&&◌, ◌≤◌, IfOk, OnOk, OnErr, drop, length, take};
ghost use Rattle.std.specs.List.{list_any};
ghost use Rattle.swarm_objects.specs.Bounds.{IsSmall};
ghost use Rattle.swarm_objects.specs.Changes.{change_task, on_service, wanted, with_tables};
ghost use Rattle.swarm_objects.specs.Duties.{effect_by, is_due};
ghost use Rattle.swarm_objects.specs.Loops.Restart.{closed_by, is_current, is_held_up, new_attempt, next_task, raised, restart, shut, wants_raise, wants_restart};
ghost use Rattle.swarm_objects.specs.Loops.Words.{duty_where};
ghost use Rattle.swarm_objects.specs.Rows.{change_row, on_row, task_id};
ghost use Rattle.swarm_objects.specs.Tasks.New.{with_task};
ghost use Rattle.swarm_objects.specs.Tasks.Places.{newest, tasks_of_place};
ghost use Rattle.swarm_plain.specs.Plain.{world_of};

use swarm_objects::{
    Attempt, Closed, Desired, Duty, Id, List, NoMemory, Place, Rows, Service, Task, Version, add,
};
use swarm_plain::Plain;
use swarm_plain::held::has_other;
use swarm_plain::places::newest;
use swarm_plain::tasks::{close, want, wish_of};
use swarm_policy::no_restart;
use swarm_restart::{holds_up, is_current, wants_restart};

// Another task of its service and place holds it up.
fn is_held_up(plain: &Plain, task: &Task) -> bool
    ensures { result ≡ is_held_up (world_of plain.now).tables task.now }
{
    plain
        .tasks
        .as_slice()
        .iter()
        .any(|other| holds_up(plain, other, task))
}

// It has waited for its time, and nothing holds it up.
fn wants_raise(plain: &Plain, task: &Task) -> bool
    ensures { result ≡ wants_raise (world_of plain.now).tables task.now }
{
    task.is_to_wait()
        && !task.has_ended()
        && task.raise_at <= plain.clock
        && is_current(plain, task)
        && !is_held_up(plain, task)
}

// The live tasks that are over.
fn put_restarts(plain: &Plain, duties: &mut List<Duty>) -> Result<(), NoMemory>
    ensures { let t = (world_of plain.now).tables in
        OnOk result (duties.new ≡ duties.old ++ duty_where (wants_restart t) (λ x. Duty.Restart x.id) t.tasks) }
{
    for task in plain.tasks.as_slice() {
        if wants_restart(plain, task) {
            add(duties, Duty::Restart(task.id))?;
        }
    }
    Ok(())
}

// The tasks that have waited.
fn put_raises(plain: &Plain, duties: &mut List<Duty>) -> Result<(), NoMemory>
    ensures { let t = (world_of plain.now).tables in
        OnOk result (duties.new ≡ duties.old ++ duty_where (wants_raise t) (λ x. Duty.Raise x.id) t.tasks) }
{
    for task in plain.tasks.as_slice() {
        if wants_raise(plain, task) {
            add(duties, Duty::Raise(task.id))?;
        }
    }
    Ok(())
}

/// The live tasks that are over, and then those that have waited.
pub fn restart_duties(plain: &Plain) -> Result<List<Duty>, NoMemory>
    ensures { IfOk result (λ duties. duties ≡ restart (world_of plain.now).tables) }
{
    let mut duties = List::new(plain.alloc);
    put_restarts(plain, &mut duties)?;
    put_raises(plain, &mut duties)?;
    Ok(duties)
}

// Some task with this id is to be restarted.
fn has_over(plain: &Plain, id: Id) -> bool
    ensures { let t = (world_of plain.now).tables in result ≡ list_any (λ x. x.id == id && wants_restart t x) t.tasks }
{
    plain
        .tasks
        .as_slice()
        .iter()
        .any(|task| task.id == id && wants_restart(plain, task))
}

/// The task with this id is live, and over.
pub fn is_restart_due(plain: &Plain, id: Id) -> bool
    ensures { result ≡ is_due (world_of plain.now) (Duty.Restart id) }
{
    has_over(plain, id)
}

// Some task with this id is to be raised.
fn has_waited(plain: &Plain, id: Id) -> bool
    ensures { let t = (world_of plain.now).tables in result ≡ list_any (λ x. x.id == id && wants_raise t x) t.tasks }
{
    plain
        .tasks
        .as_slice()
        .iter()
        .any(|task| task.id == id && wants_raise(plain, task))
}

/// The task with this id has waited for its time, and nothing holds it up.
pub fn is_raise_due(plain: &Plain, id: Id) -> bool
    ensures { result ≡ is_due (world_of plain.now) (Duty.Raise id) }
{
    has_waited(plain, id)
}

// The task that comes in the place waits for the delay.
fn next_task(
    plain: &Plain,
    version: Version,
    service: &Service,
    place: Place,
) -> Result<Task, NoMemory>
    requires { plain.now.clock + service.now.spec.template.restart.delay < 2 ^ 64 }
    ensures { IfOk result (λ task. task ≡ next_task version (world_of plain.now).tables service.now place) }
{
    let mut task = Task::new(plain.alloc, plain, version, service, place, Desired::Ready)?;
    task.raise_at = plain.clock + service.spec.template.restart.delay;
    Ok(task)
}

// An attempt that is made now.
fn new_attempt(plain: &Plain, service: &Service, place: Place) -> Attempt
    ensures { result ≡ new_attempt (world_of plain.now).tables service.now place }
{
    Attempt {
        service: service.id,
        place,
        version: service.template_version,
        at: plain.clock,
    }
}

// The task with this id is to stop, where it is among so many first ones.
fn stop_among(tasks: &mut [Task], count: usize, version: Version, id: Id)
    requires { count ≤ length tasks.old }
    ensures { let shut = change_row task_id id (wanted version Desired.Shutdown) in
        tasks.new ≡ shut (take count tasks.old) ++ drop count tasks.old }
{
    wish_of(&mut tasks[..count], version, id, Desired::Shutdown);
}

// The task with this id is to stop, and the next one comes last.
fn replace_task(
    tasks: &mut List<Task>,
    version: Version,
    id: Id,
    next: Task,
) -> Result<(), NoMemory>
    ensures ok { let shut = change_row task_id id (wanted version Desired.Shutdown) in
        OnOk result (tasks.new ≡ shut tasks.old ++ next ∷ []) }
    ensures err { OnErr result (tasks.new ≡ tasks.old) }
{
    let count = tasks.len();
    add(tasks, next)?;
    stop_among(tasks.as_mut_slice(), count, version, id);
    Ok(())
}

// The task with this id is to stop, and the next one comes by this attempt.
fn try_again(
    plain: &mut Plain,
    version: Version,
    id: Id,
    attempt: Attempt,
    next: Task,
) -> Result<(), NoMemory>
    requires { IsSmall (world_of plain.old) }
    ensures ok { let w = world_of plain.old in
        let attempts = w.tables.attempts ++ attempt ∷ [] in
        OnOk result (world_of plain.new ≡
        with_tables w (with_task (record (shut version id w.tables) { attempts = attempts }) next)) }
    ensures err { OnErr result (world_of plain.new ≡ world_of plain.old) }
{
    let made = plain.attempts.len();
    add(&mut plain.attempts, attempt)?;
    match replace_task(&mut plain.tasks, version, id, next) {
        Ok(()) => {
            plain.next_id += 1;
            Ok(())
        }
        Err(NoMemory) => {
            plain.attempts.truncate(made);
            Err(NoMemory)
        }
    }
}

// The newest task of the place closes it.
fn close_place(plain: &mut Plain, version: Version, service: Id, place: Place, cause: Closed)
    ensures { let w = world_of plain.old in
        world_of plain.new ≡ with_tables w (on_service w.tables service
        (λ s. on_row w.tables (λ y. change_task y.id (closed_by version cause) w.tables)
        (newest (tasks_of_place s place w.tables.tasks)))) }
{
    let Some(service) = plain.service(service) else {
        return;
    };
    if let Some(task) = newest(service, place, plain.tasks.as_slice()) {
        let newest = task.id;
        close(plain, version, newest, cause);
    }
}

/// The task is to stop. Where no other live task is in its place, the place gets a new task or is closed.
pub fn restart(plain: &mut Plain, version: Version, id: Id) -> Result<(), NoMemory>
    requires { IsSmall (world_of plain.old) }
    ensures ok { OnOk result (world_of plain.new ≡ effect_by version (world_of plain.old) (Duty.Restart id)) }
    ensures err { OnErr result (world_of plain.new ≡ world_of plain.old) }
{
    let Some(task) = plain.task(id) else {
        return Ok(());
    };
    let Some(service) = plain.service(task.service) else {
        return Ok(());
    };
    if has_other(plain, service, task) {
        want(plain, version, id, Desired::Shutdown);
        return Ok(());
    }
    let place = task.place;
    match no_restart(plain, service, task) {
        Some(cause) => {
            let service = task.service;
            want(plain, version, id, Desired::Shutdown);
            close_place(plain, version, service, place, cause);
            Ok(())
        }
        None => {
            let attempt = new_attempt(plain, service, place);
            let next = next_task(plain, version, service, place)?;
            try_again(plain, version, id, attempt, next)
        }
    }
}

// The task with this id is to reach its goal.
fn raise_task(tasks: &mut [Task], version: Version, id: Id)
    ensures { tasks.new ≡ change_row task_id id (raised version) tasks.old }
{
    for task in tasks.iter_mut() {
        if task.id == id {
            task.version = version;
            task.desired = task.goal;
        }
    }
}

/// The task that has waited is to reach its goal.
pub fn raise(plain: &mut Plain, version: Version, task: Id)
    ensures { world_of plain.new ≡ effect_by version (world_of plain.old) (Duty.Raise task) }
{
    raise_task(plain.tasks.as_mut_slice(), version, task);
}
