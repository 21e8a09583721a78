// Changes of tasks that several control loops make.
ghost use Rattle.std.specs.Prelude.{◌≡◌, IfOk, OnErr, OnOk, Some, if◌then◌else◌, map};
ghost use Rattle.std.specs.Option.{option_copied};
ghost use Rattle.swarm_plain.specs.Inside.OfPlace.{is_meant, is_meant_at};
ghost use Rattle.swarm_objects.specs.Bounds.{IsSmall};
ghost use Rattle.swarm_objects.specs.Changes.{change_task, in_state, on_service, wanted, with_new, with_tables, without_place};
ghost use Rattle.swarm_objects.specs.Loops.Restart.{closed_by};
ghost use Rattle.swarm_objects.specs.Rows.{change_row, row_at, service_id, task_id};
ghost use Rattle.swarm_objects.specs.Tasks.New.{new_task, with_task};
ghost use Rattle.swarm_objects.specs.Tasks.Places.{place_at};
ghost use Rattle.swarm_plain.specs.Plain.{world_of};

use crate::Plain;
use crate::held::is_at;
use swarm_objects::{
    Closed, Desired, Id, Ms, NoMemory, Rows, Service, Task, TaskState, Version, add,
};

/// The service with this id.
pub fn service_at(services: &[Service], id: Id) -> Option<&Service>
    ensures { option_copied result ≡ row_at service_id id services.now }
{
    services.iter().find(|row| row.id == id)
}

// One task, or a slice of tasks.

// This is wanted of the task.
fn wish(task: &mut Task, version: Version, desired: Desired)
    ensures { task.new ≡ wanted version desired task.old }
{
    task.version = version;
    task.desired = desired;
}

/// This is wanted of the task with this id.
pub fn wish_of(tasks: &mut [Task], version: Version, id: Id, desired: Desired)
    ensures { tasks.new ≡ change_row task_id id (wanted version desired) tasks.old }
{
    for task in tasks.iter_mut() {
        if task.id == id {
            wish(task, version, desired);
        }
    }
}

// The state of the task with this id is set now.
fn set_state_of(tasks: &mut [Task], version: Version, now: Ms, id: Id, state: TaskState)
    ensures { tasks.new ≡ change_row task_id id (in_state version now state) tasks.old }
{
    for task in tasks.iter_mut() {
        if task.id == id {
            task.version = version;
            task.state = state;
            task.since = now;
        }
    }
}

// The task with this id closes its place, for this cause.
fn close_of(tasks: &mut [Task], version: Version, id: Id, cause: Closed)
    ensures { tasks.new ≡ change_row task_id id (closed_by version cause) tasks.old }
{
    for task in tasks.iter_mut() {
        if task.id == id {
            task.version = version;
            task.closed = Some(cause);
        }
    }
}

/// Which tasks of a place are meant.
#[derive(Clone, Copy)]
pub enum Which {
    /// Those that aren't to be removed.
    Kept,
    Live,
    LiveDirty,
}

impl Which {
    fn is_meant(self, service: &Service, task: &Task) -> bool
        ensures { result ≡ is_meant self service.now task.now }
    {
        match self {
            Which::Kept => task.is_kept(),
            Which::Live => task.is_live(),
            Which::LiveDirty => task.is_live_dirty(service),
        }
    }
}

// The task stands in the place, and is meant.
fn is_meant_at(which: Which, service: &Service, number: u64, task: &Task) -> bool
    ensures { result ≡ is_meant_at which service.now number task.now }
{
    is_at(service, number, task) && which.is_meant(service, task)
}

/// This is wanted of those tasks of the service's place with this number.
pub fn wish_at(
    tasks: &mut [Task],
    version: Version,
    service: &Service,
    number: u64,
    which: Which,
    desired: Desired,
)
    ensures { tasks.new ≡ map (λ x. if is_meant_at which service.now number x
        then wanted version desired x else x) tasks.old }
{
    for task in tasks.iter_mut() {
        if is_meant_at(which, service, number, task) {
            wish(task, version, desired);
        }
    }
}

// The world.

/// This is wanted of the task with this id.
pub fn want(plain: &mut Plain, version: Version, id: Id, desired: Desired)
    ensures { let w = world_of plain.old in
        world_of plain.new ≡ with_tables w (change_task id (wanted version desired) w.tables) }
{
    wish_of(plain.tasks.as_mut_slice(), version, id, desired);
}

/// The state of the task with this id is set now.
pub fn set_state(plain: &mut Plain, version: Version, id: Id, state: TaskState)
    ensures { let w = world_of plain.old in
        world_of plain.new ≡ with_tables w (change_task id (in_state version w.tables.clock state) w.tables) }
{
    set_state_of(plain.tasks.as_mut_slice(), version, plain.clock, id, state);
}

/// The task with this id closes its place, for this cause.
pub fn close(plain: &mut Plain, version: Version, id: Id, cause: Closed)
    ensures { let w = world_of plain.old in
        world_of plain.new ≡ with_tables w (change_task id (closed_by version cause) w.tables) }
{
    close_of(plain.tasks.as_mut_slice(), version, id, cause);
}

/// The tasks of the service's place with this number are to be removed.
pub fn remove_place(plain: &mut Plain, version: Version, service: Id, number: u64)
    ensures { let w = world_of plain.old in world_of plain.new
        ≡ with_tables w (on_service w.tables service (λ s. without_place version w.tables s number)) }
{
    let Some(service) = service_at(plain.services.as_slice(), service) else {
        return;
    };
    wish_at(
        plain.tasks.as_mut_slice(),
        version,
        service,
        number,
        Which::Kept,
        Desired::Remove,
    );
}

/// A new task of the service in its place with this number.
pub fn new_task(
    plain: &Plain,
    version: Version,
    service: &Service,
    number: u64,
    desired: Desired,
) -> Result<Task, NoMemory>
    ensures { IfOk result (λ x. x ≡ new_task version (world_of plain.now).tables service.now
        (place_at service.now.spec.mode number) desired) }
{
    let place = service.spec.mode.place_at(number);
    Task::new(plain.alloc, plain, version, service, place, desired)
}

/// The task comes, and has the next id.
pub fn add_task(plain: &mut Plain, task: Task) -> Result<(), NoMemory>
    requires { IsSmall (world_of plain.old) }
    ensures ok { let w = world_of plain.old in
        OnOk result (world_of plain.new ≡ with_tables w (with_task w.tables task)) }
    ensures err { OnErr result (world_of plain.new ≡ world_of plain.old) }
{
    add(&mut plain.tasks, task)?;
    plain.next_id += 1;
    Ok(())
}

/// The service with this id gets a new task in its place with this number.
pub fn create_task(
    plain: &mut Plain,
    version: Version,
    service: Id,
    number: u64,
    desired: Desired,
) -> Result<(), NoMemory>
    requires { IsSmall (world_of plain.old) }
    ensures ok { let w = world_of plain.old in OnOk result (world_of plain.new
        ≡ with_tables w (on_service w.tables service (λ s. with_new version desired w.tables s number))) }
    ensures err { OnErr result (world_of plain.new ≡ world_of plain.old) }
{
    let Some(service) = plain.service(service) else {
        return Ok(());
    };
    let task = new_task(plain, version, service, number, desired)?;
    add_task(plain, task)
}
