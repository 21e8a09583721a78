// What the duties on updates do.
ghost use Rattle.std.specs.Prelude.{◌≡◌, ◌==◌, ◌++◌, ◌∷◌, [], IfOk, None, OnErr, OnOk, drop, length, take, ◌≤◌};
ghost use Rattle.std.specs.List.{position};
ghost use Rattle.std.specs.Option.{option_copied, option_map};
ghost use Rattle.plain_updates.specs.Inside.Updating.{desired_by_order, spec_back, stopped_by_order, with_replaced};
ghost use Rattle.swarm_objects.specs.Bounds.{IsSmall};
ghost use Rattle.swarm_objects.specs.Duties.{effect_by};
ghost use Rattle.swarm_objects.specs.Loops.Update.{back_at, change_run, finished_status, in_status, item_of, may_roll_back, new_run, paused_status, start_status, with_item, with_run};
ghost use Rattle.swarm_objects.specs.Rows.{IsRising, change_row, service_id};
ghost use Rattle.swarm_objects.specs.Same.{same_place};
ghost use Rattle.swarm_objects.specs.Services.Ports.{kept_numbers};
ghost use Rattle.swarm_objects.specs.Tasks.New.{new_task};
ghost use Rattle.swarm_objects.specs.Tasks.Places.{place_at};
ghost use Rattle.swarm_plain.specs.Entries.{HasOrder};
ghost use Rattle.swarm_plain.specs.Plain.{world_of};

use std::alloc::Global;
use swarm_objects::{
    Desired, Duplicate, Duty, Id, List, NoMemory, Place, Replaced, Rows, RunStatus, Service,
    ServiceSpec, Task, UpdateOrder, UpdateRun, Version, add, put_row,
};
use swarm_plain::Plain;
use swarm_plain::held::dirty_places;
use swarm_plain::tasks::{Which, new_task, service_at, wish_at};
use swarm_update::{
    desired_by_order, finished_status, kept_numbers, may_roll_back, paused_status, start_status,
};

// Runs.

// A run to the service's present template, with all its places before it.
fn new_run(plain: &Plain, service: &Service, status: RunStatus) -> Result<UpdateRun, NoMemory>
    ensures { IfOk result (λ run. run ≡ new_run (world_of plain.now).tables service.now status) }
{
    let dirty = dirty_places(plain, service)?;
    Ok(UpdateRun {
        status,
        version: service.template_version,
        total: dirty.len() as u64,
        replaced: List::new(plain.alloc),
    })
}

// The place of the service with this id.
fn place_of(services: &[Service], id: Id) -> Option<usize>
    ensures { result ≡ position (λ s. s.id == id) services.now }
{
    services.iter().position(|service| service.id == id)
}

// The service with this id has this run.
fn set_run(services: &mut [Service], version: Version, id: Id, run: Option<UpdateRun>)
    requires { IsRising service_id services.old }
    ensures { services.new ≡ change_row service_id id
        (λ s. record s { version = version; run = run }) services.old }
{
    match place_of(services, id) {
        Some(at) => {
            let service = &mut services[at];
            service.version = version;
            service.run = run;
        }
        None => {}
    }
}

// The run of the service, where it has one, can't go on.
fn pause_run(service: &mut Service, version: Version)
    ensures { service.new ≡ change_run (λ run. in_status (paused_status run.status) run) version service.old }
{
    service.version = version;
    if let Some(run) = &mut service.run {
        run.status = paused_status(run.status);
    }
}

// The run of the service, where it has one, is complete.
fn finish_run(service: &mut Service, version: Version)
    ensures { service.new ≡ change_run (λ run. in_status (finished_status run.status) run) version service.old }
{
    service.version = version;
    if let Some(run) = &mut service.run {
        run.status = finished_status(run.status);
    }
}

fn pause(services: &mut [Service], version: Version, id: Id)
    ensures { services.new ≡ change_row service_id id
        (change_run (λ run. in_status (paused_status run.status) run) version) services.old }
{
    for service in services.iter_mut() {
        if service.id == id {
            pause_run(service, version);
        }
    }
}

fn finish(services: &mut [Service], version: Version, id: Id)
    ensures { services.new ≡ change_row service_id id
        (change_run (λ run. in_status (finished_status run.status) run) version) services.old }
{
    for service in services.iter_mut() {
        if service.id == id {
            finish_run(service, version);
        }
    }
}

/// The update of the service starts.
pub fn start_update(plain: &mut Plain, version: Version, service: Id) -> Result<(), NoMemory>
    requires { HasOrder (world_of plain.old).tables }
    ensures ok { OnOk result (world_of plain.new ≡ effect_by version (world_of plain.old) (Duty.Start service)) }
    ensures err { OnErr result (world_of plain.new ≡ world_of plain.old) }
{
    let Some(row) = service_at(plain.services.as_slice(), service) else {
        return Ok(());
    };
    let run = new_run(plain, row, start_status(row.rolling_back))?;
    set_run(plain.services.as_mut_slice(), version, service, Some(run));
    Ok(())
}

/// The update of the service is complete.
pub fn finish_update(plain: &mut Plain, version: Version, service: Id)
    ensures { world_of plain.new ≡ effect_by version (world_of plain.old) (Duty.Finish service) }
{
    finish(plain.services.as_mut_slice(), version, service);
}

// Failures.

// The service with its previous specification, before a run back to it.
fn back_at(
    alloc: Global,
    version: Version,
    service: &Service,
    spec: &ServiceSpec,
) -> Result<Service, NoMemory>
    ensures { IfOk result (λ new. new ≡ record (back_at version spec.now service.now) { run = None }) }
{
    let numbers = kept_numbers(alloc, service.numbers.as_slice(), spec)?;
    Ok(Service {
        id: service.id,
        version,
        name: service.name.duplicate(alloc)?,
        spec: spec.duplicate(alloc)?,
        previous: None,
        template_version: version,
        rolling_back: true,
        iteration: service.iteration,
        numbers,
        run: None,
    })
}

// The service with its previous specification, and a run back to it.
fn rolled_back(
    plain: &Plain,
    version: Version,
    service: &Service,
    spec: &ServiceSpec,
) -> Result<Service, NoMemory>
    ensures { let s = back_at version spec.now service.now in
        let run = new_run (world_of plain.now).tables s RunStatus.RollbackStarted in
        IfOk result (λ new. new ≡ with_run version run s) }
{
    let mut back = back_at(plain.alloc, version, service, spec)?;
    let run = new_run(plain, &back, RunStatus::RollbackStarted)?;
    back.run = Some(run);
    Ok(back)
}

// The specification that the service goes back to, where it may.
fn spec_back(service: &Service) -> Option<&ServiceSpec>
    ensures { option_copied result ≡ spec_back (may_roll_back service.now) service.now.previous }
{
    if may_roll_back(service) {
        service.previous.as_ref()
    } else {
        None
    }
}

/// The update of the service has failed: it is rolled back where that is the action, it is no rollback and there is a
/// previous specification, and else paused.
pub fn fail_update(plain: &mut Plain, version: Version, service: Id) -> Result<(), NoMemory>
    ensures ok { OnOk result (world_of plain.new ≡ effect_by version (world_of plain.old) (Duty.Fail service)) }
    ensures err { OnErr result (world_of plain.new ≡ world_of plain.old) }
{
    let Some(row) = service_at(plain.services.as_slice(), service) else {
        return Ok(());
    };
    match spec_back(row) {
        Some(spec) => {
            let back = rolled_back(plain, version, row, spec)?;
            put_row(plain.alloc, &mut plain.services, back)
        }
        None => {
            pause(plain.services.as_mut_slice(), version, service);
            Ok(())
        }
    }
}

// Places.

/// The dirty live tasks of the service's place are to stop.
pub fn swap_place(plain: &mut Plain, version: Version, service: Id, number: u64)
    ensures { world_of plain.new ≡ effect_by version (world_of plain.old) (Duty.Swap service number) }
{
    let Some(service) = service_at(plain.services.as_slice(), service) else {
        return;
    };
    wish_at(
        plain.tasks.as_mut_slice(),
        version,
        service,
        number,
        Which::LiveDirty,
        Desired::Shutdown,
    );
}

// Where the item with this place stands.
fn item_at(items: &[Replaced], place: Place) -> Option<usize>
    ensures { result ≡ position (λ i. same_place i.place place) items.now }
{
    items.iter().position(|item| item.place == place)
}

// The item takes the place of the one with its place, unless memory is wanting.
fn put_item(items: &mut List<Replaced>, item: Replaced) -> Result<(), NoMemory>
    ensures ok { OnOk result (items.new ≡ with_item item items.old) }
    ensures err { OnErr result (items.new ≡ items.old) }
{
    match item_at(items.as_slice(), item.place) {
        Some(at) => {
            items.as_mut_slice()[at] = item;
            Ok(())
        }
        None => add(items, item),
    }
}

// The run with the item among its replaced places.
fn with_replaced(alloc: Global, run: &UpdateRun, item: Replaced) -> Result<UpdateRun, NoMemory>
    ensures { IfOk result (λ new. new ≡ with_replaced item run.now) }
{
    let mut new = run.duplicate(alloc)?;
    put_item(&mut new.replaced, item)?;
    Ok(new)
}

// The service's run with the item, where it has one.
fn run_with_replaced(
    alloc: Global,
    service: &Service,
    item: Replaced,
) -> Result<Option<UpdateRun>, NoMemory>
    ensures { IfOk result (λ new. new ≡ option_map (with_replaced item) service.now.run) }
{
    match &service.run {
        Some(run) => Ok(Some(with_replaced(alloc, run, item)?)),
        None => Ok(None),
    }
}

// The live tasks of the place among so many first ones are to stop.
fn stop_among(tasks: &mut [Task], count: usize, version: Version, service: &Service, number: u64)
    requires { count ≤ length tasks.old }
    ensures { let stop = stopped_by_order version service.now number UpdateOrder.StopFirst in
        tasks.new ≡ stop (take count tasks.old) ++ drop count tasks.old }
{
    wish_at(
        &mut tasks[..count],
        version,
        service,
        number,
        Which::Live,
        Desired::Shutdown,
    );
}

// The same, where that comes before the new task.
fn stop_by_order(tasks: &mut [Task], count: usize, version: Version, service: &Service, number: u64)
    requires { count ≤ length tasks.old }
    ensures { let stop = stopped_by_order version service.now number service.now.spec.update.order in
        tasks.new ≡ stop (take count tasks.old) ++ drop count tasks.old }
{
    match service.spec.update.order {
        UpdateOrder::StopFirst => stop_among(tasks, count, version, service, number),
        UpdateOrder::StartFirst => {}
    }
}

// The new task of the place comes last, unless memory is wanting.
fn put_last(
    tasks: &mut List<Task>,
    version: Version,
    service: &Service,
    number: u64,
    task: Task,
) -> Result<(), NoMemory>
    ensures ok { let stop = stopped_by_order version service.now number service.now.spec.update.order in
        OnOk result (tasks.new ≡ stop tasks.old ++ task ∷ []) }
    ensures err { OnErr result (tasks.new ≡ tasks.old) }
{
    let count = tasks.len();
    add(tasks, task)?;
    stop_by_order(tasks.as_mut_slice(), count, version, service, number);
    Ok(())
}

// What a service gets for a place: a task, and its run with that.
#[derive(Drop)]
struct Replacement {
    task: Task,
    run: Option<UpdateRun>,
}

// The new task of the place, and the service's run with it.
fn new_replacement(
    plain: &Plain,
    version: Version,
    service: &Service,
    number: u64,
) -> Result<Replacement, NoMemory>
    ensures task { let t = (world_of plain.now).tables in let s = service.now in
        let desired = desired_by_order s.spec.mode s.spec.update.order in
        IfOk result (λ new. new.task ≡ new_task version t s (place_at s.spec.mode number) desired) }
    ensures run { let t = (world_of plain.now).tables in let s = service.now in
        let item = item_of t (place_at s.spec.mode number) in
        IfOk result (λ new. new.run ≡ option_map (with_replaced item) s.run) }
{
    let item = Replaced {
        place: service.spec.mode.place_at(number),
        task: plain.next_id,
        created: plain.clock,
    };
    Ok(Replacement {
        run: run_with_replaced(plain.alloc, service, item)?,
        task: new_task(plain, version, service, number, desired_by_order(service))?,
    })
}

/// The service gets a new task in the place: after its live tasks stop, or before.
pub fn replace_place(
    plain: &mut Plain,
    version: Version,
    service: Id,
    number: u64,
) -> Result<(), NoMemory>
    requires small { IsSmall (world_of plain.old) }
    requires order { HasOrder (world_of plain.old).tables }
    ensures ok { OnOk result
        (world_of plain.new ≡ effect_by version (world_of plain.old) (Duty.Replace service number)) }
    ensures err { OnErr result (world_of plain.new ≡ world_of plain.old) }
{
    let Some(row) = plain.service(service) else {
        return Ok(());
    };
    let new = new_replacement(plain, version, row, number)?;
    let Some(row) = service_at(plain.services.as_slice(), service) else {
        return Ok(());
    };
    put_last(&mut plain.tasks, version, row, number, new.task)?;
    plain.next_id += 1;
    set_run(plain.services.as_mut_slice(), version, service, new.run);
    Ok(())
}
