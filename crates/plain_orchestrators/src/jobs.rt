// The duties on jobs.
ghost use Rattle.std.specs.Prelude.{◌≡◌, ◌==◌, ◌&&◌, ◌++◌, flat_map, option_to_list};
ghost use Rattle.std.specs.Prelude.{IfOk, OnErr, OnOk};
ghost use Rattle.std.specs.List.{list_any};
ghost use Rattle.swarm_objects.specs.Bounds.{IsSmall};
ghost use Rattle.swarm_objects.specs.Duties.{effect_by, is_due};
ghost use Rattle.swarm_objects.specs.Kinds.{same_duty};
ghost use Rattle.swarm_objects.specs.Loops.Jobs.{has_old, is_old, is_old_of, jobs, next_duty};
ghost use Rattle.swarm_objects.specs.Loops.Words.{duty_where};
ghost use Rattle.swarm_plain.specs.Plain.{world_of};

use swarm_jobs::{is_old, is_old_of};
use swarm_objects::{Desired, Duty, Id, List, Mode, NoMemory, Service, Version, add};
use swarm_plain::Plain;
use swarm_plain::held::tally;
use swarm_plain::tasks::{create_task, want};

// The job has such a task.
fn has_old(plain: &Plain, service: &Service) -> bool
    ensures { result ≡ has_old (world_of plain.now).tables service.now }
{
    plain
        .tasks
        .as_slice()
        .iter()
        .any(|task| task.is_of(service.id) && is_old_of(task, service))
}

// The slot in which the job gets a new task, while fewer run than may and fewer slots are held than there are tasks.
fn next_duty(plain: &Plain, service: &Service) -> Option<Duty>
    ensures { let t = (world_of plain.now).tables in
        option_to_list result ≡ next_duty t service.now service.now.spec.mode }
{
    let Mode::Job { concurrent, total } = service.spec.mode else {
        return None;
    };
    let tally = tally(plain, service, 0);
    if tally.live < concurrent && tally.held < total && !has_old(plain, service) {
        Some(Duty::JobCreate(service.id, tally.gap))
    } else {
        None
    }
}

// The tasks of earlier iterations.
fn put_old(plain: &Plain, duties: &mut List<Duty>) -> Result<(), NoMemory>
    ensures { let t = (world_of plain.now).tables in
        OnOk result (duties.new ≡ duties.old ++ duty_where (is_old t) (λ x. Duty.Old x.id) t.tasks) }
{
    for task in plain.tasks.as_slice() {
        if is_old(plain, task) {
            add(duties, Duty::Old(task.id))?;
        }
    }
    Ok(())
}

// The new tasks.
fn put_next(plain: &Plain, duties: &mut List<Duty>) -> Result<(), NoMemory>
    ensures { let t = (world_of plain.now).tables in
        OnOk result (duties.new ≡ duties.old ++ flat_map (λ s. next_duty t s s.spec.mode) t.services) }
{
    for service in plain.services.as_slice() {
        if let Some(duty) = next_duty(plain, service) {
            add(duties, duty)?;
        }
    }
    Ok(())
}

/// What there is to do about jobs.
pub fn job_duties(plain: &Plain) -> Result<List<Duty>, NoMemory>
    ensures { IfOk result (λ duties. duties ≡ jobs (world_of plain.now).tables) }
{
    let mut duties = List::new(plain.alloc);
    put_old(plain, &mut duties)?;
    put_next(plain, &mut duties)?;
    Ok(duties)
}

// A task with this id is to go, since its job has a later iteration; by the scan.
fn any_old(plain: &Plain, id: Id) -> bool
    ensures { let t = (world_of plain.now).tables in result ≡ list_any (λ x. x.id == id && is_old t x) t.tasks }
{
    plain
        .tasks
        .as_slice()
        .iter()
        .any(|task| task.id == id && is_old(plain, task))
}

/// The task with this id is to go, since its job has a later iteration.
pub fn is_old_due(plain: &Plain, id: Id) -> bool
    ensures { result ≡ is_due (world_of plain.now) (Duty.Old id) }
{
    any_old(plain, id)
}

// The duty is a new task in this slot of the job.
fn is_create(due: Option<Duty>, service: Id, slot: u64) -> bool
    ensures { result ≡ list_any (same_duty (Duty.JobCreate service slot)) (option_to_list due) }
{
    match due {
        Some(Duty::JobCreate(id, place)) => id == service && place == slot,
        _ => false,
    }
}

// The job is this one, and gets a new task in this slot.
fn gets_slot(plain: &Plain, service: &Service, id: Id, slot: u64) -> bool
    ensures { let t = (world_of plain.now).tables in let duties = next_duty t service.now service.now.spec.mode in
        result ≡ list_any (same_duty (Duty.JobCreate id slot)) duties }
{
    if service.id != id {
        return false;
    }
    is_create(next_duty(plain, service), id, slot)
}

/// The job with this id is to get a new task in this slot.
pub fn is_job_create_due(plain: &Plain, id: Id, slot: u64) -> bool
    ensures { result ≡ is_due (world_of plain.now) (Duty.JobCreate id slot) }
{
    for service in plain.services.as_slice() {
        if gets_slot(plain, service, id, slot) {
            return true;
        }
    }
    false
}

/// The task of an earlier iteration goes.
pub fn remove_old(plain: &mut Plain, version: Version, task: Id)
    ensures { world_of plain.new ≡ effect_by version (world_of plain.old) (Duty.Old task) }
{
    want(plain, version, task, Desired::Remove);
}

/// The job gets a new task in the slot.
pub fn create_job_task(
    plain: &mut Plain,
    version: Version,
    service: Id,
    slot: u64,
) -> Result<(), NoMemory>
    requires { IsSmall (world_of plain.old) }
    ensures ok { OnOk result
        (world_of plain.new ≡ effect_by version (world_of plain.old) (Duty.JobCreate service slot)) }
    ensures err { OnErr result (world_of plain.new ≡ world_of plain.old) }
{
    create_task(plain, version, service, slot, Desired::Complete)
}
