// What there is to do about rolling updates.
ghost use Rattle.std.specs.Prelude.{◌≡◌, ◌==◌, ◌&&◌, ◌++◌, IfOk, OnOk, Some};
ghost use Rattle.std.specs.List.{list_all, list_any};
ghost use Rattle.std.specs.Option.{option_copied};
ghost use Rattle.swarm_plain.specs.Inside.OfPlace.{is_suspect};
ghost use Rattle.plain_updates.specs.Inside.Updating.{open_run, wants_fail, wants_finish, wants_replace, wants_start, wants_swap, while_open};
ghost use Rattle.swarm_model.specs.Settle.{has_waiting_place};
ghost use Rattle.swarm_objects.specs.Duties.{is_due};
ghost use Rattle.swarm_objects.specs.Loops.Update.{is_to_finish, is_to_replace, is_to_start, is_to_swap, is_watched, lets_replace, run_duties, update, update_duties};
ghost use Rattle.swarm_objects.specs.Loops.Words.{places_where, when};
ghost use Rattle.swarm_objects.specs.Services.Runs.{is_of_version};
ghost use Rattle.swarm_objects.specs.Services.Words.{is_live_clean};
ghost use Rattle.swarm_objects.specs.Tasks.Places.{is_in_place, place_number, place_tasks};
ghost use Rattle.swarm_objects.specs.Tasks.Words.{is_running};
ghost use Rattle.swarm_plain.specs.Plain.{world_of};

use crate::runs::{fails, has_room, is_watched};
use role_words::{is_of_version, is_running_clean, is_under_way};
use swarm_objects::{Duty, Id, List, NoMemory, Place, Service, Task, UpdateRun, add};
use swarm_plain::Plain;
use swarm_plain::held::{
    has_clean, has_dirty_place, has_live_dirty, is_dirty_place, is_suspect, place_numbers,
};
use swarm_update::has_present_run;

// A dirty place is there, and no run to the present template.
fn is_to_start(plain: &Plain, service: &Service) -> bool
    ensures { result ≡ is_to_start (world_of plain.now).tables service.now }
{
    has_dirty_place(plain, service) && !has_present_run(service)
}

// Such a task stands in the place; by the scan.
fn any_running(service: &Service, place: Place, tasks: &[Task]) -> bool
    ensures { let s = service.now in result
        ≡ list_any (λ x. is_in_place s place x && (is_live_clean s x && is_running x)) tasks.now }
{
    tasks.iter().any(|task| task.is_in_place(service, place) && is_running_clean(service, task))
}

// Such a task stands in the place.
fn has_running_clean(plain: &Plain, service: &Service, number: u64) -> bool
    ensures { result ≡ list_any (λ x. is_live_clean service.now x && is_running x)
        (place_tasks (world_of plain.now).tables service.now number) }
{
    let place = service.spec.mode.place_at(number);
    any_running(service, place, plain.tasks.as_slice())
}

// A clean live task of the place runs, and a dirty one is live.
fn is_to_swap(plain: &Plain, service: &Service, number: u64) -> bool
    ensures { result ≡ is_to_swap (world_of plain.now).tables service.now number }
{
    has_running_clean(plain, service, number) && has_live_dirty(plain, service, number)
}

// The place is dirty, without a clean live task.
fn is_to_replace(plain: &Plain, service: &Service, number: u64) -> bool
    ensures { result ≡ is_to_replace (world_of plain.now).tables service.now number }
{
    is_dirty_place(plain, service, number) && !has_clean(plain, service, number)
}

// One more place may be replaced.
fn lets_replace(plain: &Plain, service: &Service, run: &UpdateRun) -> bool
    ensures { result ≡ lets_replace (world_of plain.now).tables service.now run.now }
{
    has_room(plain, service, run) && !fails(plain, service, run)
}

// Each new task of the run was watched for the monitor time.
fn all_watched(plain: &Plain, service: &Service, run: &UpdateRun) -> bool
    ensures { result ≡ list_all (is_watched (world_of plain.now).tables service.now) run.now.replaced }
{
    run.replaced
        .as_slice()
        .iter()
        .all(|item| is_watched(plain, service, item))
}

// All places are clean, and their new tasks were watched.
fn is_to_finish(plain: &Plain, service: &Service, run: &UpdateRun) -> bool
    ensures { result ≡ is_to_finish (world_of plain.now).tables service.now run.now }
{
    !has_dirty_place(plain, service)
        && all_watched(plain, service, run)
        && !fails(plain, service, run)
}

// The duty, where it is due.
fn put_when(duties: &mut List<Duty>, due: bool, duty: Duty) -> Result<(), NoMemory>
    ensures { OnOk result (duties.new ≡ duties.old ++ when due duty) }
{
    if due {
        add(duties, duty)?;
    }
    Ok(())
}

// The places whose old tasks are to stop.
fn put_swaps(
    plain: &Plain,
    service: &Service,
    run: &UpdateRun,
    numbers: &[u64],
    duties: &mut List<Duty>,
) -> Result<(), NoMemory>
    ensures { let t = (world_of plain.now).tables in let s = service.now in OnOk result (duties.new ≡ duties.old
        ++ places_where (is_of_version s run.now) (is_to_swap t s) (Duty.Swap s.id) numbers.now) }
{
    if !is_of_version(service, run) {
        return Ok(());
    }
    for number in numbers {
        if is_to_swap(plain, service, *number) {
            add(duties, Duty::Swap(service.id, *number))?;
        }
    }
    Ok(())
}

// The run is to the present template, and one more place may be replaced.
fn replaces(plain: &Plain, service: &Service, run: &UpdateRun) -> bool
    ensures { result
        ≡ (is_of_version service.now run.now && lets_replace (world_of plain.now).tables service.now run.now) }
{
    is_of_version(service, run) && lets_replace(plain, service, run)
}

// The places that are to get new tasks.
fn put_replacements(
    plain: &Plain,
    service: &Service,
    run: &UpdateRun,
    numbers: &[u64],
    duties: &mut List<Duty>,
) -> Result<(), NoMemory>
    ensures { let t = (world_of plain.now).tables in let s = service.now in
        let may = is_of_version s run.now && lets_replace t s run.now in
        OnOk result (duties.new ≡ duties.old ++ places_where may (is_to_replace t s) (Duty.Replace s.id) numbers.now) }
{
    if !replaces(plain, service, run) {
        return Ok(());
    }
    for number in numbers {
        if is_to_replace(plain, service, *number) {
            add(duties, Duty::Replace(service.id, *number))?;
        }
    }
    Ok(())
}

// What there is to do about the run of a service.
fn put_run_duties(
    plain: &Plain,
    service: &Service,
    run: &UpdateRun,
    duties: &mut List<Duty>,
) -> Result<(), NoMemory>
    ensures { OnOk result
        (duties.new ≡ duties.old ++ run_duties (world_of plain.now).tables service.now (Some run.now)) }
{
    if !is_under_way(run) {
        return Ok(());
    }
    let numbers = place_numbers(plain, service)?;
    let has_failed = fails(plain, service, run);
    put_when(duties, has_failed, Duty::Fail(service.id))?;
    put_swaps(plain, service, run, numbers.as_slice(), duties)?;
    put_replacements(plain, service, run, numbers.as_slice(), duties)?;
    let is_complete = is_to_finish(plain, service, run);
    put_when(duties, is_complete, Duty::Finish(service.id))
}

// The same, where the service has a run.
fn put_run(plain: &Plain, service: &Service, duties: &mut List<Duty>) -> Result<(), NoMemory>
    ensures { OnOk result
        (duties.new ≡ duties.old ++ run_duties (world_of plain.now).tables service.now service.now.run) }
{
    match &service.run {
        Some(run) => put_run_duties(plain, service, run, duties),
        None => Ok(()),
    }
}

// What there is to do about the service.
fn put_update(plain: &Plain, service: &Service, duties: &mut List<Duty>) -> Result<(), NoMemory>
    ensures { OnOk result (duties.new ≡ duties.old
        ++ update_duties (world_of plain.now).tables service.now service.now.spec.mode) }
{
    if service.spec.mode.is_job() {
        return Ok(());
    }
    let starts = is_to_start(plain, service);
    put_when(duties, starts, Duty::Start(service.id))?;
    put_run(plain, service, duties)
}

/// What there is to do about updates.
pub fn update_duties(plain: &Plain) -> Result<List<Duty>, NoMemory>
    ensures { IfOk result (λ duties. duties ≡ update (world_of plain.now).tables) }
{
    let mut duties = List::new(plain.alloc);
    for service in plain.services.as_slice() {
        put_update(plain, service, &mut duties)?;
    }
    Ok(duties)
}

// A place of a suspect task is to get a new one.
fn any_replacement(plain: &Plain, service: &Service) -> bool
    ensures { let t = (world_of plain.now).tables in let s = service.now in result
        ≡ list_any (λ x. is_suspect s x && is_to_replace t s (place_number x.place)) t.tasks }
{
    plain.tasks.as_slice().iter().any(|task| is_suspect(service, task)
        && is_to_replace(plain, service, task.place.place_number()))
}

/// A place of the service is to get a new task.
pub fn has_waiting_place(plain: &Plain, service: &Service) -> bool
    ensures { result ≡ has_waiting_place (world_of plain.now).tables service.now }
{
    any_replacement(plain, service)
}

// One duty.

// The run, where it is under way.
fn while_open(run: &UpdateRun) -> Option<&UpdateRun>
    ensures { option_copied result ≡ while_open (Some run.now) }
{
    if is_under_way(run) { Some(run) } else { None }
}

// The run under way of a service that is no job.
fn open_run(service: &Service) -> Option<&UpdateRun>
    ensures { option_copied result ≡ open_run service.now }
{
    if service.spec.mode.is_job() {
        return None;
    }
    match &service.run {
        Some(run) => while_open(run),
        None => None,
    }
}

fn wants_start(plain: &Plain, service: &Service) -> bool
    ensures { result ≡ wants_start (world_of plain.now).tables service.now }
{
    !service.spec.mode.is_job() && is_to_start(plain, service)
}

fn wants_fail(plain: &Plain, service: &Service) -> bool
    ensures { result ≡ wants_fail (world_of plain.now).tables service.now }
{
    match open_run(service) {
        Some(run) => fails(plain, service, run),
        None => false,
    }
}

fn wants_swap(plain: &Plain, service: &Service, number: u64) -> bool
    ensures { result ≡ wants_swap (world_of plain.now).tables number service.now }
{
    match open_run(service) {
        Some(run) => is_of_version(service, run) && is_to_swap(plain, service, number),
        None => false,
    }
}

fn wants_replace(plain: &Plain, service: &Service, number: u64) -> bool
    ensures { result ≡ wants_replace (world_of plain.now).tables number service.now }
{
    match open_run(service) {
        Some(run) => replaces(plain, service, run) && is_to_replace(plain, service, number),
        None => false,
    }
}

fn wants_finish(plain: &Plain, service: &Service) -> bool
    ensures { result ≡ wants_finish (world_of plain.now).tables service.now }
{
    match open_run(service) {
        Some(run) => is_to_finish(plain, service, run),
        None => false,
    }
}

// By the scan.
fn any_start(plain: &Plain, id: Id) -> bool
    ensures { let t = (world_of plain.now).tables in
        result ≡ list_any (λ s. s.id == id && wants_start t s) t.services }
{
    plain
        .services
        .as_slice()
        .iter()
        .any(|service| service.id == id && wants_start(plain, service))
}

/// The update of the service with this id is to start.
pub fn is_start_due(plain: &Plain, id: Id) -> bool
    ensures { result ≡ is_due (world_of plain.now) (Duty.Start id) }
{
    any_start(plain, id)
}

// By the scan.
fn any_fail(plain: &Plain, id: Id) -> bool
    ensures { let t = (world_of plain.now).tables in
        result ≡ list_any (λ s. s.id == id && wants_fail t s) t.services }
{
    plain
        .services
        .as_slice()
        .iter()
        .any(|service| service.id == id && wants_fail(plain, service))
}

/// The update of the service with this id has failed.
pub fn is_fail_due(plain: &Plain, id: Id) -> bool
    ensures { result ≡ is_due (world_of plain.now) (Duty.Fail id) }
{
    any_fail(plain, id)
}

// By the scan.
fn any_swap(plain: &Plain, id: Id, number: u64) -> bool
    ensures { let t = (world_of plain.now).tables in
        result ≡ list_any (λ s. s.id == id && wants_swap t number s) t.services }
{
    plain.services.as_slice().iter().any(|service| service.id == id
        && wants_swap(plain, service, number))
}

/// The old tasks of the service's place with this number are to stop.
pub fn is_swap_due(plain: &Plain, id: Id, number: u64) -> bool
    ensures { result ≡ is_due (world_of plain.now) (Duty.Swap id number) }
{
    any_swap(plain, id, number)
}

// By the scan.
fn any_replace(plain: &Plain, id: Id, number: u64) -> bool
    ensures { let t = (world_of plain.now).tables in
        result ≡ list_any (λ s. s.id == id && wants_replace t number s) t.services }
{
    plain.services.as_slice().iter().any(|service| service.id == id
        && wants_replace(plain, service, number))
}

/// The service's place with this number is to get a new task.
pub fn is_replace_due(plain: &Plain, id: Id, number: u64) -> bool
    ensures { result ≡ is_due (world_of plain.now) (Duty.Replace id number) }
{
    any_replace(plain, id, number)
}

// By the scan.
fn any_finish(plain: &Plain, id: Id) -> bool
    ensures { let t = (world_of plain.now).tables in
        result ≡ list_any (λ s. s.id == id && wants_finish t s) t.services }
{
    plain
        .services
        .as_slice()
        .iter()
        .any(|service| service.id == id && wants_finish(plain, service))
}

/// The update of the service with this id is complete.
pub fn is_finish_due(plain: &Plain, id: Id) -> bool
    ensures { result ≡ is_due (world_of plain.now) (Duty.Finish id) }
{
    any_finish(plain, id)
}
