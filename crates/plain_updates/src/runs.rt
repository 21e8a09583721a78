// Words on update runs: their failures, and their places in flight.
ghost use Rattle.std.specs.Prelude.{◌≡◌, ◌&&◌};
ghost use Rattle.std.specs.List.{list_any};
ghost use Rattle.swarm_objects.specs.Loops.Update.{is_watched};
ghost use Rattle.swarm_objects.specs.Services.Runs.{failures, fails, goes_on, has_room, in_flight, is_exceeded, is_failure, is_flying, is_in_flight, is_present};
ghost use Rattle.swarm_objects.specs.Tasks.Places.{is_in_place};
ghost use Rattle.swarm_plain.specs.Plain.{world_of};

use swarm_objects::{Place, Replaced, Service, Task, UpdateRun};
use swarm_plain::Plain;
use swarm_update::{goes_on, is_failure, is_present};

// How many tasks of the run have failed.
fn failures(plain: &Plain, service: &Service, run: &UpdateRun) -> usize
    ensures { result ≡ failures (world_of plain.now).tables service.now run.now }
{
    plain
        .tasks
        .as_slice()
        .iter()
        .filter(|task| is_failure(service, run, task))
        .count()
}

// More tasks have failed than the ratio bears, in thousandths.
fn is_exceeded(plain: &Plain, service: &Service, run: &UpdateRun) -> bool
    ensures { result ≡ is_exceeded (world_of plain.now).tables service.now run.now }
{
    let borne = u128::from(service.spec.update.ratio) * u128::from(run.total);
    borne < 1000 * failures(plain, service, run) as u128
}

/// The update has failed.
pub fn fails(plain: &Plain, service: &Service, run: &UpdateRun) -> bool
    ensures { result ≡ fails (world_of plain.now).tables service.now run.now }
{
    is_present(service, run)
        && !goes_on(service.spec.update.action)
        && is_exceeded(plain, service, run)
}

/// The task is clean and live, and isn't yet RUNNING for the delay.
pub fn is_flying(plain: &Plain, service: &Service, task: &Task) -> bool
    ensures { result ≡ is_flying (world_of plain.now).tables service.now task.now }
{
    let flies_till = u128::from(task.since) + u128::from(service.spec.update.delay);
    task.is_live_clean(service)
        && (task.is_below_running() || (task.is_running() && u128::from(plain.clock) < flies_till))
}

// Such a task stands in the place; by the scan.
fn any_flying(plain: &Plain, service: &Service, place: Place) -> bool
    ensures { let t = (world_of plain.now).tables in let s = service.now in
        result ≡ list_any (λ x. is_in_place s place x && is_flying t s x) t.tasks }
{
    plain.tasks.as_slice().iter().any(|task| task.is_in_place(service, place)
        && is_flying(plain, service, task))
}

// Such a task stands in the place that the run has replaced.
fn is_in_flight(plain: &Plain, service: &Service, item: &Replaced) -> bool
    ensures { result ≡ is_in_flight (world_of plain.now).tables service.now item.now }
{
    any_flying(plain, service, item.place)
}

// How many of the replaced places are in flight.
fn in_flight(plain: &Plain, service: &Service, run: &UpdateRun) -> usize
    ensures { result ≡ in_flight (world_of plain.now).tables service.now run.now }
{
    run.replaced
        .as_slice()
        .iter()
        .filter(|item| is_in_flight(plain, service, item))
        .count()
}

/// The parallelism lets one more place be in flight.
pub fn has_room(plain: &Plain, service: &Service, run: &UpdateRun) -> bool
    ensures { result ≡ has_room (world_of plain.now).tables service.now run.now }
{
    let parallelism = service.spec.update.parallelism;
    parallelism == 0 || (in_flight(plain, service, run) as u64) < parallelism
}

/// The new task of the place was watched for the monitor time.
pub fn is_watched(plain: &Plain, service: &Service, item: &Replaced) -> bool
    ensures { result ≡ is_watched (world_of plain.now).tables service.now item.now }
{
    let watched_till = u128::from(item.created) + u128::from(service.spec.update.monitor);
    watched_till <= u128::from(plain.clock)
}
