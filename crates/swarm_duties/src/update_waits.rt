// What updates under way wait for: places in flight, and the watching of new tasks.
ghost use Rattle.std.specs.Prelude.{◌≡◌, ◌&&◌, flat_map, true};
ghost use Rattle.std.specs.List.{list_all};
ghost use Rattle.std.specs.Ordering.{nat_cmp};
ghost use Rattle.swarm_settle.specs.Flights.{item_times};
ghost use Rattle.swarm_model.specs.Settle.{flight_times, flight_wait, least_time, run_wait, update_wait, wait_cmp, watch_wait};
ghost use Rattle.swarm_objects.specs.Bounds.{HasNearTimes, is_near_run, is_near_service, is_near_task};
ghost use Rattle.swarm_objects.specs.Rows.{least_by};
ghost use Rattle.swarm_objects.specs.Services.Runs.{is_flying};
ghost use Rattle.swarm_objects.specs.Tasks.Places.{is_in_place};
ghost use Rattle.swarm_objects.specs.Tasks.Words.{is_running};
ghost use Rattle.swarm_plain.specs.Plain.{tables_of};

use plain_updates::runs::{has_room, is_flying};
use plain_updates::updates::has_waiting_place;
use role_words::is_under_way;
use swarm_objects::{Cause, Ms, Replaced, Service, Task, UpdateRun};
use swarm_plain::Plain;
use swarm_plain::held::has_dirty_place;
use swarm_settle::{Wait, flight_end, keep_time, wait_till, watch_time};

// Places in flight.

// The task is in flight in the place, and runs.
fn is_flying_there(plain: &Plain, service: &Service, item: &Replaced, task: &Task) -> bool
    ensures { let s = service.now in let x = task.now in
        result ≡ (is_in_place s item.now.place x && is_flying (tables_of plain.now) s x && is_running x) }
{
    task.is_in_place(service, item.place) && is_flying(plain, service, task) && task.is_running()
}

// When the first of the place's tasks in flight that run ceases to be that, or the least time so far.
fn item_time(plain: &Plain, service: &Service, item: &Replaced, least: Option<Ms>) -> Option<Ms>
    requires tasks { list_all is_near_task plain.now.tasks ≡ true }
    requires service { is_near_service service.now ≡ true }
    ensures { result ≡ least_by nat_cmp least (item_times (tables_of plain.now) service.now item.now) }
{
    let mut time = least;
    for task in plain.tasks.as_slice() {
        if is_flying_there(plain, service, item, task) {
            time = keep_time(time, flight_end(service, task));
        }
    }
    time
}

// The same of all places that the run replaced.
fn flight_time(plain: &Plain, service: &Service, run: &UpdateRun) -> Option<Ms>
    requires tasks { list_all is_near_task plain.now.tasks ≡ true }
    requires service { is_near_service service.now ≡ true }
    ensures { result ≡ least_time (flight_times (tables_of plain.now) service.now run.now) }
{
    let mut least = None;
    for item in run.replaced.as_slice() {
        least = item_time(plain, service, item, least);
    }
    least
}

// A place that is to be replaced is held back by parallelism.
fn flight_wait(
    plain: &Plain,
    best: Option<Wait>,
    service: &Service,
    run: &UpdateRun,
) -> Option<Wait>
    requires tasks { list_all is_near_task plain.now.tasks ≡ true }
    requires service { is_near_service service.now ≡ true }
    ensures { result ≡ least_by wait_cmp best (flight_wait (tables_of plain.now) service.now run.now) }
{
    if !has_waiting_place(plain, service) || has_room(plain, service, run) {
        return best;
    }
    let time = flight_time(plain, service, run);
    wait_till(best, Cause::Update, service.id, time)
}

// The watching of new tasks.

// Where no place is dirty, new tasks are watched.
fn watch_wait(plain: &Plain, best: Option<Wait>, service: &Service, run: &UpdateRun) -> Option<Wait>
    requires service { is_near_service service.now ≡ true }
    requires run { is_near_run run.now ≡ true }
    ensures { result ≡ least_by wait_cmp best (watch_wait (tables_of plain.now) service.now run.now) }
{
    if has_dirty_place(plain, service) {
        return best;
    }
    let time = watch_time(plain, service, run);
    wait_till(best, Cause::Update, service.id, time)
}

fn run_wait(plain: &Plain, best: Option<Wait>, service: &Service, run: &UpdateRun) -> Option<Wait>
    requires tasks { list_all is_near_task plain.now.tasks ≡ true }
    requires service { is_near_service service.now ≡ true }
    requires run { is_near_run run.now ≡ true }
    ensures { result ≡ least_by wait_cmp best (run_wait (tables_of plain.now) service.now run.now) }
{
    if !is_under_way(run) {
        return best;
    }
    let least = flight_wait(plain, best, service, run);
    watch_wait(plain, least, service, run)
}

fn update_wait(plain: &Plain, best: Option<Wait>, service: &Service) -> Option<Wait>
    requires tasks { list_all is_near_task plain.now.tasks ≡ true }
    requires service { is_near_service service.now ≡ true }
    ensures { result ≡ least_by wait_cmp best (update_wait (tables_of plain.now) service.now) }
{
    match &service.run {
        Some(run) => run_wait(plain, best, service, run),
        None => best,
    }
}

/// The least of the best wait so far and those for updates.
pub fn update_waits(plain: &Plain, best: Option<Wait>) -> Option<Wait>
    requires { HasNearTimes (tables_of plain.now) }
    ensures { result ≡ least_by wait_cmp best (flat_map (update_wait (tables_of plain.now)) plain.now.services) }
{
    let mut least = best;
    for service in plain.services.as_slice() {
        least = update_wait(plain, least, service);
    }
    least
}
