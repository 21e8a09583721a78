// What updates under way wait for: places in flight, and the watching of new tasks.
ghost use Rattle.std.specs.Prelude.{◌≡◌, ◌&&◌, ◌+◌, ◌++◌, false, flat_map, true};
ghost use Rattle.std.specs.Ordering.{nat_cmp};
ghost use Rattle.swarm_model.specs.Settle.{
  has_waiting_place,
  flight_times,
  flight_wait,
  least_time,
  run_wait,
  update_wait,
  wait_cmp,
  watch_times,
  watch_wait,
};
ghost use Rattle.swarm_objects.specs.Bounds.{is_near_run, is_near_service, is_near_task};
ghost use Rattle.swarm_objects.specs.Rows.{keep_least, least_by, service_id};
ghost use Rattle.swarm_objects.specs.Tasks.Places.{has_dirty_place};
ghost use Rattle.swarm_objects.specs.Services.Runs.{is_flying};
ghost use Rattle.swarm_objects.specs.Tasks.Words.{is_running};
ghost use Rattle.swarm_objects.specs.Usable.{IsUsable};
ghost use Rattle.role_words.specs.UpdateMarks.{ShowsUpdates};
ghost use Rattle.swarm_spans.specs.Timed.{is_unfinished};
ghost use Rattle.swarm_settle.specs.Flights.{item_times, task_times};
ghost use Rattle.swarm_spans.specs.Spans.{Covers};

use crate::wait::{Wait, wait_till};
use role_words::{
    UpdateWindow, has_dirty_place_in, has_room, has_suspect, has_waiting_place, is_flying,
    is_in_flight, is_under_way, is_watched, tasks_of_place, update_places,
};
use swarm_objects::{Cause, Ms, Replaced, Rows, Service, Task, UpdateRun};
use swarm_spans::{Span, next_service_in};

/// The time, where it comes before the least one so far.
pub fn keep_time(least: Option<Ms>, time: Ms) -> Option<Ms>
    ensures { result ≡ keep_least nat_cmp least time }
{
    match least {
        Some(held) if held <= time => Some(held),
        _ => Some(time),
    }
}

// Places in flight.

// The task is in flight, and runs.
fn flies_running<R: Rows>(rows: &R, service: &Service, task: &Task) -> bool
    ensures { result ≡ (is_flying (R.tables rows.now) service.now task.now && is_running task.now) }
{
    is_flying(rows, service, task) && task.is_running()
}

/// When a task that runs ceases to be in flight.
pub fn flight_end(service: &Service, task: &Task) -> Ms
    requires service { is_near_service service.now ≡ true }
    requires task { is_near_task task.now ≡ true }
    ensures { result ≡ task.now.since + service.now.spec.update.delay }
{
    task.since + service.spec.update.delay
}

// The least of the best time so far and the end of the task's flight, where it flies and runs.
fn task_time<R: Rows>(rows: &R, service: &Service, task: &Task, least: Option<Ms>) -> Option<Ms>
    requires service { is_near_service service.now ≡ true }
    requires task { is_near_task task.now ≡ true }
    ensures { result ≡ least_by nat_cmp least (task_times (R.tables rows.now) service.now task.now) }
{
    if flies_running(rows, service, task) {
        keep_time(least, flight_end(service, task))
    } else {
        least
    }
}

// When the first of the place's tasks in flight that run ceases to be that, or the least time so far.
fn item_time<R: Rows>(rows: &R, service: &Service, item: &Replaced, least: Option<Ms>) -> Option<Ms>
    requires usable { IsUsable (R.tables rows.now) }
    requires service { is_near_service service.now ≡ true }
    ensures { result ≡ least_by nat_cmp least (item_times (R.tables rows.now) service.now item.now) }
{
    let mut time = least;
    for task in tasks_of_place(rows, service, item.place) {
        time = task_time(rows, service, task, time);
    }
    time
}

// The same, where the window tells that such a task is there: the tasks aren't gone over for each other place.
#[tactic(auto, using(crate::proofs::FlightTimes::none_flying))]
fn flying_time<R: Rows>(
    window: &mut UpdateWindow,
    rows: &R,
    service: &Service,
    item: &Replaced,
    least: Option<Ms>,
) -> Option<Ms>
    requires usable { IsUsable (R.tables rows.now) }
    requires service { is_near_service service.now ≡ true }
    requires shows { let t = R.tables rows.now in ShowsUpdates window.old t service.now t.tasks }
    ensures shows { let t = R.tables rows.now in ShowsUpdates window.new t service.now t.tasks }
    ensures least { result ≡ least_by nat_cmp least (item_times (R.tables rows.now) service.now item.now) }
{
    if !is_in_flight(window, rows, service, item) {
        return least;
    }
    item_time(rows, service, item, least)
}

// The same of all places that the run replaced.
fn flight_time<R: Rows>(
    window: &mut UpdateWindow,
    rows: &R,
    service: &Service,
    run: &UpdateRun,
) -> Option<Ms>
    requires usable { IsUsable (R.tables rows.now) }
    requires service { is_near_service service.now ≡ true }
    requires shows { let t = R.tables rows.now in ShowsUpdates window.old t service.now t.tasks }
    ensures { result ≡ least_time (flight_times (R.tables rows.now) service.now run.now) }
{
    let mut least = None;
    for item in run.replaced.as_slice() {
        least = flying_time(window, rows, service, item, least);
    }
    least
}

// A place that is to be replaced is held back by parallelism.
fn flight_wait<R: Rows>(
    window: &mut UpdateWindow,
    rows: &R,
    best: Option<Wait>,
    service: &Service,
    run: &UpdateRun,
) -> Option<Wait>
    requires usable { IsUsable (R.tables rows.now) }
    requires service { is_near_service service.now ≡ true }
    requires shows { let t = R.tables rows.now in ShowsUpdates window.old t service.now t.tasks }
    requires waits { has_waiting_place (R.tables rows.now) service.now ≡ true }
    ensures { result ≡ least_by wait_cmp best (flight_wait (R.tables rows.now) service.now run.now) }
{
    if has_room(window, rows, service, run) {
        return best;
    }
    let time = flight_time(window, rows, service, run);
    wait_till(best, Cause::Update, service.id, time)
}

// The watching of new tasks.

/// When the first of the new tasks that aren't watched yet for the monitor time is.
pub fn watch_time<R: Rows>(rows: &R, service: &Service, run: &UpdateRun) -> Option<Ms>
    requires service { is_near_service service.now ≡ true }
    requires run { is_near_run run.now ≡ true }
    ensures { result ≡ least_time (watch_times (R.tables rows.now) service.now run.now) }
{
    let mut least = None;
    for item in run.replaced.as_slice() {
        if !is_watched(rows, service, item) {
            least = keep_time(least, item.created + service.spec.update.monitor);
        }
    }
    least
}

// Where no place is dirty, new tasks are watched.
fn watch_wait<R: Rows>(
    rows: &R,
    best: Option<Wait>,
    service: &Service,
    run: &UpdateRun,
) -> Option<Wait>
    requires service { is_near_service service.now ≡ true }
    requires run { is_near_run run.now ≡ true }
    requires clean { has_dirty_place (R.tables rows.now) service.now ≡ false }
    ensures { result ≡ least_by wait_cmp best (watch_wait (R.tables rows.now) service.now run.now) }
{
    let time = watch_time(rows, service, run);
    wait_till(best, Cause::Update, service.id, time)
}

// Where places may be dirty: one window shows all that is asked of them. A place that is to be replaced is dirty, so
// that new tasks aren't watched where there is one.
#[tactic(auto, using(crate::proofs::Waiting::waiting_is_dirty))]
fn places_wait<R: Rows>(
    rows: &R,
    best: Option<Wait>,
    service: &Service,
    run: &UpdateRun,
) -> Option<Wait>
    requires usable { IsUsable (R.tables rows.now) }
    requires service { is_near_service service.now ≡ true }
    requires run { is_near_run run.now ≡ true }
    ensures { let t = R.tables rows.now in
        result ≡ least_by wait_cmp best (flight_wait t service.now run.now ++ watch_wait t service.now run.now) }
{
    let mut window = update_places(rows, service);
    if has_waiting_place(&mut window, rows, service) {
        return flight_wait(&mut window, rows, best, service, run);
    }
    if has_dirty_place_in(&mut window, rows, service) {
        return best;
    }
    watch_wait(rows, best, service, run)
}

// The places aren't gone over where no task may make one dirty.
fn run_wait<R: Rows>(
    rows: &R,
    best: Option<Wait>,
    service: &Service,
    run: &UpdateRun,
) -> Option<Wait>
    requires usable { IsUsable (R.tables rows.now) }
    requires service { is_near_service service.now ≡ true }
    requires run { is_near_run run.now ≡ true }
    ensures { result ≡ least_by wait_cmp best (run_wait (R.tables rows.now) service.now run.now) }
{
    if !is_under_way(run) {
        return best;
    }
    if has_suspect(rows, service) {
        places_wait(rows, best, service, run)
    } else {
        watch_wait(rows, best, service, run)
    }
}

fn update_wait<R: Rows>(rows: &R, best: Option<Wait>, service: &Service) -> Option<Wait>
    requires usable { IsUsable (R.tables rows.now) }
    requires service { is_near_service service.now ≡ true }
    ensures { result ≡ least_by wait_cmp best (update_wait (R.tables rows.now) service.now) }
{
    match &service.run {
        Some(run) => run_wait(rows, best, service, run),
        None => best,
    }
}

/// The least of the best wait so far and those for updates, of which each is in the span.
pub fn update_waits<R: Rows>(rows: &R, asked: Span, best: Option<Wait>) -> Option<Wait>
    requires usable { IsUsable (R.tables rows.now) }
    requires asked { Covers service_id is_unfinished asked (R.tables rows.now).services }
    ensures { let t = R.tables rows.now in result ≡ least_by wait_cmp best (flat_map (update_wait t) t.services) }
{
    let mut least = best;
    let mut left = asked;
    while let Some(service) = next_service_in(rows, &left) {
        least = update_wait(rows, least, service);
        left.pass(service.id);
    }
    least
}
