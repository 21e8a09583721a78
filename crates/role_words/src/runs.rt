// Update runs: their template, their places in flight, and how long new tasks were watched.
ghost use Rattle.std.specs.Prelude.{◌≡◌, ◌+◌, ◌&&◌, ◌||◌, nat_lt};
ghost use Rattle.std.specs.List.{list_any};
ghost use Rattle.swarm_objects.specs.Loops.Update.{is_watched};
ghost use Rattle.swarm_objects.specs.Services.Runs.{has_room, in_flight, is_flying, is_in_flight, is_of_version};
ghost use Rattle.swarm_objects.specs.Tasks.Places.{place_tasks, tasks_of_place};
ghost use Rattle.swarm_objects.specs.Tasks.Words.{is_below_running, is_running};
ghost use Rattle.swarm_objects.specs.Usable.{IsUsable};
ghost use Rattle.role_words.specs.UpdateMarks.{ShowsUpdates};

use crate::places::tasks_of_place;
use crate::update_window::{UpdateWindow, mark_of};
use swarm_objects::{Place, Replaced, Rows, Service, Task, UpdateRun};

/// It is a run to the service's present template.
pub fn is_of_version(service: &Service, run: &UpdateRun) -> bool
    ensures { result ≡ is_of_version service.now run.now }
{
    run.version == service.template_version
}

/// The task is below RUNNING, or RUNNING for less than the delay. Without a delay only one below RUNNING is.
pub fn is_starting<R: Rows>(rows: &R, service: &Service, task: &Task) -> bool
    ensures { let x = task.now in let s = service.now in result ≡ (is_below_running x
        || (is_running x && nat_lt (R.tables rows.now).clock (x.since + s.spec.update.delay))) }
{
    let starts_till = u128::from(task.since) + u128::from(service.spec.update.delay);
    task.is_below_running() || (task.is_running() && u128::from(rows.now()) < starts_till)
}

/// The task is clean and live, and isn't yet RUNNING for the delay.
pub fn is_flying<R: Rows>(rows: &R, service: &Service, task: &Task) -> bool
    ensures { result ≡ is_flying (R.tables rows.now) service.now task.now }
{
    task.is_live_clean(service) && is_starting(rows, service, task)
}

// Such a task stands in this place of the service.
fn is_flying_place<R: Rows>(rows: &R, service: &Service, place: Place) -> bool
    requires { IsUsable (R.tables rows.now) }
    ensures { let t = R.tables rows.now in
        result ≡ list_any (is_flying t service.now) (tasks_of_place service.now place t.tasks) }
{
    tasks_of_place(rows, service, place).any(|task| is_flying(rows, service, task))
}

// The same of the place with this number, by the window.
fn has_flying<R: Rows>(window: &mut UpdateWindow, rows: &R, service: &Service, number: u64) -> bool
    requires usable { IsUsable (R.tables rows.now) }
    requires shows { let t = R.tables rows.now in ShowsUpdates window.old t service.now t.tasks }
    ensures shows { let t = R.tables rows.now in ShowsUpdates window.new t service.now t.tasks }
    ensures is { let t = R.tables rows.now in
        result ≡ list_any (is_flying t service.now) (place_tasks t service.now number) }
{
    mark_of(window, rows, service, number).has_flying
}

/// Such a task stands in the place that the run has replaced. Only a place of the service's kind is in the window.
pub fn is_in_flight<R: Rows>(
    window: &mut UpdateWindow,
    rows: &R,
    service: &Service,
    item: &Replaced,
) -> bool
    requires usable { IsUsable (R.tables rows.now) }
    requires shows { let t = R.tables rows.now in ShowsUpdates window.old t service.now t.tasks }
    ensures shows { let t = R.tables rows.now in ShowsUpdates window.new t service.now t.tasks }
    ensures is { result ≡ is_in_flight (R.tables rows.now) service.now item.now }
{
    let number = item.place.place_number();
    if service.spec.mode.place_at(number) == item.place {
        has_flying(window, rows, service, number)
    } else {
        is_flying_place(rows, service, item.place)
    }
}

// How many of the replaced places are in flight.
fn in_flight<R: Rows>(
    window: &mut UpdateWindow,
    rows: &R,
    service: &Service,
    run: &UpdateRun,
) -> usize
    requires usable { IsUsable (R.tables rows.now) }
    requires shows { let t = R.tables rows.now in ShowsUpdates window.old t service.now t.tasks }
    ensures shows { let t = R.tables rows.now in ShowsUpdates window.new t service.now t.tasks }
    ensures count { result ≡ in_flight (R.tables rows.now) service.now run.now }
{
    let mut count = 0;
    for item in run.replaced.as_slice() {
        if is_in_flight(window, rows, service, item) {
            count += 1;
        }
    }
    count
}

/// The parallelism lets one more place be in flight. A parallelism of 0 is none: any number may be.
pub fn has_room<R: Rows>(
    window: &mut UpdateWindow,
    rows: &R,
    service: &Service,
    run: &UpdateRun,
) -> bool
    requires usable { IsUsable (R.tables rows.now) }
    requires shows { let t = R.tables rows.now in ShowsUpdates window.old t service.now t.tasks }
    ensures shows { let t = R.tables rows.now in ShowsUpdates window.new t service.now t.tasks }
    ensures is { result ≡ has_room (R.tables rows.now) service.now run.now }
{
    let parallelism = service.spec.update.parallelism;
    parallelism == 0 || (in_flight(window, rows, service, run) as u64) < parallelism
}

/// The new task of the place was watched for the monitor time, which begins where the task was made.
pub fn is_watched<R: Rows>(rows: &R, service: &Service, item: &Replaced) -> bool
    ensures { result ≡ is_watched (R.tables rows.now) service.now item.now }
{
    let watched_till = u128::from(item.created) + u128::from(service.spec.update.monitor);
    watched_till <= u128::from(rows.now())
}
