// The places of a service that an update is to change.
ghost use Rattle.std.specs.Prelude.{◌≡◌, ◌&&◌, filter, length};
ghost use Rattle.std.specs.List.{list_any};
ghost use Rattle.swarm_objects.specs.Loops.Update.{is_to_replace, is_to_swap};
ghost use Rattle.swarm_objects.specs.Rows.{first_of};
ghost use Rattle.swarm_objects.specs.Services.Words.{is_live_clean};
ghost use Rattle.swarm_objects.specs.Tasks.Places.{dirty_places, has_dirty_place, is_dirty_place, place_numbers};
ghost use Rattle.swarm_objects.specs.Tasks.Words.{is_running};
ghost use Rattle.swarm_objects.specs.Usable.{IsUsable};
ghost use Rattle.role_words.specs.UpdateMarks.{ShowsUpdates};

use crate::suspects::has_suspect;
use crate::update_window::{UpdateWindow, mark_of, update_places};
use crate::windows::place_numbers;
use swarm_objects::{Rows, Service, Task};

/// The task is clean and live, and runs.
pub fn is_running_clean(service: &Service, task: &Task) -> bool
    ensures { result ≡ (is_live_clean service.now task.now && is_running task.now) }
{
    task.is_live_clean(service) && task.is_running()
}

// The place is dirty: it has a dirty live task, or no live one and its newest task closes it and is dirty.
fn is_dirty_place<R: Rows>(
    window: &mut UpdateWindow,
    rows: &R,
    service: &Service,
    number: u64,
) -> bool
    requires usable { IsUsable (R.tables rows.now) }
    requires shows { let t = R.tables rows.now in ShowsUpdates window.old t service.now t.tasks }
    ensures shows { let t = R.tables rows.now in ShowsUpdates window.new t service.now t.tasks }
    ensures is { result ≡ is_dirty_place (R.tables rows.now) service.now number }
{
    mark_of(window, rows, service, number).is_dirty()
}

// A clean live task of the place runs, and a dirty one is live.
fn is_to_swap<R: Rows>(window: &mut UpdateWindow, rows: &R, service: &Service, number: u64) -> bool
    requires usable { IsUsable (R.tables rows.now) }
    requires shows { let t = R.tables rows.now in ShowsUpdates window.old t service.now t.tasks }
    ensures shows { let t = R.tables rows.now in ShowsUpdates window.new t service.now t.tasks }
    ensures is { result ≡ is_to_swap (R.tables rows.now) service.now number }
{
    mark_of(window, rows, service, number).is_to_swap()
}

// The place is dirty, without a clean live task.
fn is_to_replace<R: Rows>(
    window: &mut UpdateWindow,
    rows: &R,
    service: &Service,
    number: u64,
) -> bool
    requires usable { IsUsable (R.tables rows.now) }
    requires shows { let t = R.tables rows.now in ShowsUpdates window.old t service.now t.tasks }
    ensures shows { let t = R.tables rows.now in ShowsUpdates window.new t service.now t.tasks }
    ensures is { result ≡ is_to_replace (R.tables rows.now) service.now number }
{
    mark_of(window, rows, service, number).is_to_replace()
}

/// A place of the service is dirty: by the window.
pub fn has_dirty_place_in<R: Rows>(window: &mut UpdateWindow, rows: &R, service: &Service) -> bool
    requires usable { IsUsable (R.tables rows.now) }
    requires shows { let t = R.tables rows.now in ShowsUpdates window.old t service.now t.tasks }
    ensures shows { let t = R.tables rows.now in ShowsUpdates window.new t service.now t.tasks }
    ensures is { result ≡ has_dirty_place (R.tables rows.now) service.now }
{
    for number in place_numbers(rows, service) {
        if is_dirty_place(window, rows, service, number) {
            return true;
        }
    }
    false
}

/// A place of the service is dirty. Where none of its tasks may make one so, the places aren't gone over.
#[tactic(auto, using(crate::proofs::NoSuspects::none_suspect))]
pub fn has_dirty_place<R: Rows>(rows: &R, service: &Service) -> bool
    requires { IsUsable (R.tables rows.now) }
    ensures { result ≡ has_dirty_place (R.tables rows.now) service.now }
{
    has_suspect(rows, service)
        && has_dirty_place_in(&mut update_places(rows, service), rows, service)
}

/// How many places of the service are dirty.
#[tactic(auto, using(crate::proofs::Dirty::count_steps))]
pub fn dirty_count<R: Rows>(rows: &R, service: &Service) -> u64
    requires { IsUsable (R.tables rows.now) }
    ensures { result ≡ length (dirty_places (R.tables rows.now) service.now) }
{
    let mut window = update_places(rows, service);
    let mut count = 0;
    for number in place_numbers(rows, service) {
        if is_dirty_place(&mut window, rows, service, number) {
            count += 1;
        }
    }
    count
}

/// The least place of the service of which a clean live task runs and a dirty one is live.
pub fn first_to_swap<R: Rows>(rows: &R, service: &Service) -> Option<u64>
    requires { IsUsable (R.tables rows.now) }
    ensures { let t = R.tables rows.now in
        result ≡ first_of (filter (is_to_swap t service.now) (place_numbers t service.now)) }
{
    let mut window = update_places(rows, service);
    for number in place_numbers(rows, service) {
        if is_to_swap(&mut window, rows, service, number) {
            return Some(number);
        }
    }
    None
}

// The least place of the service that is dirty, without a clean live task: by the window.
fn first_to_replace_in<R: Rows>(
    window: &mut UpdateWindow,
    rows: &R,
    service: &Service,
) -> Option<u64>
    requires usable { IsUsable (R.tables rows.now) }
    requires shows { let t = R.tables rows.now in ShowsUpdates window.old t service.now t.tasks }
    ensures shows { let t = R.tables rows.now in ShowsUpdates window.new t service.now t.tasks }
    ensures first { let t = R.tables rows.now in
        result ≡ first_of (filter (is_to_replace t service.now) (place_numbers t service.now)) }
{
    for number in place_numbers(rows, service) {
        if is_to_replace(window, rows, service, number) {
            return Some(number);
        }
    }
    None
}

/// The least place of the service that is dirty, without a clean live task.
pub fn first_to_replace<R: Rows>(rows: &R, service: &Service) -> Option<u64>
    requires { IsUsable (R.tables rows.now) }
    ensures { let t = R.tables rows.now in
        result ≡ first_of (filter (is_to_replace t service.now) (place_numbers t service.now)) }
{
    first_to_replace_in(&mut update_places(rows, service), rows, service)
}

/// A place of the service is to be replaced.
#[tactic(auto, using(crate::proofs::Dirty::any_first))]
pub fn has_waiting_place<R: Rows>(window: &mut UpdateWindow, rows: &R, service: &Service) -> bool
    requires usable { IsUsable (R.tables rows.now) }
    requires shows { let t = R.tables rows.now in ShowsUpdates window.old t service.now t.tasks }
    ensures shows { let t = R.tables rows.now in ShowsUpdates window.new t service.now t.tasks }
    ensures is { let t = R.tables rows.now in
        result ≡ list_any (is_to_replace t service.now) (place_numbers t service.now) }
{
    first_to_replace_in(window, rows, service).is_some()
}
