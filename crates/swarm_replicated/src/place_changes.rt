// What changes of rows make of a service's places: which of them they spare, and whether one is held after them.
ghost use Rattle.std.specs.Prelude.{◌≡◌, IfSome, true};
ghost use Rattle.std.specs.List.{list_all, list_any};
ghost use Rattle.role_words.specs.Marks.{stands};
ghost use Rattle.swarm_objects.specs.ChangeLists.{apply_changes};
ghost use Rattle.swarm_objects.specs.Tasks.Places.{is_held_place};
ghost use Rattle.swarm_objects.specs.Usable.{IsUsable};
ghost use Rattle.swarm_replicated.specs.Inside.PlaceChanges.{fills, holds, is_alike, is_emptied, is_filled, is_kept};
ghost use Rattle.swarm_replicated.specs.Inside.PlaceChanges.{is_named, is_replicated, keeps_places, leaves_full};
ghost use Rattle.swarm_replicated.specs.Inside.PlaceChanges.{may_hold, may_stay, names};
ghost use Rattle.swarm_replicated.specs.Inside.PlaceChanges.{place_of, puts_none, spares};
ghost use Rattle.swarm_replicated.specs.Inside.Reach.{passes, reach_only};

use crate::reach::Reach;
use role_words::place_tasks;
use swarm_objects::{Change, Id, Mode, Rows, Service, Task};

/// The task stands in the service's place with its number.
pub fn stands(service: &Service, task: &Task) -> bool
    ensures { result ≡ stands service.now task.now }
{
    task.is_in_place(
        service,
        service.spec.mode.place_at(task.place.place_number()),
    )
}

// The task is live and stands in the place with this number, so this is held.
fn holds(service: &Service, number: u64, task: &Task) -> bool
    ensures { result ≡ holds service.now number task.now }
{
    task.is_live() && stands(service, task) && task.place.place_number() == number
}

// Both stand in the same place, and make the same of it.
fn is_alike(service: &Service, one: &Task, two: &Task) -> bool
    ensures { result ≡ is_alike service.now one.now two.now }
{
    stands(service, one)
        && stands(service, two)
        && one.place.place_number() == two.place.place_number()
        && one.is_live() == two.is_live()
        && one.closes() == two.closes()
}

// The place of the service that the task stands in.
fn place_of(service: &Service, task: &Task) -> Reach
    ensures { result ≡ place_of service.now task.now }
{
    if stands(service, task) {
        Reach::One(task.place.place_number())
    } else {
        Reach::Nothing
    }
}

// The places in which the put of the task may matter: its own, and that of the one that was there; none where both
// are alike.
#[tactic(auto, using(crate::proofs::Reaching::place_steps))]
fn places_put<R: Rows>(rows: &R, service: &Service, task: &Task) -> Reach
    ensures { passes (λ place. spares (R.tables rows.now) service.now place (Change.PutTask task.now)) result ≡ true }
{
    let Some(former) = rows.task(task.id) else {
        return place_of(service, task);
    };
    if is_alike(service, task, former) {
        return Reach::Nothing;
    }
    place_of(service, task).joined(place_of(service, former))
}

// The place of the task with this id, if it is there.
#[tactic(auto, using(crate::proofs::Reaching::place_steps))]
fn places_dropped<R: Rows>(rows: &R, service: &Service, id: Id) -> Reach
    ensures { passes (λ place. spares (R.tables rows.now) service.now place (Change.DropTask id)) result ≡ true }
{
    match rows.task(id) {
        Some(former) => place_of(service, former),
        None => Reach::Nothing,
    }
}

fn is_replicated(mode: Mode) -> bool
    ensures { result ≡ is_replicated mode }
{
    match mode {
        Mode::Replicated(_) => true,
        Mode::Global | Mode::Job { .. } => false,
    }
}

// With this row as its own the service has the same places: slots, whose tasks are those of its id. How many there are
// to be doesn't matter.
fn keeps_places(service: &Service, put: &Service) -> bool
    ensures { result ≡ keeps_places service.now put.now }
{
    is_replicated(service.spec.mode) && is_replicated(put.spec.mode)
}

// The places of the service in which the change may matter: all others are held after it as before.
fn places_changed<R: Rows>(rows: &R, service: &Service, change: &Change) -> Reach
    ensures { passes (λ place. spares (R.tables rows.now) service.now place change.now) result ≡ true }
{
    match change {
        Change::PutNode(_) | Change::Keep(_) => Reach::Nothing,
        Change::PutService(put) => {
            if put.id != service.id || keeps_places(service, put) {
                Reach::Nothing
            } else {
                Reach::More
            }
        }
        Change::PutTask(task) => places_put(rows, service, task),
        Change::DropTask(task) => places_dropped(rows, service, *task),
    }
}

/// The places in which any of them may matter.
pub fn places_together<R: Rows>(rows: &R, service: &Service, changes: &[Change]) -> Reach
    ensures { reach_only (spares (R.tables rows.now) service.now) result changes.now ≡ true }
{
    let mut together = Reach::Nothing;
    for change in changes {
        together = together.joined(places_changed(rows, service, change));
        if let Reach::More = together {
            return Reach::More;
        }
    }
    together
}

// The change puts a new task that holds the place.
fn fills(service: &Service, number: u64, next_id: Id, change: &Change) -> bool
    ensures { result ≡ fills service.now number next_id change.now }
{
    match change {
        Change::PutTask(task) => next_id <= task.id && holds(service, number, task),
        _ => false,
    }
}

// The change leaves a new task that holds the place, or puts another one.
fn leaves_full(service: &Service, number: u64, next_id: Id, change: &Change) -> bool
    ensures { result ≡ leaves_full service.now number next_id change.now }
{
    match change {
        Change::PutTask(task) => task.id < next_id || holds(service, number, task),
        Change::DropTask(task) => *task < next_id,
        _ => true,
    }
}

// One of them does.
fn some_fills(service: &Service, number: u64, next_id: Id, changes: &[Change]) -> bool
    ensures { result ≡ list_any (fills service.now number next_id) changes.now }
{
    changes
        .iter()
        .any(|change| fills(service, number, next_id, change))
}

// Each of them does.
fn all_leave_full(service: &Service, number: u64, next_id: Id, changes: &[Change]) -> bool
    ensures { result ≡ list_all (leaves_full service.now number next_id) changes.now }
{
    changes
        .iter()
        .all(|change| leaves_full(service, number, next_id, change))
}

// A new task comes, and holds the place.
fn is_filled<R: Rows>(rows: &R, service: &Service, number: u64, changes: &[Change]) -> bool
    ensures { result ≡ is_filled (R.tables rows.now) service.now number changes.now }
{
    let next_id = rows.next_id();
    some_fills(service, number, next_id, changes)
        && all_leave_full(service, number, next_id, changes)
}

// The change puts the task with this id, or drops it.
fn names(id: Id, change: &Change) -> bool
    ensures { result ≡ names id change.now }
{
    match change {
        Change::PutTask(task) => task.id == id,
        Change::DropTask(task) => *task == id,
        _ => false,
    }
}

// One of them does.
fn is_named(changes: &[Change], id: Id) -> bool
    ensures { result ≡ is_named changes.now id }
{
    changes.iter().any(|change| names(id, change))
}

// A live task of the place stays as it is.
fn is_kept<R: Rows>(rows: &R, service: &Service, number: u64, changes: &[Change]) -> bool
    requires { IsUsable (R.tables rows.now) }
    ensures { result ≡ is_kept (R.tables rows.now) service.now number changes.now }
{
    place_tasks(rows, service, number).any(|task| task.is_live() && !is_named(changes, task.id))
}

// The task may hold its place.
fn may_hold(task: &Task) -> bool
    ensures { result ≡ may_hold task.now }
{
    task.is_live() || task.closes()
}

// The change puts no task that may hold the place.
fn puts_none(service: &Service, number: u64, change: &Change) -> bool
    ensures { result ≡ puts_none service.now number change.now }
{
    match change {
        Change::PutTask(task) => {
            !may_hold(task) || !stands(service, task) || task.place.place_number() != number
        }
        _ => true,
    }
}

// None of them does.
fn all_put_none(service: &Service, number: u64, changes: &[Change]) -> bool
    ensures { result ≡ list_all (puts_none service.now number) changes.now }
{
    changes
        .iter()
        .all(|change| puts_none(service, number, change))
}

// A task that may hold the place stays as it is.
fn may_stay<R: Rows>(rows: &R, service: &Service, number: u64, changes: &[Change]) -> bool
    requires { IsUsable (R.tables rows.now) }
    ensures { result ≡ may_stay (R.tables rows.now) service.now number changes.now }
{
    place_tasks(rows, service, number).any(|task| may_hold(task) && !is_named(changes, task.id))
}

// No task that may hold the place stays or comes.
fn is_emptied<R: Rows>(rows: &R, service: &Service, number: u64, changes: &[Change]) -> bool
    requires { IsUsable (R.tables rows.now) }
    ensures { result ≡ is_emptied (R.tables rows.now) service.now number changes.now }
{
    all_put_none(service, number, changes) && !may_stay(rows, service, number, changes)
}

/// The place is held after the changes, where that is sure either way.
pub fn will_hold<R: Rows>(
    rows: &R,
    service: &Service,
    number: u64,
    changes: &[Change],
) -> Option<bool>
    requires { IsUsable (R.tables rows.now) }
    ensures { IfSome result (λ held.
        held ≡ is_held_place (apply_changes (R.tables rows.now) changes.now) service.now number) }
{
    if is_filled(rows, service, number, changes) {
        return Some(true);
    }
    if is_kept(rows, service, number, changes) {
        return Some(true);
    }
    if is_emptied(rows, service, number, changes) {
        return Some(false);
    }
    None
}
