// The places of a service in the plain world.
ghost use Rattle.std.specs.Prelude.{◌≡◌, ◌==◌, ◌&&◌, IfOk, not, ◌||◌};
ghost use Rattle.std.specs.List.{list_any};
ghost use Rattle.std.specs.Option.{option_copied};
ghost use Rattle.swarm_plain.specs.Inside.OfPlace.{is_suspect};
ghost use Rattle.swarm_objects.specs.Rows.{is_some_and};
ghost use Rattle.swarm_objects.specs.Services.Words.{is_live_clean, is_live_dirty};
ghost use Rattle.swarm_objects.specs.Tasks.Places.{closes_dirty, dirty_places, has_clean, has_dirty_place, has_live, has_other, is_dirty_place, is_held_place, is_in_place, newest, place_at, place_number, place_numbers, place_tasks};
ghost use Rattle.swarm_objects.specs.Tasks.Words.{is_live};
ghost use Rattle.swarm_plain.specs.Plain.{world_of};
ghost use Rattle.role_words.specs.Slots.{slots};
ghost use Rattle.role_words.specs.Tallies.{Tells};

use crate::{Plain, places};
use role_words::{ServiceSlots, Tally, slots_among, tally_of};
use swarm_objects::{List, NoMemory, Place, Service, Task, add};

/// The task stands in the service's place with this number.
pub fn is_at(service: &Service, number: u64, task: &Task) -> bool
    ensures { result ≡ is_in_place service.now (place_at service.now.spec.mode number) task.now }
{
    task.is_in_place(service, service.spec.mode.place_at(number))
}

/// The numbers of the places that the service has tasks in, rising.
pub fn place_numbers(plain: &Plain, service: &Service) -> Result<List<u64>, NoMemory>
    ensures { IfOk result (λ numbers. numbers ≡ place_numbers (world_of plain.now).tables service.now) }
{
    places::numbers_of(plain.alloc, service, plain.tasks.as_slice())
}

/// The place is held: a live task stands in it, or its newest task closes it.
pub fn is_held_place(plain: &Plain, service: &Service, number: u64) -> bool
    ensures { result ≡ is_held_place (world_of plain.now).tables service.now number }
{
    let place = service.spec.mode.place_at(number);
    places::is_held(service, place, plain.tasks.as_slice())
}

/// A live task stands in the place.
pub fn has_live(plain: &Plain, service: &Service, number: u64) -> bool
    ensures { result ≡ has_live (world_of plain.now).tables service.now number }
{
    let place = service.spec.mode.place_at(number);
    places::has_live(service, place, plain.tasks.as_slice())
}

// A clean live task stands in the place; by the scan.
fn any_clean(service: &Service, place: Place, tasks: &[Task]) -> bool
    ensures { result ≡ list_any (λ x. is_in_place service.now place x && is_live_clean service.now x) tasks.now }
{
    tasks.iter().any(|task| task.is_in_place(service, place) && task.is_live_clean(service))
}

/// A clean live task stands in the place.
pub fn has_clean(plain: &Plain, service: &Service, number: u64) -> bool
    ensures { result ≡ has_clean (world_of plain.now).tables service.now number }
{
    let place = service.spec.mode.place_at(number);
    any_clean(service, place, plain.tasks.as_slice())
}

// A dirty live task stands in the place; by the scan.
fn any_dirty(service: &Service, place: Place, tasks: &[Task]) -> bool
    ensures { result ≡ list_any (λ x. is_in_place service.now place x && is_live_dirty service.now x) tasks.now }
{
    tasks.iter().any(|task| task.is_in_place(service, place) && task.is_live_dirty(service))
}

/// A dirty live task stands in the place.
pub fn has_live_dirty(plain: &Plain, service: &Service, number: u64) -> bool
    ensures { let t = (world_of plain.now).tables in
        result ≡ list_any (is_live_dirty service.now) (place_tasks t service.now number) }
{
    let place = service.spec.mode.place_at(number);
    any_dirty(service, place, plain.tasks.as_slice())
}

/// The newest task of the place.
pub fn newest<'a>(plain: &'a Plain, service: &Service, number: u64) -> Option<&'a Task>
    ensures { option_copied result ≡ newest (place_tasks (world_of plain.now).tables service.now number) }
{
    let place = service.spec.mode.place_at(number);
    places::newest(service, place, plain.tasks.as_slice())
}

// It is a live task, and not this one.
fn is_other_live(task: &Task, other: &Task) -> bool
    ensures { result ≡ (is_live other.now && not (other.now.id == task.now.id)) }
{
    other.is_live() && other.id != task.id
}

// Another live task stands in the task's place; by the scan.
fn any_other(service: &Service, task: &Task, tasks: &[Task]) -> bool
    ensures { result ≡ list_any (λ y. is_in_place service.now task.now.place y
        && (is_live y && not (y.id == task.now.id))) tasks.now }
{
    tasks.iter().any(|other| other.is_in_place(service, task.place) && is_other_live(task, other))
}

/// Another live task stands in the task's place.
pub fn has_other(plain: &Plain, service: &Service, task: &Task) -> bool
    ensures { result ≡ has_other (world_of plain.now).tables service.now task.now }
{
    any_other(service, task, plain.tasks.as_slice())
}

/// The place is dirty: it has a dirty live task, or no live one and its newest task closes it and is dirty.
pub fn is_dirty_place(plain: &Plain, service: &Service, number: u64) -> bool
    ensures { result ≡ is_dirty_place (world_of plain.now).tables service.now number }
{
    has_live_dirty(plain, service, number)
        || (!has_live(plain, service, number) && closes_dirty(plain, service, number))
}

// The newest task of the place closes it, and is dirty.
fn closes_dirty(plain: &Plain, service: &Service, number: u64) -> bool
    ensures { result ≡ is_some_and (closes_dirty service.now)
        (newest (place_tasks (world_of plain.now).tables service.now number)) }
{
    match newest(plain, service, number) {
        Some(task) => task.closes_dirty(service),
        None => false,
    }
}

/// The places that the service has tasks in, by rising number, each with whether it is held.
pub fn slots<'a>(plain: &'a Plain, service: &'a Service) -> ServiceSlots<'a>
    ensures { result ≡ slots service.now (world_of plain.now).tables.tasks }
{
    slots_among(service, plain.tasks.as_slice())
}

/// How many of the service's places have a live task, how many are held, and the least number from this one on that
/// isn't held.
pub fn tally(plain: &Plain, service: &Service, from: u32) -> Tally
    ensures { Tells result from (world_of plain.now).tables service.now }
{
    tally_of(service, plain.tasks.as_slice(), from)
}

/// The numbers of the dirty places, rising.
pub fn dirty_places(plain: &Plain, service: &Service) -> Result<List<u64>, NoMemory>
    ensures { IfOk result (λ numbers. numbers ≡ dirty_places (world_of plain.now).tables service.now) }
{
    let numbers = place_numbers(plain, service)?;
    let mut dirty = List::new(plain.alloc);
    for number in numbers.as_slice() {
        if is_dirty_place(plain, service, *number) {
            add(&mut dirty, *number)?;
        }
    }
    Ok(dirty)
}

/// The task may make its place dirty.
pub fn is_suspect(service: &Service, task: &Task) -> bool
    ensures { result ≡ is_suspect service.now task.now }
{
    task.counts_for(service) && (task.is_live_dirty(service) || task.closes_dirty(service))
}

// Such a task stands in a dirty place.
fn any_suspect(plain: &Plain, service: &Service) -> bool
    ensures { let t = (world_of plain.now).tables in result ≡ list_any
        (λ x. is_suspect service.now x && is_dirty_place t service.now (place_number x.place)) t.tasks }
{
    plain.tasks.as_slice().iter().any(|task| is_suspect(service, task)
        && is_dirty_place(plain, service, task.place.place_number()))
}

/// A place of the service is dirty. Only the places of tasks that may make it so are looked at.
pub fn has_dirty_place(plain: &Plain, service: &Service) -> bool
    ensures { result ≡ has_dirty_place (world_of plain.now).tables service.now }
{
    any_suspect(plain, service)
}
