// The tasks of a place, and whether it is held.
ghost use Rattle.std.specs.Prelude.{◌≡◌, filter};
ghost use Rattle.std.specs.Iterator.{YieldsFirstRef, item_count};
ghost use Rattle.std.specs.Option.{option_copied};
ghost use Rattle.swarm_objects.specs.Rows.{is_some_and};
ghost use Rattle.swarm_objects.specs.Tasks.Places.{closes, has_live, is_held_place, newest, place_tasks, tasks_of_place};
ghost use Rattle.swarm_objects.specs.Usable.{IsUsable};

use std::marker::Model;
use swarm_objects::walks::{TasksWith, tasks_at};
use swarm_objects::{Place, Rows, Service, Task};

/// The tasks of a place of a service that are left, by rising id. Contracts see the list of them.
#[derive(Drop)]
pub struct PlaceTasks<'a, R: Rows> {
    rest: TasksWith<'a, R>,
    service: &'a Service,
    place: Place,
}

impl<'a, R: Rows> Model for PlaceTasks<'a, R> {
    ghost use Rattle.std.specs.Prelude.{List, filter};
    ghost use Rattle.swarm_objects.specs.declared.tasks.Task.{Task as Row};
    ghost use Rattle.swarm_objects.specs.Tasks.Places.{is_in_place};

    ghost Value = { List Row };

    ghost view = { λ it. filter (is_in_place it.service.now it.place) it.rest };
}

impl<'a, R: Rows> Iterator for PlaceTasks<'a, R> {
    type Item = &'a Task;

    ghost next_gives = { YieldsFirstRef (λ it. it) };

    ghost remaining = { item_count (λ it. it) };

    fn next(&mut self) -> Option<&'a Task> {
        while let Some(row) = self.rest.next() {
            if row.is_in_place(self.service, self.place) {
                return Some(row);
            }
        }
        None
    }
}

/// The tasks of this place of the service, by rising id.
#[tactic(auto, using(swarm_objects::proofs::PlaceLemmas::in_place_at))]
pub fn tasks_of_place<'a, R: Rows>(
    rows: &'a R,
    service: &'a Service,
    place: Place,
) -> PlaceTasks<'a, R>
    requires { IsUsable (R.tables rows.now) }
    ensures { result ≡ tasks_of_place service.now place (R.tables rows.now).tasks }
{
    PlaceTasks {
        rest: tasks_at(rows, service.id, place),
        service,
        place,
    }
}

/// The tasks of the service's place with this number, by rising id.
pub fn place_tasks<'a, R: Rows>(rows: &'a R, service: &'a Service, number: u64) -> PlaceTasks<'a, R>
    requires { IsUsable (R.tables rows.now) }
    ensures { result ≡ place_tasks (R.tables rows.now) service.now number }
{
    tasks_of_place(rows, service, service.spec.mode.place_at(number))
}

/// A live task stands in the service's place with this number.
pub fn has_live<R: Rows>(rows: &R, service: &Service, number: u64) -> bool
    requires { IsUsable (R.tables rows.now) }
    ensures { result ≡ has_live (R.tables rows.now) service.now number }
{
    place_tasks(rows, service, number).any(Task::is_live)
}

/// The newest task of this place of the service.
pub fn newest<'a, R: Rows>(rows: &'a R, service: &'a Service, place: Place) -> Option<&'a Task>
    requires { IsUsable (R.tables rows.now) }
    ensures { option_copied result ≡ newest (tasks_of_place service.now place (R.tables rows.now).tasks) }
{
    let mut newest = None;
    for task in tasks_of_place(rows, service, place) {
        newest = Some(task);
    }
    newest
}

// The newest task of the place closes it.
fn is_closed<R: Rows>(rows: &R, service: &Service, number: u64) -> bool
    requires { IsUsable (R.tables rows.now) }
    ensures { result ≡ is_some_and closes (newest (place_tasks (R.tables rows.now) service.now number)) }
{
    match newest(rows, service, service.spec.mode.place_at(number)) {
        Some(task) => task.closes(),
        None => false,
    }
}

/// A live task stands in the service's place with this number, or its newest task closes it.
pub fn is_held_place<R: Rows>(rows: &R, service: &Service, number: u64) -> bool
    requires { IsUsable (R.tables rows.now) }
    ensures { result ≡ is_held_place (R.tables rows.now) service.now number }
{
    has_live(rows, service, number) || is_closed(rows, service, number)
}
