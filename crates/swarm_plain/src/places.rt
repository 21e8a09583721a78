// The places of a service, and which of them are held.
ghost use Rattle.std.specs.Prelude.{◌≡◌, ◌&&◌, IfOk};
ghost use Rattle.std.specs.List.{list_any};
ghost use Rattle.std.specs.Option.{option_copied};
ghost use Rattle.swarm_objects.specs.Tasks.Places.{held_places, is_held, is_in_place, newest, numbers_of, tasks_of_place};
ghost use Rattle.swarm_objects.specs.Tasks.Words.{is_live};
ghost use Rattle.swarm_plain.specs.Plain.{tables_of};

use crate::Plain;
use std::alloc::Global;
use swarm_objects::{List, NoMemory, Place, Service, Task, add, put_in_order};

/// The newest task of the place.
pub fn newest<'a>(service: &Service, place: Place, tasks: &'a [Task]) -> Option<&'a Task>
    ensures { option_copied result ≡ newest (tasks_of_place service.now place tasks.now) }
{
    let mut newest = None;
    for task in tasks {
        if task.is_in_place(service, place) {
            newest = Some(task);
        }
    }
    newest
}

// It is a live task in the place.
fn is_live_in_place(service: &Service, place: Place, task: &Task) -> bool
    ensures { result ≡ (is_in_place service.now place task.now && is_live task.now) }
{
    task.is_in_place(service, place) && task.is_live()
}

/// A live task stands in the place.
pub fn has_live(service: &Service, place: Place, tasks: &[Task]) -> bool
    ensures { result ≡ list_any (λ task. is_in_place service.now place task && is_live task) tasks.now }
{
    tasks
        .iter()
        .any(|task| is_live_in_place(service, place, task))
}

/// A live task stands in the place, or its newest task closes it.
pub fn is_held(service: &Service, place: Place, tasks: &[Task]) -> bool
    ensures { result ≡ is_held service.now place tasks.now }
{
    if has_live(service, place, tasks) {
        return true;
    }
    match newest(service, place, tasks) {
        Some(task) => task.closes(),
        None => false,
    }
}

/// The numbers of the places that the service has tasks in, rising.
pub fn numbers_of(alloc: Global, service: &Service, tasks: &[Task]) -> Result<List<u64>, NoMemory>
    ensures { IfOk result (λ numbers. numbers ≡ numbers_of service.now tasks.now) }
{
    let mut numbers = List::new(alloc);
    for task in tasks {
        if task.counts_for(service) {
            put_in_order(&mut numbers, task.place.place_number())?;
        }
    }
    Ok(numbers)
}

impl Plain {
    /// The numbers of the places that are held, rising.
    pub fn held_places(&self, service: &Service) -> Result<List<u64>, NoMemory>
        ensures { IfOk result (λ held. held ≡ held_places (tables_of self.now) service.now) }
    {
        let tasks = self.tasks.as_slice();
        let numbers = numbers_of(self.alloc, service, tasks)?;
        let mut held = List::new(self.alloc);
        for number in numbers.as_slice() {
            if is_held(service, service.spec.mode.place_at(*number), tasks) {
                add(&mut held, *number)?;
            }
        }
        Ok(held)
    }
}
