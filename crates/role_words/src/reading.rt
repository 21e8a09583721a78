// The places of a service among tasks, one window after the other.
ghost use Rattle.std.specs.Prelude.{◌≡◌};
ghost use Rattle.std.specs.Iterator.{YieldsFirst, item_count};
ghost use Rattle.role_words.specs.Slots.{slots};
ghost use Rattle.role_words.specs.Windows.{IsNextPlace, IsFresh, Shows};

use crate::window::{Slot, Window};
use std::marker::Model;
use swarm_objects::{Service, Task};

/// The places of a service that are left, by rising number. Contracts see the list of them.
#[derive(Drop)]
pub struct ServiceSlots<'a> {
    service: &'a Service,
    tasks: &'a [Task],
    window: Window,
}

impl<'a> Model for ServiceSlots<'a> {
    ghost use Rattle.std.specs.Prelude.{List};
    ghost use Rattle.role_words.specs.Windows.{rest, Shows};
    ghost use Rattle.role_words.specs.declared.window.Slot.{Slot as Row};

    ghost Value = { List Row };

    ghost view = { λ it. rest it.window it.service.now it.tasks.now };

    ghost invariant = { λ it. Shows it.window it.service.now it.tasks.now };
}

// What the tasks say of the service's places from this number on.
fn window_from(service: &Service, tasks: &[Task], first: u64) -> Window
    ensures fresh { IsFresh result first }
    ensures shows { Shows result service.now tasks.now }
{
    let mut window = Window::new(first);
    for task in tasks {
        window.note(service, task);
    }
    window
}

// Goes on to the window from this number on. Apart, so that only this makes a window beside the one that is there.
fn go_on(window: &mut Window, service: &Service, tasks: &[Task], first: u64)
    ensures fresh { IsFresh window.new first }
    ensures shows { Shows window.new service.now tasks.now }
{
    *window = window_from(service, tasks, first);
}

// The next place, in this window or in that of the least number behind it.
fn next_slot(window: &mut Window, service: &Service, tasks: &[Task]) -> Option<Slot>
    requires { Shows window.old service.now tasks.now }
    ensures { IsNextPlace window.old window.new result service.now tasks.now }
{
    match window.next() {
        Some(slot) => Some(slot),
        None => match window.beyond() {
            Some(first) => {
                go_on(window, service, tasks, first);
                window.next()
            }
            None => None,
        },
    }
}

impl<'a> Iterator for ServiceSlots<'a> {
    type Item = Slot;

    ghost next_gives = { YieldsFirst (λ it. it) };

    ghost remaining = { item_count (λ it. it) };

    fn next(&mut self) -> Option<Slot> {
        let slot = next_slot(&mut self.window, self.service, self.tasks)?;
        Some(slot)
    }
}

/// The places that the service has among these tasks, by rising number.
pub fn slots_among<'a>(service: &'a Service, tasks: &'a [Task]) -> ServiceSlots<'a>
    ensures { result ≡ slots service.now tasks.now }
{
    ServiceSlots {
        service,
        tasks,
        window: window_from(service, tasks, 0),
    }
}
