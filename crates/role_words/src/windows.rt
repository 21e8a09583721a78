// The places of a service among any rows, each with whether it is held: one window of numbers after the other.
ghost use Rattle.std.specs.Prelude.{◌≡◌, length};
ghost use Rattle.std.specs.Iterator.{YieldsFirst, item_count};
ghost use Rattle.swarm_objects.specs.Rows.{first_gap};
ghost use Rattle.swarm_objects.specs.Tasks.Places.{held_places, live_places, place_numbers};
ghost use Rattle.swarm_objects.specs.Usable.{IsUsable};
ghost use Rattle.role_words.specs.Shown.{AreShown};
ghost use Rattle.role_words.specs.Slots.{slots};
ghost use Rattle.role_words.specs.Tallies.{Tells};
ghost use Rattle.role_words.specs.Windows.{IsNextPlace, IsFresh, Shows};

use crate::tallies::Tally;
use crate::window::{Slot, Window};
use std::marker::Model;
use swarm_objects::walks::tasks_of;
use swarm_objects::{Rows, Service};

/// The places of a service that are left, by rising number. Contracts see the list of them.
#[derive(Drop)]
pub struct SlotRows<'a, R: Rows> {
    rows: &'a R,
    service: &'a Service,
    window: Window,
}

impl<'a, R: Rows> Model for SlotRows<'a, R> {
    ghost use Rattle.std.specs.Prelude.{List};
    ghost use Rattle.role_words.specs.Shown.{AreShown};
    ghost use Rattle.role_words.specs.Windows.{rest};
    ghost use Rattle.role_words.specs.declared.window.Slot.{Slot as Row};

    ghost Value = { List Row };

    ghost view = { λ it. rest it.window it.service.now (R.tables it.rows.now).tasks };

    ghost invariant = { λ it. AreShown (R.tables it.rows.now) it.window it.service.now };
}

// What the tasks say of the service's places from this number on.
fn window_from<R: Rows>(rows: &R, service: &Service, first: u64) -> Window
    requires { IsUsable (R.tables rows.now) }
    ensures fresh { IsFresh result first }
    ensures shows { Shows result service.now (R.tables rows.now).tasks }
{
    let mut window = Window::new(first);
    for task in tasks_of(rows, service.id) {
        window.note(service, task);
    }
    window
}

// Goes on to the window from this number on. Apart, so that only this makes a window beside the one that is there.
fn go_on<R: Rows>(window: &mut Window, rows: &R, service: &Service, first: u64)
    requires { IsUsable (R.tables rows.now) }
    ensures fresh { IsFresh window.new first }
    ensures shows { Shows window.new service.now (R.tables rows.now).tasks }
{
    *window = window_from(rows, service, first);
}

// The next place, in this window or in that of the least number behind it.
fn next_slot<R: Rows>(window: &mut Window, rows: &R, service: &Service) -> Option<Slot>
    requires { AreShown (R.tables rows.now) window.old service.now }
    ensures { IsNextPlace window.old window.new result service.now (R.tables rows.now).tasks }
{
    match window.next() {
        Some(slot) => Some(slot),
        None => match window.beyond() {
            Some(first) => {
                go_on(window, rows, service, first);
                window.next()
            }
            None => None,
        },
    }
}

impl<'a, R: Rows> Iterator for SlotRows<'a, R> {
    type Item = Slot;

    ghost next_gives = { YieldsFirst (λ it. it) };

    ghost remaining = { item_count (λ it. it) };

    fn next(&mut self) -> Option<Slot> {
        let slot = next_slot(&mut self.window, self.rows, self.service)?;
        Some(slot)
    }
}

/// The places that the service has tasks in, by rising number, each with whether it is held.
pub fn slots<'a, R: Rows>(rows: &'a R, service: &'a Service) -> SlotRows<'a, R>
    requires { IsUsable (R.tables rows.now) }
    ensures { result ≡ slots service.now (R.tables rows.now).tasks }
{
    SlotRows {
        rows,
        service,
        window: window_from(rows, service, 0),
    }
}

/// The numbers of the places of a service that are left, rising. Contracts see the list of them.
#[derive(Drop)]
pub struct PlaceNumbers<'a, R: Rows> {
    rest: SlotRows<'a, R>,
}

impl<'a, R: Rows> Model for PlaceNumbers<'a, R> {
    ghost use Rattle.std.specs.Prelude.{ℕ, List};
    ghost use Rattle.role_words.specs.Slots.{slot_numbers};

    ghost Value = { List ℕ };

    ghost view = { λ it. slot_numbers it.rest };
}

impl<'a, R: Rows> Iterator for PlaceNumbers<'a, R> {
    type Item = u64;

    ghost next_gives = { YieldsFirst (λ it. it) };

    ghost remaining = { item_count (λ it. it) };

    fn next(&mut self) -> Option<u64> {
        let slot = self.rest.next()?;
        Some(slot.number)
    }
}

/// The numbers of the places that the service has tasks in, rising.
#[tactic(auto, using(crate::proofs::Tallying::all_numbers))]
pub fn place_numbers<'a, R: Rows>(rows: &'a R, service: &'a Service) -> PlaceNumbers<'a, R>
    requires { IsUsable (R.tables rows.now) }
    ensures { result ≡ place_numbers (R.tables rows.now) service.now }
{
    PlaceNumbers {
        rest: slots(rows, service),
    }
}

/// The numbers of the held places of a service that are left, rising. Contracts see the list of them.
#[derive(Drop)]
pub struct HeldPlaces<'a, R: Rows> {
    rest: SlotRows<'a, R>,
}

impl<'a, R: Rows> Model for HeldPlaces<'a, R> {
    ghost use Rattle.std.specs.Prelude.{ℕ, List};
    ghost use Rattle.role_words.specs.Slots.{held_numbers};

    ghost Value = { List ℕ };

    ghost view = { λ it. held_numbers it.rest };
}

impl<'a, R: Rows> Iterator for HeldPlaces<'a, R> {
    type Item = u64;

    ghost next_gives = { YieldsFirst (λ it. it) };

    ghost remaining = { item_count (λ it. it) };

    fn next(&mut self) -> Option<u64> {
        while let Some(slot) = self.rest.next() {
            if slot.is_held {
                return Some(slot.number);
            }
        }
        None
    }
}

/// The numbers of the service's held places, rising.
#[tactic(auto, using(crate::proofs::Tallying::held_all))]
pub fn held_places<'a, R: Rows>(rows: &'a R, service: &'a Service) -> HeldPlaces<'a, R>
    requires { IsUsable (R.tables rows.now) }
    ensures { result ≡ held_places (R.tables rows.now) service.now }
{
    HeldPlaces {
        rest: slots(rows, service),
    }
}

/// How many places of the service have a live task, how many are held, and the least number from this one on that
/// isn't held.
#[tactic(auto, using(swarm_objects::proofs::Few::few_tasks))]
pub fn tally<R: Rows>(rows: &R, service: &Service, from: u32) -> Tally
    requires { IsUsable (R.tables rows.now) }
    ensures { Tells result from (R.tables rows.now) service.now }
{
    let mut tally = Tally::new(u64::from(from));
    for slot in slots(rows, service) {
        tally.count(slot);
    }
    tally
}

/// How many places of the service are held.
pub fn held_count<R: Rows>(rows: &R, service: &Service) -> u64
    requires { IsUsable (R.tables rows.now) }
    ensures { result ≡ length (held_places (R.tables rows.now) service.now) }
{
    tally(rows, service, 0).held
}

/// The least number from this one on that is none of a held place.
pub fn first_gap<R: Rows>(rows: &R, service: &Service, from: u32) -> u64
    requires { IsUsable (R.tables rows.now) }
    ensures { result ≡ first_gap from (held_places (R.tables rows.now) service.now) }
{
    tally(rows, service, from).gap
}

/// How many places of the service have a live task.
pub fn live_count<R: Rows>(rows: &R, service: &Service) -> u64
    requires { IsUsable (R.tables rows.now) }
    ensures { result ≡ length (live_places (R.tables rows.now) service.now) }
{
    tally(rows, service, 0).live
}
