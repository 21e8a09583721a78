// What is remembered of the places of some services, so that they aren't counted again for each of their tasks.
ghost use Rattle.std.specs.Prelude.{◌%◌, ◌≡◌, IfSome, List, Some, false, length, nat_lt, true, ℕ};
ghost use Rattle.std.specs.List.{list_all};
ghost use Rattle.swarm_objects.specs.ChangeLists.{apply_changes};
ghost use Rattle.swarm_objects.specs.Loops.Replicated.{create_duty, down_duty};
ghost use Rattle.swarm_objects.specs.Rows.{Has, IsRising, first_gap, first_of, itself, row_at, service_id, with_number};
ghost use Rattle.swarm_objects.specs.Tasks.Places.{held_places, is_held_place};
ghost use Rattle.swarm_objects.specs.Usable.{IsUsable};
ghost use Rattle.swarm_objects.specs.World.{Tables};
ghost use Rattle.swarm_replicated.specs.KnownPlaces.{AreCounted, IsAfter, IsCounted, Knows, entry};
ghost use Rattle.swarm_replicated.specs.Inside.PlaceChanges.{spares};
ghost use Rattle.swarm_replicated.specs.Inside.Touches.{touches_only};

use crate::place_changes::{places_together, will_hold};
use crate::reach::Reach;
use crate::slots::{gives_up, held_bound};
use crate::touches::touched_together;
use role_words::{first_gap, is_held_place, tally};
use swarm_objects::{Change, Duty, Id, Mode, Rows, Service};

// How many places of the service are held, and the least number from 1 on that isn't.
#[derive(Clone, Copy, Drop)]
struct Counted {
    service: Id,
    held: u64,
    gap: u64,
}

// How many services are remembered: as many may be updated at once without being counted again and again.
const SLOTS: usize = 128;

// How many numbers behind the gap are asked for one by one, before passes over the service's tasks tell the next gap.
const ASKED: u64 = 8;

/// What is remembered of services. Each has one slot, by the rest of its id; of services with the same slot the last
/// one is remembered.
#[derive(Drop)]
pub struct KnownPlaces {
    counted: [Option<Counted>; SLOTS],
}

/// What will be known of one service's places once changes are made.
#[derive(Clone, Copy, Drop)]
pub struct PlacesAfter {
    counted: Option<Counted>,
}

// The service's slot.
fn slot_of(service: Id) -> usize
    ensures { result ≡ service % SLOTS }
{
    service as usize % SLOTS
}

// The least number from this one on that isn't held, by a pass over the service's tasks for each 1,024 numbers. None
// where it would begin above those that a place can have.
fn gap_from<R: Rows>(rows: &R, service: &Service, from: u64) -> Option<u64>
    requires { IsUsable (R.tables rows.now) }
    ensures { IfSome result (λ gap. gap ≡ first_gap from (held_places (R.tables rows.now) service.now)) }
{
    if from > u64::from(u32::MAX) {
        return None;
    }
    Some(first_gap(rows, service, from as u32))
}

// The least number from 1 on that isn't held once this one is, which was the least.
fn next_gap<R: Rows>(rows: &R, service: &Service, gap: u64) -> Option<u64>
    requires usable { IsUsable (R.tables rows.now) }
    requires gap { gap ≡ first_gap 1 (held_places (R.tables rows.now) service.now) }
    ensures { IfSome result (λ next.
        next ≡ first_gap 1 (with_number gap (held_places (R.tables rows.now) service.now))) }
{
    let first = gap.checked_add(1)?;
    let end = first.checked_add(ASKED)?;
    for next in first..end {
        if !is_held_place(rows, service, next) {
            return Some(next);
        }
    }
    gap_from(rows, service, end)
}

impl Counted {
    // The least number from 1 on that isn't held once this one is, too.
    fn gap_with<R: Rows>(self, rows: &R, service: &Service, number: u64) -> Option<u64>
        requires usable { IsUsable (R.tables rows.now) }
        requires counted { AreCounted self (held_places (R.tables rows.now) service.now) }
        ensures { IfSome result (λ gap.
            gap ≡ first_gap 1 (with_number number (held_places (R.tables rows.now) service.now))) }
    {
        if number == self.gap {
            next_gap(rows, service, number)
        } else {
            Some(self.gap)
        }
    }

    // With one place more, that isn't held yet.
    fn with_place<R: Rows>(self, rows: &R, service: &Service, number: u64) -> Option<Counted>
        requires usable { IsUsable (R.tables rows.now) }
        requires counted { AreCounted self (held_places (R.tables rows.now) service.now) }
        requires free { is_held_place (R.tables rows.now) service.now number ≡ false }
        ensures service { IfSome result (λ k. k.service ≡ self.service) }
        ensures counted { IfSome result (λ k.
            AreCounted k (with_number number (held_places (R.tables rows.now) service.now))) }
    {
        let gap = self.gap_with(rows, service, number)?;
        let held = self.held.checked_add(1)?;
        Some(Counted {
            service: self.service,
            held,
            gap,
        })
    }

    // The least number from 1 on that isn't held once this one isn't any more.
    fn gap_without(self, number: u64) -> u64
        ensures { (left : List ℕ) → IsRising itself left → (Has left number → ⊥)
            → self.gap ≡ first_gap 1 (with_number number left) → result ≡ first_gap 1 left }
    {
        if number == 0 {
            return self.gap;
        }
        if self.gap <= number {
            return self.gap;
        }
        number
    }

    // With one place less, that was held.
    fn without_place(self, number: u64) -> Option<Counted>
        ensures service { IfSome result (λ k. k.service ≡ self.service) }
        ensures counted { (left : List ℕ) → IsRising itself left → (Has left number → ⊥)
            → AreCounted self (with_number number left) → IfSome result (λ k. AreCounted k left) }
    {
        let held = self.held.checked_sub(1)?;
        let gap = self.gap_without(number);
        Some(Counted {
            service: self.service,
            held,
            gap,
        })
    }

    // After these changes, which spare each place but that with this number.
    fn after_place<R: Rows>(
        self,
        rows: &R,
        service: &Service,
        number: u64,
        changes: &[Change],
    ) -> Option<Counted>
        requires usable { IsUsable (R.tables rows.now) }
        requires counted { IsCounted (R.tables rows.now) self }
        requires row { row_at service_id self.service (R.tables rows.now).services ≡ Some service.now }
        requires spared { list_all (spares (R.tables rows.now) service.now (Some number)) changes.now ≡ true }
        ensures counted { IfSome result (IsCounted (apply_changes (R.tables rows.now) changes.now)) }
        ensures service { IfSome result (λ k. k.service ≡ self.service) }
    {
        let later = will_hold(rows, service, number, changes)?;
        if is_held_place(rows, service, number) {
            if later {
                return Some(self);
            }
            return self.without_place(number);
        }
        if later {
            return self.with_place(rows, service, number);
        }
        Some(self)
    }

    // After these changes, where they matter in one place of the service at most, and what becomes of it is sure.
    fn after<R: Rows>(self, rows: &R, changes: &[Change]) -> Option<Counted>
        requires usable { IsUsable (R.tables rows.now) }
        requires counted { IsCounted (R.tables rows.now) self }
        ensures counted { IfSome result (IsCounted (apply_changes (R.tables rows.now) changes.now)) }
        ensures service { IfSome result (λ k. k.service ≡ self.service) }
    {
        let Some(service) = rows.service(self.service) else {
            return None;
        };
        match places_together(rows, service, changes) {
            Reach::Nothing => Some(self),
            Reach::One(number) => self.after_place(rows, service, number, changes),
            Reach::More => None,
        }
    }
}

impl PlacesAfter {
    // Of no service.
    const NONE: PlacesAfter = PlacesAfter { counted: None };
}

impl KnownPlaces {
    /// Nothing is remembered.
    pub fn none() -> KnownPlaces
        ensures { (t : Tables) → Knows t result }
    {
        KnownPlaces {
            counted: [None; SLOTS],
        }
    }

    /// Nothing is remembered any more.
    pub fn forget_all(&mut self)
        ensures { (t : Tables) → Knows t self.new }
    {
        *self = KnownPlaces::none();
    }

    // What is remembered of the service with this id.
    fn entry(&self, service: Id) -> Option<Counted>
        ensures { result ≡ entry self.now service }
    {
        let counted = self.counted[slot_of(service)];
        match counted {
            Some(counted) if counted.service == service => Some(counted),
            _ => None,
        }
    }

    // What is remembered of the service's places.
    fn recall<R: Rows>(&self, rows: &R, service: &Service) -> Option<Counted>
        requires knows { Knows (R.tables rows.now) self.now }
        requires row { row_at service_id service.now.id (R.tables rows.now).services ≡ Some service.now }
        ensures service { IfSome result (λ k. k.service ≡ service.now.id) }
        ensures counted { IfSome result (λ k. AreCounted k (held_places (R.tables rows.now) service.now)) }
    {
        self.entry(service.id)
    }

    // Remembers what was counted of the service.
    fn remember_count<R: Rows>(&mut self, rows: &R, service: &Service, counted: Counted)
        requires knows { Knows (R.tables rows.now) self.old }
        requires row { row_at service_id service.now.id (R.tables rows.now).services ≡ Some service.now }
        requires service { counted.service ≡ service.now.id }
        requires counted { AreCounted counted (held_places (R.tables rows.now) service.now) }
        ensures { Knows (R.tables rows.now) self.new }
    {
        self.counted[slot_of(service.id)] = Some(counted);
    }

    // How many places of the service are held, and the least number from 1 on that isn't: as remembered, or else
    // counted, and remembered then.
    fn count<R: Rows>(&mut self, rows: &R, service: &Service) -> Counted
        requires usable { IsUsable (R.tables rows.now) }
        requires knows { Knows (R.tables rows.now) self.old }
        requires row { row_at service_id service.now.id (R.tables rows.now).services ≡ Some service.now }
        ensures counted { AreCounted result (held_places (R.tables rows.now) service.now) }
        ensures knows { Knows (R.tables rows.now) self.new }
    {
        if let Some(counted) = self.recall(rows, service) {
            return counted;
        }
        let places = tally(rows, service, 1);
        let counted = Counted {
            service: service.id,
            held: places.held,
            gap: places.gap,
        };
        self.remember_count(rows, service, counted);
        counted
    }

    // More places of the service are held than there are to be replicas. They are counted only where the bound doesn't
    // tell and nothing is remembered.
    fn holds_over<R: Rows>(&mut self, rows: &R, service: &Service, replicas: u64) -> bool
        requires usable { IsUsable (R.tables rows.now) }
        requires knows { Knows (R.tables rows.now) self.old }
        requires row { row_at service_id service.now.id (R.tables rows.now).services ≡ Some service.now }
        ensures over { result ≡ nat_lt replicas (length (held_places (R.tables rows.now) service.now)) }
        ensures knows { Knows (R.tables rows.now) self.new }
    {
        replicas < held_bound(rows, service) && replicas < self.count(rows, service).held
    }

    // Forgets the one service that these changes touch, before they are made. Gives what is known of it once they are.
    fn forget_one<R: Rows>(&mut self, rows: &R, changes: &[Change], service: Id) -> PlacesAfter
        requires usable { IsUsable (R.tables rows.now) }
        requires knows { Knows (R.tables rows.now) self.old }
        requires touched { list_all (touches_only (R.tables rows.now) (Some service)) changes.now ≡ true }
        ensures stays { Knows (R.tables rows.now) self.new }
        ensures goes_on { Knows (apply_changes (R.tables rows.now) changes.now) self.new }
        ensures after { IsAfter (apply_changes (R.tables rows.now) changes.now) result }
    {
        let Some(counted) = self.entry(service) else {
            return PlacesAfter::NONE;
        };
        let after = PlacesAfter {
            counted: counted.after(rows, changes),
        };
        self.counted[slot_of(service)] = None;
        after
    }

    /// Forgets what these changes may change, before they are made. Gives what is known once they are: where they
    /// matter in one place of one service at most, and it is sure whether that is held then, it is counted in or out.
    pub fn forget_changed<R: Rows>(&mut self, rows: &R, changes: &[Change]) -> PlacesAfter
        requires usable { IsUsable (R.tables rows.now) }
        requires knows { Knows (R.tables rows.now) self.old }
        ensures stays { Knows (R.tables rows.now) self.new }
        ensures goes_on { Knows (apply_changes (R.tables rows.now) changes.now) self.new }
        ensures after { IsAfter (apply_changes (R.tables rows.now) changes.now) result }
    {
        match touched_together(rows, changes) {
            Reach::Nothing => PlacesAfter::NONE,
            Reach::One(service) => self.forget_one(rows, changes, service),
            Reach::More => {
                self.forget_all();
                PlacesAfter::NONE
            }
        }
    }

    /// Remembers what is so by now.
    pub fn remember(&mut self, after: PlacesAfter)
        ensures { (t : Tables) → Knows t self.old → IsAfter t after → Knows t self.new }
    {
        if let Some(counted) = after.counted {
            self.counted[slot_of(counted.service)] = Some(counted);
        }
    }
}

/// As `create_duty`, by what is remembered of the service's places, or else by a count, which is remembered.
pub fn create_duty_by<R: Rows>(rows: &R, known: &mut KnownPlaces, service: &Service) -> Option<Duty>
    requires usable { IsUsable (R.tables rows.now) }
    requires knows { Knows (R.tables rows.now) known.old }
    requires row { row_at service_id service.now.id (R.tables rows.now).services ≡ Some service.now }
    ensures duty { result ≡ first_of (create_duty (R.tables rows.now) service.now service.now.spec.mode) }
    ensures knows { Knows (R.tables rows.now) known.new }
{
    let Mode::Replicated(replicas) = service.spec.mode else {
        return None;
    };
    let places = known.count(rows, service);
    if replicas <= places.held {
        return None;
    }
    Some(Duty::ReplicatedCreate(service.id, places.gap))
}

/// As `down_duty`, by what is remembered of the service's places, or else by a count, which is remembered.
pub fn down_duty_by<R: Rows>(rows: &R, known: &mut KnownPlaces, service: &Service) -> Option<Duty>
    requires usable { IsUsable (R.tables rows.now) }
    requires knows { Knows (R.tables rows.now) known.old }
    requires row { row_at service_id service.now.id (R.tables rows.now).services ≡ Some service.now }
    ensures duty { result ≡ first_of (down_duty (R.tables rows.now) service.now service.now.spec.mode) }
    ensures knows { Knows (R.tables rows.now) known.new }
{
    let Mode::Replicated(replicas) = service.spec.mode else {
        return None;
    };
    if !known.holds_over(rows, service, replicas) {
        return None;
    }
    gives_up(rows, service)
}

/// The slot in which the service gets a new task, where fewer are held than there are to be replicas.
pub fn create_duty<R: Rows>(rows: &R, service: &Service) -> Option<Duty>
    requires usable { IsUsable (R.tables rows.now) }
    requires row { row_at service_id service.now.id (R.tables rows.now).services ≡ Some service.now }
    ensures { result ≡ first_of (create_duty (R.tables rows.now) service.now service.now.spec.mode) }
{
    create_duty_by(rows, &mut KnownPlaces::none(), service)
}

/// The slot that the service gives up, where more are held than there are to be replicas.
pub fn down_duty<R: Rows>(rows: &R, service: &Service) -> Option<Duty>
    requires usable { IsUsable (R.tables rows.now) }
    requires row { row_at service_id service.now.id (R.tables rows.now).services ≡ Some service.now }
    ensures { result ≡ first_of (down_duty (R.tables rows.now) service.now service.now.spec.mode) }
{
    down_duty_by(rows, &mut KnownPlaces::none(), service)
}
