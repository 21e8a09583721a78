// Services without a task that may make a place dirty, and which changes give them none.
ghost use Rattle.std.specs.Prelude.{◌%◌, ◌≡◌, IsTrue, None, get_or, ℕ};
ghost use Rattle.swarm_objects.specs.ChangeLists.{apply_changes};
ghost use Rattle.swarm_objects.specs.Tasks.Words.{is_of};
ghost use Rattle.swarm_objects.specs.World.{Tables};
ghost use Rattle.swarm_update.specs.KnownSurvey.{AreClean, HasNoSuspect, SlotsAreLeft, StaysClean};
ghost use Rattle.swarm_update.specs.KnownSurvey.{has_service, is_suspect_of, service_of};

use crate::known_survey::has_alike;
use role_words::is_suspect;
use swarm_objects::{Change, Id, Rows, Task};

// How many services are remembered.
const SLOTS: usize = 8;

/// Services without a task that may make a place dirty. Each has one slot, by the rest of its id; of services with the
/// same slot the last one is remembered.
#[derive(Drop)]
pub struct CleanServices {
    services: [Option<Id>; SLOTS],
}

// The service's slot.
fn slot_of(service: Id) -> usize
    ensures { result ≡ service % SLOTS }
{
    service as usize % SLOTS
}

// The task is of the service with this id, and may make its place dirty.
fn is_suspect_of<R: Rows>(rows: &R, service: Id, task: &Task) -> bool
    ensures { result ≡ is_suspect_of (R.tables rows.now) service task.now }
{
    if !task.is_of(service) {
        return false;
    }
    match rows.service(service) {
        Some(row) => is_suspect(row, task),
        None => false,
    }
}

// The change gives the service no such task.
fn stays_clean<R: Rows>(rows: &R, service: Id, change: &Change) -> bool
    ensures { IsTrue result → StaysClean (R.tables rows.now) service change.now }
{
    match change {
        Change::PutNode(_) | Change::DropTask(_) | Change::Keep(_) => true,
        Change::PutService(put) => put.id != service || has_alike(rows, put),
        Change::PutTask(task) => !is_suspect_of(rows, service, task),
    }
}

// The one service to which the change may give such a task.
fn service_of(change: &Change) -> Option<Id>
    ensures { result ≡ service_of change.now }
{
    match change {
        Change::PutService(put) => Some(put.id),
        Change::PutTask(task) => Some(task.service),
        Change::PutNode(_) | Change::DropTask(_) | Change::Keep(_) => None,
    }
}

impl CleanServices {
    /// No service is remembered.
    pub fn none() -> CleanServices
        ensures { (t : Tables) → AreClean t result }
    {
        CleanServices {
            services: [None; SLOTS],
        }
    }

    /// The service is remembered.
    pub fn has(&self, service: Id) -> bool
        ensures { result ≡ has_service self.now service }
    {
        match self.services[slot_of(service)] {
            Some(clean) => clean == service,
            None => false,
        }
    }

    /// The service is remembered, in place of another one with its slot.
    pub fn add(&mut self, service: Id)
        ensures { (t : Tables) → HasNoSuspect t service → AreClean t self.old → AreClean t self.new }
    {
        self.services[slot_of(service)] = Some(service);
    }

    // No slot is filled.
    fn is_empty(&self) -> bool
        ensures { IsTrue result → (slot : ℕ) → get_or self.now.services slot None ≡ None }
    {
        self.services.iter().all(|slot| slot.is_none())
    }

    // Forgets the service to which the change may give such a task. Only where that is remembered, its row is asked.
    fn forget_change<R: Rows>(&mut self, rows: &R, change: &Change)
        ensures { SlotsAreLeft (R.tables rows.now) change.now self.old self.new }
    {
        let Some(service) = service_of(change) else {
            return;
        };
        if !self.has(service) {
            return;
        }
        if !stays_clean(rows, service, change) {
            self.services[slot_of(service)] = None;
        }
    }

    /// Forgets the services to which these changes may give such a task, before they are made. Those that are left
    /// have none before and after.
    pub fn forget_changed<R: Rows>(&mut self, rows: &R, changes: &[Change])
        requires knows { AreClean (R.tables rows.now) self.old }
        ensures stays { AreClean (R.tables rows.now) self.new }
        ensures goes_on { AreClean (apply_changes (R.tables rows.now) changes.now) self.new }
    {
        if self.is_empty() {
            return;
        }
        for change in changes {
            self.forget_change(rows, change);
        }
    }
}
