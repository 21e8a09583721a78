// The surveys of services that are kept, slot by slot, and which changes and times leave them.
ghost use Rattle.std.specs.Prelude.{◌%◌, ◌<◌, ◌≡◌, ◌≤◌, ◌==◌, IfSome, None, Some, get_or, ℕ};
ghost use Rattle.std.specs.Option.{option_copied, option_map};
ghost use Rattle.swarm_objects.specs.ChangeLists.{apply_changes};
ghost use Rattle.swarm_objects.specs.Rows.{is_row_and, row_at, service_id, task_id};
ghost use Rattle.swarm_objects.specs.Usable.{IsUsable};
ghost use Rattle.swarm_objects.specs.World.{Tables};
ghost use Rattle.swarm_update.specs.KnownSurvey.{AreKept, AreTold, concerns, kept_of};
ghost use Rattle.swarm_update.specs.Surveys.{Tells};

use crate::known_survey::Kept;
use crate::survey::Survey;
use std::alloc::Global;
use swarm_objects::{Change, Id, Rows, Service, UpdateRun};

/// How many surveys are kept.
pub const SURVEYS: usize = 128;

const NOTHING: Option<Box<Kept>> = None;

/// Surveys of services. Each service has one slot, by the rest of its id; of services with the same slot the one that
/// was looked at last is remembered.
#[derive(Drop)]
pub struct KeptSurveys {
    // each is made at the first look at such a service, in a box since it is large
    slots: [Option<Box<Kept>>; SURVEYS],
}

// The service's slot.
fn slot_of(service: Id) -> usize
    ensures { result ≡ service % SURVEYS }
{
    service as usize % SURVEYS
}

impl KeptSurveys {
    /// No survey is kept.
    pub fn none() -> KeptSurveys
        ensures { (t : Tables) → AreKept t result }
    {
        KeptSurveys {
            slots: [NOTHING; SURVEYS],
        }
    }

    /// The survey in the service's slot.
    pub fn survey_of(&self, service: Id) -> Option<&Survey>
        ensures { option_copied result ≡ option_map (λ kept. kept.value.survey) (kept_of self.now service) }
    {
        match &self.slots[slot_of(service)] {
            Some(kept) => Some(&kept.survey),
            None => None,
        }
    }

    /// All are of nothing any more.
    pub fn forget_all(&mut self)
        ensures { (t : Tables) → AreKept t self.new }
    {
        for slot in 0..SURVEYS {
            if let Some(kept) = &mut self.slots[slot] {
                kept.subject = None;
            }
        }
    }

    // The survey in the service's slot forgets what the change may change.
    fn forget_in<R: Rows>(&mut self, service: Id, rows: &R, change: &Change)
        ensures { AreTold (R.tables rows.now) change.now (λ slot. service % SURVEYS == slot) self.old self.new }
    {
        if let Some(kept) = &mut self.slots[slot_of(service)] {
            kept.forget_change(rows, change);
        }
    }

    // That in the slot of the service of the task with this id.
    #[tactic(auto, using(crate::proofs::Forgetting::told_steps))]
    fn forget_row<R: Rows>(&mut self, task: Id, rows: &R, change: &Change)
        ensures { let t = R.tables rows.now in
            AreTold t change.now (λ slot. is_row_and task_id (λ x. x.service % SURVEYS == slot) t.tasks task)
            self.old self.new }
    {
        if let Some(task) = rows.task(task) {
            self.forget_in(task.service, rows, change);
        }
    }

    // Those in the slots of the services that the change concerns.
    #[tactic(auto, using(crate::proofs::Forgetting::told_steps))]
    fn forget_change<R: Rows>(&mut self, rows: &R, change: &Change)
        ensures { let t = R.tables rows.now in
            AreTold t change.now (concerns t change.now) self.old self.new }
    {
        match change {
            Change::PutNode(_) | Change::Keep(_) => (),
            Change::PutService(put) => self.forget_in(put.id, rows, change),
            Change::PutTask(task) => {
                self.forget_in(task.service, rows, change);
                self.forget_row(task.id, rows, change);
            }
            Change::DropTask(task) => self.forget_row(*task, rows, change),
        }
    }

    /// Forgets what these changes may change, before they are made. What is left is so before and after.
    pub fn forget_changed<R: Rows>(&mut self, rows: &R, changes: &[Change])
        requires usable { IsUsable (R.tables rows.now) }
        requires knows { AreKept (R.tables rows.now) self.old }
        ensures stays { AreKept (R.tables rows.now) self.new }
        ensures goes_on { AreKept (apply_changes (R.tables rows.now) changes.now) self.new }
    {
        for change in changes {
            self.forget_change(rows, change);
        }
    }

    /// Forgets what time that passes may change: whether a task is in flight.
    #[tactic(auto, using(crate::proofs::Passing::slot_steps))]
    pub fn pass_time(&mut self)
        ensures { (t : Tables) (clock : ℕ) → t.clock ≤ clock → AreKept t self.old →
            AreKept (record t { clock = clock }) self.new }
    {
        for slot in 0..SURVEYS {
            if let Some(kept) = &mut self.slots[slot] {
                kept.pass_time();
            }
        }
    }

    // Has room for the service's survey, where there is memory. Apart, so that a survey takes room on the stack only
    // here: it is large.
    #[inline(never)]
    fn make_room(&mut self, alloc: Option<Global>, service: Id)
        ensures { (t : Tables) → AreKept t self.old → AreKept t self.new }
    {
        let slot = slot_of(service);
        if self.slots[slot].is_some() {
            return;
        }
        let Some(alloc) = alloc else {
            return;
        };
        if let Ok(kept) = Box::new(alloc, Kept::blank()) {
            self.slots[slot] = Some(kept);
        }
    }

    /// Has the survey of this run of the service, where there is memory.
    pub fn look<R: Rows>(
        &mut self,
        alloc: Option<Global>,
        rows: &R,
        service: &Service,
        run: &UpdateRun,
    )
        requires usable { IsUsable (R.tables rows.now) }
        requires knows { AreKept (R.tables rows.now) self.old }
        requires row { row_at service_id service.now.id (R.tables rows.now).services ≡ Some service.now }
        ensures tells { IfSome (kept_of self.new service.now.id)
            (λ kept. Tells kept.value.survey (R.tables rows.now) service.now run.now) }
        ensures knows { AreKept (R.tables rows.now) self.new }
    {
        self.make_room(alloc, service.id);
        if let Some(kept) = &mut self.slots[slot_of(service.id)] {
            kept.look(rows, service, run);
        }
    }
}
