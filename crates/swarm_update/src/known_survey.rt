// The surveys of services whose updates were looked at last, kept from one look to the next, so that only places whose
// tasks changed are noted anew, however many these are; and some services without a task that may make a place dirty,
// so that their tasks aren't gone over at each look.
ghost use Rattle.std.specs.Prelude.{◌%◌, ◌<◌, ◌≡◌, ◌≤◌, IfSome, IsTrue, None, Some, false, filter, min, true, ℕ};
ghost use Rattle.std.specs.List.{list_any};
ghost use Rattle.std.specs.Option.{option_copied, option_map};
ghost use Rattle.role_words.specs.Suspects.{is_suspect};
ghost use Rattle.swarm_objects.specs.ChangeLists.{apply_changes};
ghost use Rattle.swarm_objects.specs.Loops.Update.{is_to_start, open_duties, run_duties, update_duties};
ghost use Rattle.swarm_objects.specs.Rows.{first_of, is_row_and, row_at, service_id, task_id};
ghost use Rattle.swarm_objects.specs.Services.Runs.{failures};
ghost use Rattle.swarm_objects.specs.Tasks.Places.{has_dirty_place};
ghost use Rattle.swarm_objects.specs.Tasks.Words.{is_of};
ghost use Rattle.swarm_objects.specs.Usable.{IsUsable};
ghost use Rattle.swarm_objects.specs.World.{Tables};
ghost use Rattle.swarm_update.specs.KnownSurvey.{AreStale, HasAlike, IsLeft, IsLess, IsSo, Knows, KnowsKept, Leaves, StandsIn};
ghost use Rattle.swarm_update.specs.KnownSurvey.{leaves_out, may_fail, slot_in, touches};
ghost use Rattle.swarm_update.specs.declared.kept_surveys.TheConstants.{SURVEYS};
ghost use Rattle.swarm_update.specs.StalePlaces.{is_stale};
ghost use Rattle.swarm_update.specs.Surveys.{Tells};

use crate::clean::CleanServices;
use crate::first_open;
use crate::kept_surveys::KeptSurveys;
use crate::marks::{Places, WIDTH};
use crate::runs::{counts_as_failure, has_present_run};
use crate::stale_places::StalePlaces;
use crate::survey::{Survey, go_over};
use role_words::{has_suspect, is_under_way};
use std::alloc::Global;
use swarm_objects::{Change, Duty, Id, Rows, Same, Service, Task, UpdateRun, Version};

// The service and run that a survey is of, and what of it isn't so any more.
#[derive(Clone, Copy, Drop)]
pub struct Subject {
    service: Id,
    // that of the run
    version: Version,
    // its failures are so
    is_counted: bool,
    // the places below the width whose tasks changed
    stale: StalePlaces,
}

// A survey that is kept, where it is of something.
#[derive(Drop)]
pub struct Kept {
    pub survey: Survey,
    pub subject: Option<Subject>,
}

/// What is remembered of the services whose updates were looked at last.
#[derive(Drop)]
pub struct KnownSurvey {
    // None where no survey is ever kept
    alloc: Option<Global>,
    // made at the first look at a run, so that where no update is looked at there are no slots to go over
    kept: Option<Box<KeptSurveys>>,
    // services without a task that may make a place dirty
    clean: CleanServices,
}

// The task is one of the run's, and has ended so that it may be one of its failures.
fn may_fail(version: Version, task: &Task) -> bool
    ensures { result ≡ may_fail version task.now }
{
    task.born == version && counts_as_failure(task.state)
}

/// The row with the service's id is the same, in what a survey and the test of suspects read.
pub fn has_alike<R: Rows>(rows: &R, service: &Service) -> bool
    ensures { IsTrue result → HasAlike (R.tables rows.now) service.now }
{
    match rows.service(service.id) {
        Some(row) => service.iteration == row.iteration && service.spec.same(&row.spec),
        None => false,
    }
}

impl Subject {
    // What a new survey is of.
    fn of(service: &Service, run: &UpdateRun) -> Subject
        ensures service { result.service ≡ service.now.id }
        ensures version { result.version ≡ run.now.version }
    {
        Subject {
            service: service.id,
            version: run.version,
            is_counted: true,
            stale: StalePlaces::none(),
        }
    }

    // The marks don't tell of the place with this number.
    fn leaves_out(&self, far: bool, number: u64) -> bool
        ensures { result ≡ leaves_out self.now far number }
    {
        if number < WIDTH as u64 {
            self.stale.has(number)
        } else {
            far
        }
    }

    // Whether the task is there matters.
    fn touches(&self, far: bool, task: &Task) -> bool
        ensures { result ≡ touches self.now far task.now }
    {
        task.is_of(self.service)
            && (!self.leaves_out(far, task.place.place_number())
                || (self.is_counted && may_fail(self.version, task)))
    }

    // Of the task with this id.
    fn touches_row<R: Rows>(&self, far: bool, rows: &R, task: Id) -> bool
        ensures { result ≡ is_row_and task_id (touches self.now far) (R.tables rows.now).tasks task }
    {
        match rows.task(task) {
            Some(task) => self.touches(far, task),
            None => false,
        }
    }

    // The change leaves what is remembered.
    fn leaves<R: Rows>(&self, far: bool, rows: &R, change: &Change) -> bool
        ensures { IsTrue result → Leaves (R.tables rows.now) self.now far change.now }
    {
        match change {
            Change::PutNode(_) | Change::Keep(_) => true,
            Change::PutService(put) => put.id != self.service || has_alike(rows, put),
            Change::PutTask(task) => {
                !self.touches(far, task) && !self.touches_row(far, rows, task.id)
            }
            Change::DropTask(task) => !self.touches_row(far, rows, *task),
        }
    }

    // The place with this number is stale, too.
    fn make_stale(&mut self, number: u64)
        requires { number < WIDTH }
        ensures less { IsLess self.old self.new }
        ensures stale { is_stale self.new.stale number ≡ true }
    {
        self.stale.add(number);
    }

    // The place of the task is stale, and so are the failures where it may be one.
    #[tactic(auto, using(crate::proofs::Leaving::less_steps))]
    fn forget_task(&mut self, task: &Task)
        ensures { IsLess self.old self.new }
    {
        if !task.is_of(self.service) {
            return;
        }
        if may_fail(self.version, task) {
            self.is_counted = false;
        }
        let number = task.place.place_number();
        if number < WIDTH as u64 {
            self.make_stale(number);
        }
    }

    // That of the task with this id.
    #[tactic(auto, using(crate::proofs::Leaving::less_steps))]
    fn forget_row<R: Rows>(&mut self, rows: &R, task: Id)
        ensures { IsLess self.old self.new }
    {
        if let Some(task) = rows.task(task) {
            self.forget_task(task);
        }
    }

    // Those of the tasks that the change puts or drops, as they are and as they were.
    #[tactic(auto, using(crate::proofs::Leaving::less_steps))]
    fn forget_change<R: Rows>(&mut self, rows: &R, change: &Change)
        ensures { IsLess self.old self.new }
    {
        match change {
            Change::PutTask(task) => {
                self.forget_task(task);
                self.forget_row(rows, task.id);
            }
            Change::DropTask(task) => self.forget_row(rows, *task),
            _ => (),
        }
    }

    // What is left of it both before and after this change.
    fn without<R: Rows>(mut self, far: bool, rows: &R, change: &Change) -> Option<Subject>
        ensures less { IfSome result (IsLess self) }
        ensures leaves { IfSome result (λ k. Leaves (R.tables rows.now) k far change.now) }
    {
        self.forget_change(rows, change);
        if self.leaves(far, rows, change) {
            Some(self)
        } else {
            None
        }
    }

    // What is left of it whatever time passes: the places with a task in flight are stale, too.
    #[tactic(auto, using(crate::proofs::Leaving::less_steps, crate::proofs::Passing::stale_steps))]
    fn without_flying(mut self, places: &Places) -> Subject
        ensures less { IsLess self result }
        ensures stale { AreStale (min places.now.reach WIDTH) places.now result }
    {
        for index in 0..places.end() {
            if places.mark_at(index).has_flying {
                self.make_stale(index as u64);
            }
        }
        self
    }
}

impl Kept {
    // Of nothing.
    pub fn blank() -> Kept
        ensures { result.subject ≡ None }
    {
        Kept {
            survey: Survey::blank(),
            subject: None,
        }
    }

    // Forgets what this change, one of those that are made together, may change. What is left, it leaves.
    #[tactic(auto, using(crate::proofs::Forgetting::left_steps))]
    pub fn forget_change<R: Rows>(&mut self, rows: &R, change: &Change)
        ensures { IfSome self.new.subject (IsLeft (R.tables rows.now) change.now true self.old self.new.survey) }
    {
        let Some(subject) = &self.subject else {
            return;
        };
        let far = self.survey.places.has_far();
        if subject.leaves(far, rows, change) {
            return;
        }
        self.subject = subject.without(far, rows, change);
    }

    // Forgets what hangs on the time.
    #[tactic(auto, using(crate::proofs::Passing::later_steps))]
    pub fn pass_time(&mut self)
        ensures later { (t : Tables) (clock : ℕ) → t.clock ≤ clock → KnowsKept t self.old →
            KnowsKept (record t { clock = clock }) self.new }
        ensures stands { (slot : ℕ) → StandsIn slot self.old → StandsIn slot self.new }
    {
        let Some(subject) = self.subject else {
            return;
        };
        self.subject = Some(subject.without_flying(&self.survey.places));
    }

    // What the survey is of, where that is this run of the service.
    fn recall<R: Rows>(&self, rows: &R, service: &Service, run: &UpdateRun) -> Option<Subject>
        requires knows { KnowsKept (R.tables rows.now) self.now }
        requires row { row_at service_id service.now.id (R.tables rows.now).services ≡ Some service.now }
        ensures so { IfSome result (λ k. IsSo self.now.survey k (R.tables rows.now) service.now) }
        ensures version { IfSome result (λ k. run.now.version ≡ k.version) }
    {
        match self.subject {
            Some(subject) if subject.service == service.id && subject.version == run.version => {
                Some(subject)
            }
            _ => None,
        }
    }

    // Has the survey of this run of the service.
    pub fn look<R: Rows>(&mut self, rows: &R, service: &Service, run: &UpdateRun)
        requires usable { IsUsable (R.tables rows.now) }
        requires knows { KnowsKept (R.tables rows.now) self.old }
        requires row { row_at service_id service.now.id (R.tables rows.now).services ≡ Some service.now }
        ensures tells { Tells self.new.survey (R.tables rows.now) service.now run.now }
        ensures knows { KnowsKept (R.tables rows.now) self.new }
        ensures stands { StandsIn (service.now.id % SURVEYS) self.new }
    {
        match self.recall(rows, service, run) {
            Some(subject) => {
                let survey = &mut self.survey;
                survey.renew(rows, service, run, &subject.stale, subject.is_counted);
            }
            None => self.survey.make_anew(rows, service, run),
        }
        self.subject = Some(Subject::of(service, run));
    }
}

impl KnownSurvey {
    /// Nothing is remembered, and nothing will be that takes memory.
    pub fn none() -> KnownSurvey
        ensures { (t : Tables) → Knows t result }
    {
        KnownSurvey {
            alloc: None,
            kept: None,
            clean: CleanServices::none(),
        }
    }

    /// Nothing is remembered. The first look at a run takes the memory, where there is some.
    pub fn new(alloc: Global) -> KnownSurvey
        ensures { (t : Tables) → Knows t result }
    {
        KnownSurvey {
            alloc: Some(alloc),
            kept: None,
            clean: CleanServices::none(),
        }
    }

    /// Nothing is remembered any more.
    pub fn forget_all(&mut self)
        ensures { (t : Tables) → Knows t self.new }
    {
        self.clean = CleanServices::none();
        if let Some(kept) = &mut self.kept {
            kept.forget_all();
        }
    }

    /// Forgets what these changes may change, before they are made. What is left is so before and after.
    pub fn forget_changed<R: Rows>(&mut self, rows: &R, changes: &[Change])
        requires usable { IsUsable (R.tables rows.now) }
        requires knows { Knows (R.tables rows.now) self.old }
        ensures stays { Knows (R.tables rows.now) self.new }
        ensures goes_on { Knows (apply_changes (R.tables rows.now) changes.now) self.new }
    {
        self.clean.forget_changed(rows, changes);
        if let Some(kept) = &mut self.kept {
            kept.forget_changed(rows, changes);
        }
    }

    /// Forgets what time that passes may change: whether a task is in flight.
    #[tactic(auto, using(crate::proofs::Passing::clean_later))]
    pub fn pass_time(&mut self)
        ensures { (t : Tables) (clock : ℕ) → t.clock ≤ clock → Knows t self.old →
            Knows (record t { clock = clock }) self.new }
    {
        if let Some(kept) = &mut self.kept {
            kept.pass_time();
        }
    }

    // Has slots for surveys, where there is memory. Apart, so that they take room on the stack only here.
    #[inline(never)]
    fn make_slots(&mut self)
        ensures { (t : Tables) → Knows t self.old → Knows t self.new }
    {
        let Some(alloc) = self.alloc else {
            return;
        };
        if let Ok(kept) = Box::new(alloc, KeptSurveys::none()) {
            self.kept = Some(kept);
        }
    }

    // Has the survey of this run of the service, where there is memory.
    fn look<R: Rows>(&mut self, rows: &R, service: &Service, run: &UpdateRun)
        requires usable { IsUsable (R.tables rows.now) }
        requires knows { Knows (R.tables rows.now) self.old }
        requires row { row_at service_id service.now.id (R.tables rows.now).services ≡ Some service.now }
        ensures tells { IfSome (slot_in self.new.kept service.now.id)
            (λ kept. Tells kept.value.survey (R.tables rows.now) service.now run.now) }
        ensures knows { Knows (R.tables rows.now) self.new }
    {
        if self.kept.is_none() {
            self.make_slots();
        }
        if let Some(kept) = &mut self.kept {
            kept.look(self.alloc, rows, service, run);
        }
    }

    // The survey in the service's slot.
    fn survey_of(&self, service: Id) -> Option<&Survey>
        ensures { option_copied result ≡ option_map (λ kept. kept.value.survey) (slot_in self.now.kept service) }
    {
        match &self.kept {
            Some(kept) => kept.survey_of(service),
            None => None,
        }
    }

    // It is remembered that no task of the service may make a place dirty.
    #[tactic(auto, using(crate::proofs::Clearing::known_clean))]
    fn is_clean<R: Rows>(&self, rows: &R, service: &Service) -> bool
        requires knows { Knows (R.tables rows.now) self.now }
        requires row { row_at service_id service.now.id (R.tables rows.now).services ≡ Some service.now }
        ensures { let t = R.tables rows.now in
            IsTrue result → list_any (is_suspect service.now) (filter (is_of service.now.id) t.tasks) ≡ false }
    {
        self.clean.has(service.id)
    }

    // A place of the service is dirty. Where none of its tasks may make one so, that is remembered.
    #[tactic(auto, using(crate::proofs::Clearing::clean_steps))]
    fn has_dirty_place<R: Rows>(&mut self, rows: &R, service: &Service) -> bool
        requires usable { IsUsable (R.tables rows.now) }
        requires knows { Knows (R.tables rows.now) self.old }
        requires row { row_at service_id service.now.id (R.tables rows.now).services ≡ Some service.now }
        ensures is { result ≡ has_dirty_place (R.tables rows.now) service.now }
        ensures knows { Knows (R.tables rows.now) self.new }
    {
        if self.is_clean(rows, service) {
            return false;
        }
        if has_suspect(rows, service) {
            return role_words::has_dirty_place(rows, service);
        }
        self.clean.add(service.id);
        false
    }
}

// A dirty place is there, and no run to the present template.
fn is_to_start<R: Rows>(rows: &R, known: &mut KnownSurvey, service: &Service) -> bool
    requires usable { IsUsable (R.tables rows.now) }
    requires knows { Knows (R.tables rows.now) known.old }
    requires row { row_at service_id service.now.id (R.tables rows.now).services ≡ Some service.now }
    ensures is { result ≡ is_to_start (R.tables rows.now) service.now }
    ensures knows { Knows (R.tables rows.now) known.new }
{
    !has_present_run(service) && known.has_dirty_place(rows, service)
}

// What there is to do about a run under way, where there is no memory to keep its survey. Apart, so that a survey takes
// room only here: it is large.
#[inline(never)]
fn first_surveyed<R: Rows>(rows: &R, service: &Service, run: &UpdateRun) -> Option<Duty>
    requires { IsUsable (R.tables rows.now) }
    ensures { result ≡ first_of (open_duties (R.tables rows.now) service.now run.now) }
{
    first_open(&go_over(rows, service, run), rows, service, run)
}

// What there is to do about a run, by what is remembered of it.
fn first_of_run<R: Rows>(
    rows: &R,
    known: &mut KnownSurvey,
    service: &Service,
    run: &UpdateRun,
) -> Option<Duty>
    requires usable { IsUsable (R.tables rows.now) }
    requires knows { Knows (R.tables rows.now) known.old }
    requires row { row_at service_id service.now.id (R.tables rows.now).services ≡ Some service.now }
    ensures duty { result ≡ first_of (run_duties (R.tables rows.now) service.now (Some run.now)) }
    ensures knows { Knows (R.tables rows.now) known.new }
{
    if !is_under_way(run) {
        return None;
    }
    known.look(rows, service, run);
    match known.survey_of(service.id) {
        Some(survey) => first_open(survey, rows, service, run),
        None => first_surveyed(rows, service, run),
    }
}

// The same, where the service has a run.
fn run_duty<R: Rows>(rows: &R, known: &mut KnownSurvey, service: &Service) -> Option<Duty>
    requires usable { IsUsable (R.tables rows.now) }
    requires knows { Knows (R.tables rows.now) known.old }
    requires row { row_at service_id service.now.id (R.tables rows.now).services ≡ Some service.now }
    ensures duty { result ≡ first_of (run_duties (R.tables rows.now) service.now service.now.run) }
    ensures knows { Knows (R.tables rows.now) known.new }
{
    match &service.run {
        Some(run) => first_of_run(rows, known, service, run),
        None => None,
    }
}

/// What there is to do about the service, by what is remembered of it. Its run is remembered then.
#[tactic(auto, using(crate::proofs::Steps::first_steps))]
pub fn update_duty_by<R: Rows>(rows: &R, known: &mut KnownSurvey, service: &Service) -> Option<Duty>
    requires usable { IsUsable (R.tables rows.now) }
    requires knows { Knows (R.tables rows.now) known.old }
    requires row { row_at service_id service.now.id (R.tables rows.now).services ≡ Some service.now }
    ensures duty { result ≡ first_of (update_duties (R.tables rows.now) service.now service.now.spec.mode) }
    ensures knows { Knows (R.tables rows.now) known.new }
{
    if service.spec.mode.is_job() {
        return None;
    }
    if is_to_start(rows, known, service) {
        return Some(Duty::Start(service.id));
    }
    run_duty(rows, known, service)
}
