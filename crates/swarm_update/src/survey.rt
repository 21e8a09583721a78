// One pass over a service's tasks, and all that a look at its update asks of it.
ghost use Rattle.std.specs.Prelude.{◌≡◌, ◌*◌, count_by, filter, nat_lt, true};
ghost use Rattle.std.specs.List.{list_any};
ghost use Rattle.swarm_objects.specs.Loops.Update.{is_to_replace, is_to_swap};
ghost use Rattle.swarm_objects.specs.Rows.{first_of};
ghost use Rattle.swarm_objects.specs.Services.Runs.{failures, has_room, in_flight, is_exceeded, is_failure, is_flying, is_in_flight};
ghost use Rattle.swarm_objects.specs.Tasks.Places.{has_dirty_place, place_numbers, tasks_of_place};
ghost use Rattle.swarm_objects.specs.Tasks.Words.{is_of};
ghost use Rattle.swarm_objects.specs.Usable.{IsUsable};
ghost use Rattle.swarm_update.specs.KnownSurvey.{ShowsOthers};
ghost use Rattle.swarm_update.specs.Marks.{ShowsPlaces};
ghost use Rattle.swarm_update.specs.StalePlaces.{is_stale};
ghost use Rattle.swarm_update.specs.Surveys.{Tells};

use crate::marks::{Places, Question, WIDTH};
use crate::runs::is_failure;
use crate::stale_places::StalePlaces;
use role_words::{is_flying, tasks_of_place};
use swarm_objects::walks::tasks_of;
use swarm_objects::{Place, Replaced, Rows, Service, UpdateRun};

/// What the tasks say of the service's places, and how many of them have failed the run.
#[derive(Drop)]
pub struct Survey {
    pub places: Places,
    failures: u64,
}

// How many tasks have failed the run.
#[tactic(auto, using(crate::proofs::Steps::failure_steps))]
fn count_failures<R: Rows>(rows: &R, service: &Service, run: &UpdateRun) -> u64
    requires { IsUsable (R.tables rows.now) }
    ensures { let t = R.tables rows.now in
        result ≡ count_by (is_failure service.now run.now) (filter (is_of service.now.id) t.tasks) }
{
    let mut failures = 0;
    for task in tasks_of(rows, service.id) {
        if is_failure(service, run, task) {
            failures += 1;
        }
    }
    failures
}

impl Survey {
    /// No task was gone over.
    pub fn blank() -> Survey {
        Survey {
            places: Places::blank(),
            failures: 0,
        }
    }

    /// Goes over the tasks of the stale places again, where it tells of all others, and counts the failures where they
    /// aren't so any more.
    pub fn renew<R: Rows>(
        &mut self,
        rows: &R,
        service: &Service,
        run: &UpdateRun,
        stale: &StalePlaces,
        is_counted: bool,
    )
        requires usable { IsUsable (R.tables rows.now) }
        requires others { ShowsOthers self.old.places (R.tables rows.now) service.now (is_stale stale.now) }
        requires counted { is_counted ≡ true → self.old.failures ≡ failures (R.tables rows.now) service.now run.now }
        ensures { Tells self.new (R.tables rows.now) service.now run.now }
    {
        self.places.renote_all(rows, service, stale);
        if !is_counted {
            self.failures = count_failures(rows, service, run);
        }
    }

    /// Goes over all tasks of the service, which has this run, whatever it told before.
    #[tactic(auto, using(crate::proofs::Steps::failure_steps))]
    pub fn make_anew<R: Rows>(&mut self, rows: &R, service: &Service, run: &UpdateRun)
        requires { IsUsable (R.tables rows.now) }
        ensures { Tells self.new (R.tables rows.now) service.now run.now }
    {
        self.places.clear();
        let mut failures = 0;
        for task in tasks_of(rows, service.id) {
            self.places.note(rows, service, task);
            if is_failure(service, run, task) {
                failures += 1;
            }
        }
        self.failures = failures;
    }
}

/// Goes over the tasks of the service, which has this run, where no survey is kept.
pub fn go_over<R: Rows>(rows: &R, service: &Service, run: &UpdateRun) -> Survey
    requires { IsUsable (R.tables rows.now) }
    ensures { Tells result (R.tables rows.now) service.now run.now }
{
    let mut survey = Survey::blank();
    survey.make_anew(rows, service, run);
    survey
}

/// The least place of which a clean live task runs and a dirty one is live. Only where places aren't noted, all are
/// gone over.
pub fn first_to_swap<R: Rows>(places: &Places, rows: &R, service: &Service) -> Option<u64>
    requires usable { IsUsable (R.tables rows.now) }
    requires shows { let t = R.tables rows.now in ShowsPlaces places.now t service.now t.tasks }
    ensures { let t = R.tables rows.now in
        result ≡ first_of (filter (is_to_swap t service.now) (place_numbers t service.now)) }
{
    match places.first(Question::Swap) {
        Some(number) => Some(number),
        None if places.has_far() => role_words::first_to_swap(rows, service),
        None => None,
    }
}

/// The least place that is dirty, without a clean live task.
pub fn first_to_replace<R: Rows>(places: &Places, rows: &R, service: &Service) -> Option<u64>
    requires usable { IsUsable (R.tables rows.now) }
    requires shows { let t = R.tables rows.now in ShowsPlaces places.now t service.now t.tasks }
    ensures { let t = R.tables rows.now in
        result ≡ first_of (filter (is_to_replace t service.now) (place_numbers t service.now)) }
{
    match places.first(Question::Replace) {
        Some(number) => Some(number),
        None if places.has_far() => role_words::first_to_replace(rows, service),
        None => None,
    }
}

/// A place is dirty.
pub fn has_dirty_place<R: Rows>(places: &Places, rows: &R, service: &Service) -> bool
    requires usable { IsUsable (R.tables rows.now) }
    requires shows { let t = R.tables rows.now in ShowsPlaces places.now t service.now t.tasks }
    ensures { result ≡ has_dirty_place (R.tables rows.now) service.now }
{
    match places.first(Question::Dirty) {
        Some(_) => true,
        None if places.has_far() => role_words::has_dirty_place(rows, service),
        None => false,
    }
}

// So many failures are more than the ratio bears, in thousandths.
fn exceeds(failures: u64, service: &Service, run: &UpdateRun) -> bool
    ensures { result ≡ nat_lt (service.now.spec.update.ratio * run.now.total) (1000 * failures) }
{
    let borne = u128::from(service.spec.update.ratio) * u128::from(run.total);
    borne < 1000 * u128::from(failures)
}

/// More tasks have failed than the ratio bears.
pub fn is_exceeded<R: Rows>(survey: &Survey, rows: &R, service: &Service, run: &UpdateRun) -> bool
    requires { Tells survey.now (R.tables rows.now) service.now run.now }
    ensures { result ≡ is_exceeded (R.tables rows.now) service.now run.now }
{
    exceeds(survey.failures, service, run)
}

// A clean live task stands in this place that isn't yet RUNNING for the delay.
fn has_flying<R: Rows>(rows: &R, service: &Service, place: Place) -> bool
    requires { IsUsable (R.tables rows.now) }
    ensures { let t = R.tables rows.now in
        result ≡ list_any (is_flying t service.now) (tasks_of_place service.now place t.tasks) }
{
    tasks_of_place(rows, service, place).any(|task| is_flying(rows, service, task))
}

// Such a task stands in the place that the run has replaced.
fn is_in_flight<R: Rows>(places: &Places, rows: &R, service: &Service, item: &Replaced) -> bool
    requires usable { IsUsable (R.tables rows.now) }
    requires shows { let t = R.tables rows.now in ShowsPlaces places.now t service.now t.tasks }
    ensures { result ≡ is_in_flight (R.tables rows.now) service.now item.now }
{
    let number = item.place.place_number();
    if number < WIDTH as u64 && service.spec.mode.place_at(number) == item.place {
        places.mark_at(number as usize).has_flying
    } else {
        has_flying(rows, service, item.place)
    }
}

// How many of the replaced places are in flight.
fn in_flight<R: Rows>(places: &Places, rows: &R, service: &Service, run: &UpdateRun) -> usize
    requires usable { IsUsable (R.tables rows.now) }
    requires shows { let t = R.tables rows.now in ShowsPlaces places.now t service.now t.tasks }
    ensures { result ≡ in_flight (R.tables rows.now) service.now run.now }
{
    let mut count = 0;
    for item in run.replaced.as_slice() {
        if is_in_flight(places, rows, service, item) {
            count += 1;
        }
    }
    count
}

/// The parallelism lets one more place be in flight. A parallelism of 0 is none: any number may be.
pub fn has_room<R: Rows>(places: &Places, rows: &R, service: &Service, run: &UpdateRun) -> bool
    requires usable { IsUsable (R.tables rows.now) }
    requires shows { let t = R.tables rows.now in ShowsPlaces places.now t service.now t.tasks }
    ensures { result ≡ has_room (R.tables rows.now) service.now run.now }
{
    let parallelism = service.spec.update.parallelism;
    parallelism == 0 || (in_flight(places, rows, service, run) as u64) < parallelism
}
