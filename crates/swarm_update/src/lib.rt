// The duties on rolling updates over any rows: the first, and what each changes.
#![tactic(auto)]

mod changing;
mod clean;
mod failing;
mod kept_surveys;
mod known_survey;
mod marks;
mod replacing;
mod runs;
mod stale_places;
mod starting;
mod survey;

ghost use Rattle.std.specs.Prelude.{◌≡◌};
ghost use Rattle.swarm_objects.specs.Loops.Update.{is_to_replace, is_to_swap, lets_replace, open_duties, update};
ghost use Rattle.swarm_objects.specs.Loops.Words.{places_where};
ghost use Rattle.swarm_objects.specs.Rows.{first_of};
ghost use Rattle.swarm_objects.specs.Services.Runs.{is_of_version};
ghost use Rattle.swarm_objects.specs.Tasks.Places.{place_numbers};
ghost use Rattle.std.specs.Prelude.{◌&&◌};
ghost use Rattle.swarm_objects.specs.Usable.{IsUsable};
ghost use Rattle.swarm_update.specs.Surveys.{Tells};

use crate::runs::{fails, is_to_finish, lets_replace};
use crate::survey::{Survey, first_to_replace, first_to_swap};
pub use changing::changes;
pub use failing::{kept_numbers, may_roll_back, paused_status};
pub use known_survey::{KnownSurvey, update_duty_by};
pub use replacing::desired_by_order;
use role_words::is_of_version;
pub use runs::{goes_on, has_present_run, is_failure, is_present};
pub use starting::{finished_status, start_status};
use swarm_objects::walks::services;
use swarm_objects::{Duty, Rows, Service, UpdateRun};

// The first place whose old tasks are to stop.
#[tactic(auto, using(crate::proofs::Steps::first_places))]
fn first_swap<R: Rows>(
    survey: &Survey,
    rows: &R,
    service: &Service,
    run: &UpdateRun,
) -> Option<Duty>
    requires usable { IsUsable (R.tables rows.now) }
    requires tells { Tells survey.now (R.tables rows.now) service.now run.now }
    ensures { let t = R.tables rows.now in let s = service.now in result ≡ first_of
        (places_where (is_of_version s run.now) (is_to_swap t s) (Duty.Swap s.id) (place_numbers t s)) }
{
    if !is_of_version(service, run) {
        return None;
    }
    let number = first_to_swap(&survey.places, rows, service)?;
    Some(Duty::Swap(service.id, number))
}

// The run is to the present template, and one more place may be replaced.
fn replaces<R: Rows>(survey: &Survey, rows: &R, service: &Service, run: &UpdateRun) -> bool
    requires usable { IsUsable (R.tables rows.now) }
    requires tells { Tells survey.now (R.tables rows.now) service.now run.now }
    ensures { result ≡ (is_of_version service.now run.now && lets_replace (R.tables rows.now) service.now run.now) }
{
    is_of_version(service, run) && lets_replace(survey, rows, service, run)
}

// The first place that is to get a new task.
#[tactic(auto, using(crate::proofs::Steps::first_places))]
fn first_replace<R: Rows>(
    survey: &Survey,
    rows: &R,
    service: &Service,
    run: &UpdateRun,
) -> Option<Duty>
    requires usable { IsUsable (R.tables rows.now) }
    requires tells { Tells survey.now (R.tables rows.now) service.now run.now }
    ensures { let t = R.tables rows.now in let s = service.now in
        let may = is_of_version s run.now && lets_replace t s run.now in result ≡ first_of
        (places_where may (is_to_replace t s) (Duty.Replace s.id) (place_numbers t s)) }
{
    if !replaces(survey, rows, service, run) {
        return None;
    }
    let number = first_to_replace(&survey.places, rows, service)?;
    Some(Duty::Replace(service.id, number))
}

// What there is to do about a run under way.
#[tactic(auto, using(crate::proofs::Steps::first_steps))]
fn first_open<R: Rows>(
    survey: &Survey,
    rows: &R,
    service: &Service,
    run: &UpdateRun,
) -> Option<Duty>
    requires usable { IsUsable (R.tables rows.now) }
    requires tells { Tells survey.now (R.tables rows.now) service.now run.now }
    ensures { result ≡ first_of (open_duties (R.tables rows.now) service.now run.now) }
{
    if fails(survey, rows, service, run) {
        return Some(Duty::Fail(service.id));
    }
    if let Some(duty) = first_swap(survey, rows, service, run) {
        return Some(duty);
    }
    if let Some(duty) = first_replace(survey, rows, service, run) {
        return Some(duty);
    }
    if is_to_finish(survey, rows, service, run) {
        return Some(Duty::Finish(service.id));
    }
    None
}

/// The first duty on rolling updates.
#[tactic(auto, using(crate::proofs::Walking::row_steps))]
pub fn least<R: Rows>(rows: &R) -> Option<Duty>
    requires { IsUsable (R.tables rows.now) }
    ensures { result ≡ first_of (update (R.tables rows.now)) }
{
    let mut known = KnownSurvey::none();
    for service in services(rows) {
        if let Some(duty) = update_duty_by(rows, &mut known, service) {
            return Some(duty);
        }
    }
    None
}
