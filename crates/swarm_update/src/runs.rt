// Update runs: their failures, and what they allow.
ghost use Rattle.std.specs.Prelude.{◌≡◌};
ghost use Rattle.std.specs.List.{list_all};
ghost use Rattle.swarm_objects.specs.Loops.Update.{
  is_to_finish,
  is_watched,
  lets_replace,
};
ghost use Rattle.swarm_objects.specs.Rows.{is_some_and};
ghost use Rattle.swarm_objects.specs.Services.Runs.{
  counts_as_failure,
  fails,
  goes_on,
  is_failure,
  is_of_version,
  is_present,
};
ghost use Rattle.swarm_objects.specs.Usable.{IsUsable};
ghost use Rattle.swarm_update.specs.Surveys.{Tells};

use crate::survey::{Survey, has_dirty_place, has_room, is_exceeded};
use role_words::{is_of_version, is_under_way, is_watched};
use swarm_objects::{FailureAction, Rows, Service, Task, TaskState, UpdateRun};

/// It is one under way to the present template.
pub fn is_present(service: &Service, run: &UpdateRun) -> bool
    ensures { result ≡ is_present service.now run.now }
{
    is_under_way(run) && is_of_version(service, run)
}

/// A task that is in this state has failed its update.
pub fn counts_as_failure(state: TaskState) -> bool
    ensures { result ≡ counts_as_failure state }
{
    match state {
        TaskState::Rejected | TaskState::Complete | TaskState::Failed => true,
        _ => false,
    }
}

/// The task is one of the run's, and ended within the monitor time.
pub fn is_failure(service: &Service, run: &UpdateRun, task: &Task) -> bool
    ensures { result ≡ is_failure service.now run.now task.now }
{
    let watched_till = u128::from(task.created) + u128::from(service.spec.update.monitor);
    task.is_of(service.id)
        && task.born == run.version
        && counts_as_failure(task.state)
        && u128::from(task.since) < watched_till
}

/// The update goes on whatever fails.
pub fn goes_on(action: FailureAction) -> bool
    ensures { result ≡ goes_on action }
{
    match action {
        FailureAction::Continue => true,
        FailureAction::Pause | FailureAction::Rollback => false,
    }
}

/// The update has failed.
pub fn fails<R: Rows>(survey: &Survey, rows: &R, service: &Service, run: &UpdateRun) -> bool
    requires { Tells survey.now (R.tables rows.now) service.now run.now }
    ensures { result ≡ fails (R.tables rows.now) service.now run.now }
{
    is_present(service, run)
        && !goes_on(service.spec.update.action)
        && is_exceeded(survey, rows, service, run)
}

/// One more place may be replaced.
pub fn lets_replace<R: Rows>(survey: &Survey, rows: &R, service: &Service, run: &UpdateRun) -> bool
    requires usable { IsUsable (R.tables rows.now) }
    requires tells { Tells survey.now (R.tables rows.now) service.now run.now }
    ensures { result ≡ lets_replace (R.tables rows.now) service.now run.now }
{
    has_room(&survey.places, rows, service, run) && !fails(survey, rows, service, run)
}

// Each new task of the run was watched for the monitor time.
fn all_watched<R: Rows>(rows: &R, service: &Service, run: &UpdateRun) -> bool
    ensures { result ≡ list_all (is_watched (R.tables rows.now) service.now) run.now.replaced }
{
    run.replaced
        .as_slice()
        .iter()
        .all(|item| is_watched(rows, service, item))
}

/// All places are clean, and their new tasks were watched.
pub fn is_to_finish<R: Rows>(survey: &Survey, rows: &R, service: &Service, run: &UpdateRun) -> bool
    requires usable { IsUsable (R.tables rows.now) }
    requires tells { Tells survey.now (R.tables rows.now) service.now run.now }
    ensures { result ≡ is_to_finish (R.tables rows.now) service.now run.now }
{
    all_watched(rows, service, run)
        && !has_dirty_place(&survey.places, rows, service)
        && !fails(survey, rows, service, run)
}

/// The service has a run to its present template.
pub fn has_present_run(service: &Service) -> bool
    ensures { result ≡ is_some_and (is_of_version service.now) service.now.run }
{
    match &service.run {
        Some(run) => is_of_version(service, run),
        None => false,
    }
}
