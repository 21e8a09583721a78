// Updates that are held up or paused.
ghost use Rattle.std.specs.Prelude.{◌≡◌, filter, find, flat_map, option_to_list};
ghost use Rattle.std.specs.Option.{option_copied};
ghost use Rattle.swarm_model.specs.Settle.{held_by, is_holding, is_paused, is_paused_status, paused_by};
ghost use Rattle.swarm_objects.specs.Rows.{first_of, service_id};
ghost use Rattle.swarm_objects.specs.Tasks.Words.{is_of};
ghost use Rattle.swarm_objects.specs.Usable.{IsUsable};
ghost use Rattle.swarm_spans.specs.Timed.{is_unfinished};
ghost use Rattle.swarm_spans.specs.Spans.{Covers};

use role_words::{has_open_run, is_of_version};
use swarm_objects::walks::tasks_of;
use swarm_objects::{Rows, RunStatus, Service, Settle, Task};
use swarm_spans::{Span, next_service_in};

/// A live clean task of the service is below RUNNING.
pub fn is_holding(service: &Service, task: &Task) -> bool
    ensures { result ≡ is_holding service.now task.now }
{
    task.is_of(service.id) && task.is_live_clean(service) && task.is_below_running()
}

// The first of the service's tasks that holds it up.
fn holding_among<'a, R: Rows>(rows: &'a R, service: &Service) -> Option<&'a Task>
    requires { IsUsable (R.tables rows.now) }
    ensures { let t = R.tables rows.now in
        option_copied result ≡ find (is_holding service.now) (filter (is_of service.now.id) t.tasks) }
{
    tasks_of(rows, service.id).find(|task| is_holding(service, task))
}

// The first live clean task of the service below RUNNING.
fn holding_task<'a, R: Rows>(rows: &'a R, service: &Service) -> Option<&'a Task>
    requires { IsUsable (R.tables rows.now) }
    ensures { option_copied result ≡ find (is_holding service.now) (R.tables rows.now).tasks }
{
    holding_among(rows, service)
}

// Where the service has a run under way, the task that holds it up.
fn held_by<R: Rows>(rows: &R, service: &Service) -> Option<Settle>
    requires { IsUsable (R.tables rows.now) }
    ensures { option_to_list result ≡ held_by (R.tables rows.now) service.now }
{
    if !has_open_run(service) {
        return None;
    }
    match holding_task(rows, service) {
        Some(task) => Some(Settle::Held(service.id, task.id)),
        None => None,
    }
}

/// The first service whose run is held up, and the task that does it. Each service with a run under way is in the span.
pub fn held<R: Rows>(rows: &R, asked: Span) -> Option<Settle>
    requires usable { IsUsable (R.tables rows.now) }
    requires asked { Covers service_id is_unfinished asked (R.tables rows.now).services }
    ensures { result ≡ first_of (flat_map (held_by (R.tables rows.now)) (R.tables rows.now).services) }
{
    let mut left = asked;
    while let Some(service) = next_service_in(rows, &left) {
        let answer = held_by(rows, service);
        if answer.is_some() {
            return answer;
        }
        left.pass(service.id);
    }
    None
}

fn is_paused_status(status: RunStatus) -> bool
    ensures { result ≡ is_paused_status status }
{
    matches!(status, RunStatus::Paused | RunStatus::RollbackPaused)
}

/// The run to the service's present template is paused.
pub fn is_paused(service: &Service) -> bool
    ensures { result ≡ is_paused service.now }
{
    match &service.run {
        Some(run) => is_paused_status(run.status) && is_of_version(service, run),
        None => false,
    }
}

fn paused_by(service: &Service) -> Option<Settle>
    ensures { option_to_list result ≡ paused_by service.now }
{
    if is_paused(service) {
        Some(Settle::Paused(service.id))
    } else {
        None
    }
}

/// The first service whose run is paused, as the answer. Each such service is in the span.
pub fn paused<R: Rows>(rows: &R, asked: Span) -> Option<Settle>
    requires usable { IsUsable (R.tables rows.now) }
    requires asked { Covers service_id is_unfinished asked (R.tables rows.now).services }
    ensures { result ≡ first_of (flat_map paused_by (R.tables rows.now).services) }
{
    let mut left = asked;
    while let Some(service) = next_service_in(rows, &left) {
        let answer = paused_by(service);
        if answer.is_some() {
            return answer;
        }
        left.pass(service.id);
    }
    None
}
