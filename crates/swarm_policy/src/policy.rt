// Whether an ended task is made anew.
ghost use Rattle.std.specs.Prelude.{◌≡◌, IfErr, IfOk, None, Some, true};
ghost use Rattle.swarm_objects.specs.Rows.{has_row, service_id};
ghost use Rattle.swarm_objects.specs.Tasks.Policy.{attempts_made, forbids, no_restart, reaches};
ghost use Rattle.swarm_policy.specs.Causes.{cause};

use swarm_objects::{Closed, Place, RestartCondition, Rows, Service, Task};

// The attempts that count.
fn attempts_made<R: Rows>(rows: &R, service: &Service, place: Place) -> u64
    ensures { result ≡ attempts_made (R.tables rows.now) service.now place }
{
    let window = service.spec.template.restart.window;
    rows.attempts(service.id, place, service.template_version, window)
}

// The condition rules it out, for a task that is complete or isn't.
fn forbids(condition: RestartCondition, complete: bool) -> bool
    ensures { result ≡ forbids condition complete }
{
    match condition {
        RestartCondition::Never => true,
        RestartCondition::OnFailure => complete,
        RestartCondition::Any => false,
    }
}

// There is a maximum, and this many attempts reach it.
fn reaches(attempts: u64, most: u64) -> bool
    ensures { result ≡ reaches attempts most }
{
    0 < most && most <= attempts
}

/// The first cause by which the service's present policy forbids that the task is made anew.
pub fn no_restart<R: Rows>(rows: &R, service: &Service, task: &Task) -> Option<Closed>
    ensures { result ≡ no_restart (R.tables rows.now) service.now task.now }
{
    let complete = task.state.is_complete();
    if service.spec.mode.is_job() && complete {
        return Some(Closed::Done);
    }
    let policy = service.spec.template.restart;
    if forbids(policy.condition, complete) {
        return Some(Closed::Condition);
    }
    let attempts = attempts_made(rows, service, task.place);
    if reaches(attempts, policy.max_attempts) {
        return Some(Closed::Attempts(attempts));
    }
    None
}

/// Whether the present policy of the task's service lets the task be made anew, or the cause by which it doesn't. The
/// service has to be there.
pub fn may_restart<R: Rows>(rows: &R, task: &Task) -> Result<(), Closed>
    requires { has_row service_id task.now.service (R.tables rows.now).services ≡ true }
    ensures yes { IfOk result (λ _. cause (R.tables rows.now) task.now ≡ None) }
    ensures no { IfErr result (λ why. cause (R.tables rows.now) task.now ≡ Some why) }
{
    let Some(service) = rows.service(task.service) else {
        unreachable!()
    };
    match no_restart(rows, service, task) {
        Some(why) => Err(why),
        None => Ok(()),
    }
}
