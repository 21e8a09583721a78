// Whether a job gets a further task, and in which slot.
ghost use Rattle.std.specs.Prelude.{◌≡◌};
ghost use Rattle.std.specs.List.{list_any};
ghost use Rattle.swarm_objects.specs.Loops.Jobs.{has_old, is_old_of, next_duty};
ghost use Rattle.swarm_objects.specs.Rows.{first_of};
ghost use Rattle.swarm_objects.specs.Tasks.Words.{is_of};
ghost use Rattle.std.specs.Prelude.{filter};
ghost use Rattle.swarm_objects.specs.Usable.{IsUsable};

use role_words::{first_gap, held_count, live_count};
use swarm_objects::walks::tasks_of;
use swarm_objects::{Duty, Mode, Rows, Service, Task};

/// The task is of an earlier iteration of the job, and isn't to be removed.
pub fn is_old_of(task: &Task, service: &Service) -> bool
    ensures { result ≡ is_old_of task.now service.now }
{
    service.spec.mode.is_job() && task.iteration < service.iteration && task.is_kept()
}

// The same of a task of the service; by the scan.
fn any_old<R: Rows>(rows: &R, service: &Service) -> bool
    requires { IsUsable (R.tables rows.now) }
    ensures { let t = R.tables rows.now in
        result ≡ list_any (λ x. is_old_of x service.now) (filter (is_of service.now.id) t.tasks) }
{
    tasks_of(rows, service.id).any(|task| is_old_of(task, service))
}

// The job has such a task.
#[tactic(auto, using(crate::proofs::Olds::old_of_service))]
fn has_old<R: Rows>(rows: &R, service: &Service) -> bool
    requires { IsUsable (R.tables rows.now) }
    ensures { result ≡ has_old (R.tables rows.now) service.now }
{
    any_old(rows, service)
}

/// The slot in which the job gets a new task, while fewer run than may and fewer slots are held than there are tasks.
pub fn next_duty<R: Rows>(rows: &R, service: &Service) -> Option<Duty>
    requires { IsUsable (R.tables rows.now) }
    ensures { result ≡ first_of (next_duty (R.tables rows.now) service.now service.now.spec.mode) }
{
    let Mode::Job { concurrent, total } = service.spec.mode else {
        return None;
    };
    if live_count(rows, service) < concurrent
        && held_count(rows, service) < total
        && !has_old(rows, service)
    {
        Some(Duty::JobCreate(service.id, first_gap(rows, service, 0)))
    } else {
        None
    }
}
