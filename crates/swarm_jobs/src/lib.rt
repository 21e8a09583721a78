// The duties on jobs over any rows: the first, and what each changes.
#![tactic(auto)]

mod changing;
mod slots;

ghost use Rattle.std.specs.Prelude.{◌≡◌, flat_map};
ghost use Rattle.swarm_objects.specs.Loops.Jobs.{is_old, jobs, next_duty};
ghost use Rattle.swarm_objects.specs.Loops.Words.{duty_where};
ghost use Rattle.swarm_objects.specs.Rows.{first_of};
ghost use Rattle.swarm_objects.specs.Usable.{IsUsable};

pub use changing::changes;
pub use slots::{is_old_of, next_duty};
use swarm_objects::walks::{services, tasks};
use swarm_objects::{Duty, Rows, Task};

/// The task is of an earlier iteration of its job, and isn't to be removed.
pub fn is_old<R: Rows>(rows: &R, task: &Task) -> bool
    ensures { result ≡ is_old (R.tables rows.now) task.now }
{
    match rows.service(task.service) {
        Some(service) => is_old_of(task, service),
        None => false,
    }
}

// The first task of an earlier iteration.
fn first_old<R: Rows>(rows: &R) -> Option<Duty>
    requires { IsUsable (R.tables rows.now) }
    ensures { let t = R.tables rows.now in
        result ≡ first_of (duty_where (is_old t) (λ x. Duty.Old x.id) t.tasks) }
{
    for task in tasks(rows) {
        if is_old(rows, task) {
            return Some(Duty::Old(task.id));
        }
    }
    None
}

// The first new task.
fn first_next<R: Rows>(rows: &R) -> Option<Duty>
    requires { IsUsable (R.tables rows.now) }
    ensures { let t = R.tables rows.now in
        result ≡ first_of (flat_map (λ s. next_duty t s s.spec.mode) t.services) }
{
    for service in services(rows) {
        if let Some(duty) = next_duty(rows, service) {
            return Some(duty);
        }
    }
    None
}

/// The first duty on jobs.
#[tactic(auto, using(crate::proofs::Steps::first_steps))]
pub fn least<R: Rows>(rows: &R) -> Option<Duty>
    requires { IsUsable (R.tables rows.now) }
    ensures { result ≡ first_of (jobs (R.tables rows.now)) }
{
    if let Some(duty) = first_old(rows) {
        return Some(duty);
    }
    first_next(rows)
}
