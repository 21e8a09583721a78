// The duties on tasks that ended and on tasks that wait to be raised, over any rows: the first, and what each changes.
#![tactic(auto)]

mod changing;
mod closing;
mod replacing;
mod waiting;

ghost use Rattle.std.specs.Prelude.{◌≡◌};
ghost use Rattle.swarm_objects.specs.Loops.Restart.{restart, wants_raise, wants_restart};
ghost use Rattle.swarm_objects.specs.Loops.Words.{duty_where};
ghost use Rattle.swarm_objects.specs.Rows.{first_of};
ghost use Rattle.swarm_objects.specs.Usable.{IsUsable};

pub use changing::changes;
use swarm_objects::walks::tasks;
use swarm_objects::{Duty, Rows};
pub use waiting::{holds_up, is_current, wants_raise, wants_restart};

// The first live task that is over.
fn first_restart<R: Rows>(rows: &R) -> Option<Duty>
    requires { IsUsable (R.tables rows.now) }
    ensures { let t = R.tables rows.now in
        result ≡ first_of (duty_where (wants_restart t) (λ x. Duty.Restart x.id) t.tasks) }
{
    for task in tasks(rows) {
        if wants_restart(rows, task) {
            return Some(Duty::Restart(task.id));
        }
    }
    None
}

// The first task that has waited.
fn first_raise<R: Rows>(rows: &R) -> Option<Duty>
    requires { IsUsable (R.tables rows.now) }
    ensures { let t = R.tables rows.now in
        result ≡ first_of (duty_where (wants_raise t) (λ x. Duty.Raise x.id) t.tasks) }
{
    for task in tasks(rows) {
        if wants_raise(rows, task) {
            return Some(Duty::Raise(task.id));
        }
    }
    None
}

/// The first duty of the supervisor.
#[tactic(auto, using(crate::proofs::Steps::first_steps))]
pub fn least<R: Rows>(rows: &R) -> Option<Duty>
    requires { IsUsable (R.tables rows.now) }
    ensures { result ≡ first_of (restart (R.tables rows.now)) }
{
    if let Some(duty) = first_restart(rows) {
        return Some(duty);
    }
    first_raise(rows)
}
