// The duties on replicated services, and on tasks whose service is gone, over any rows: the first, and what each
// changes.
#![tactic(auto)]

mod changing;
mod crowds;
mod known_places;
mod order;
mod place_changes;
mod reach;
mod slots;
mod touches;
mod weights;

ghost use Rattle.std.specs.Prelude.{◌≡◌, flat_map};
ghost use Rattle.swarm_objects.specs.Loops.Replicated.{
  create_duty,
  down_duty,
  is_gone,
  replicated,
};
ghost use Rattle.swarm_objects.specs.Loops.Words.{duty_where};
ghost use Rattle.swarm_objects.specs.Rows.{first_of};
ghost use Rattle.swarm_objects.specs.Usable.{IsUsable};

pub use changing::changes;
use known_places::{create_duty, down_duty};
pub use known_places::{KnownPlaces, PlacesAfter, create_duty_by, down_duty_by};
use swarm_objects::walks::{services, tasks};
use swarm_objects::{Duty, Rows, Task};

/// The service of the task is gone, and the task isn't to be removed yet.
pub fn is_gone<R: Rows>(rows: &R, task: &Task) -> bool
    ensures { result ≡ is_gone (R.tables rows.now) task.now }
{
    !task.has_service(rows) && task.is_kept()
}

// The first task that goes with its service.
fn first_gone<R: Rows>(rows: &R) -> Option<Duty>
    requires { IsUsable (R.tables rows.now) }
    ensures { let t = R.tables rows.now in
        result ≡ first_of (duty_where (is_gone t) (λ x. Duty.Gone x.id) t.tasks) }
{
    for task in tasks(rows) {
        if is_gone(rows, task) {
            return Some(Duty::Gone(task.id));
        }
    }
    None
}

// The first slot that is given up.
#[tactic(auto, using(crate::proofs::Services::row_steps))]
fn first_down<R: Rows>(rows: &R) -> Option<Duty>
    requires { IsUsable (R.tables rows.now) }
    ensures { let t = R.tables rows.now in
        result ≡ first_of (flat_map (λ s. down_duty t s s.spec.mode) t.services) }
{
    for service in services(rows) {
        if let Some(duty) = down_duty(rows, service) {
            return Some(duty);
        }
    }
    None
}

// The first slot that gets a task.
#[tactic(auto, using(crate::proofs::Services::row_steps))]
fn first_create<R: Rows>(rows: &R) -> Option<Duty>
    requires { IsUsable (R.tables rows.now) }
    ensures { let t = R.tables rows.now in
        result ≡ first_of (flat_map (λ s. create_duty t s s.spec.mode) t.services) }
{
    for service in services(rows) {
        if let Some(duty) = create_duty(rows, service) {
            return Some(duty);
        }
    }
    None
}

/// The first duty on replicated services.
#[tactic(auto, using(crate::proofs::Steps::first_steps))]
pub fn least<R: Rows>(rows: &R) -> Option<Duty>
    requires { IsUsable (R.tables rows.now) }
    ensures { result ≡ first_of (replicated (R.tables rows.now)) }
{
    if let Some(duty) = first_gone(rows) {
        return Some(duty);
    }
    if let Some(duty) = first_down(rows) {
        return Some(duty);
    }
    first_create(rows)
}
