// Tasks that may make their place dirty.
ghost use Rattle.std.specs.Prelude.{◌≡◌, false, filter};
ghost use Rattle.std.specs.List.{list_any};
ghost use Rattle.swarm_objects.specs.Loops.Update.{is_to_replace};
ghost use Rattle.swarm_objects.specs.Tasks.Places.{has_dirty_place, place_numbers};
ghost use Rattle.swarm_objects.specs.Tasks.Words.{is_of};
ghost use Rattle.swarm_objects.specs.Usable.{IsUsable};
ghost use Rattle.role_words.specs.Suspects.{is_suspect};

use swarm_objects::walks::tasks_of;
use swarm_objects::{Rows, Service, Task};

/// The task may make its place dirty: it is dirty, and live or closes the place. So history doesn't count.
pub fn is_suspect(service: &Service, task: &Task) -> bool
    ensures { result ≡ is_suspect service.now task.now }
{
    (task.is_live() || task.closes()) && task.is_dirty(service)
}

// The service has such a task.
fn any_suspect<R: Rows>(rows: &R, service: &Service) -> bool
    requires { IsUsable (R.tables rows.now) }
    ensures { let t = R.tables rows.now in
        result ≡ list_any (is_suspect service.now) (filter (is_of service.now.id) t.tasks) }
{
    tasks_of(rows, service.id).any(|task| is_suspect(service, task))
}

/// The service has such a task. Where it has none, no place is dirty, nor is one to be replaced.
#[tactic(auto, using(crate::proofs::NoSuspects::none_suspect, crate::proofs::NoSuspects::none_waiting))]
pub fn has_suspect<R: Rows>(rows: &R, service: &Service) -> bool
    requires { IsUsable (R.tables rows.now) }
    ensures has { let t = R.tables rows.now in
        result ≡ list_any (is_suspect service.now) (filter (is_of service.now.id) t.tasks) }
    ensures clean { result ≡ false → has_dirty_place (R.tables rows.now) service.now ≡ false }
    ensures none { result ≡ false → let t = R.tables rows.now in
        list_any (is_to_replace t service.now) (place_numbers t service.now) ≡ false }
{
    any_suspect(rows, service)
}
