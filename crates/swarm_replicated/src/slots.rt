// How many places a service holds at most, and which of its slots it gives up.
ghost use Rattle.std.specs.Prelude.{◌≡◌, ◌≤◌, length};
ghost use Rattle.std.specs.Option.{option_map};
ghost use Rattle.swarm_objects.specs.Loops.Replicated.{first_to_go};
ghost use Rattle.swarm_objects.specs.Tasks.Places.{held_places};
ghost use Rattle.swarm_objects.specs.Usable.{IsUsable};

use crate::order::first_to_go;
use swarm_objects::{Duty, Rows, Service};

/// At most so many places are held: as many as ids were given out from the service's first task on.
#[tactic(auto, using(crate::proofs::Bounding::bound_steps))]
pub fn held_bound<R: Rows>(rows: &R, service: &Service) -> u64
    requires { IsUsable (R.tables rows.now) }
    ensures { length (held_places (R.tables rows.now) service.now) ≤ result }
{
    match rows.next_task_of(service.id, 0) {
        Some(first) => rows.next_id() - first.id,
        None => 0,
    }
}

/// The first of the service's held slots to go is given up.
pub fn gives_up<R: Rows>(rows: &R, service: &Service) -> Option<Duty>
    requires { IsUsable (R.tables rows.now) }
    ensures { result ≡ option_map (Duty.Down service.now.id) (first_to_go (R.tables rows.now) service.now) }
{
    match first_to_go(rows, service) {
        Some(slot) => Some(Duty::Down(service.id, slot)),
        None => None,
    }
}
