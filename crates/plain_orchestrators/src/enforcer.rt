// The enforcer's duties.
ghost use Rattle.std.specs.Prelude.{◌≡◌, ◌==◌, ◌&&◌, IfOk};
ghost use Rattle.std.specs.List.{list_any};
ghost use Rattle.swarm_objects.specs.Duties.{effect_by, is_due};
ghost use Rattle.swarm_objects.specs.Loops.Enforcer.{breaks_constraints, enforcer, is_misplaced};
ghost use Rattle.swarm_plain.specs.Plain.{world_of};

use swarm_objects::homes::node_of;
use swarm_objects::{Duty, Id, List, NoMemory, Rows, Task, TaskState, Version, add};
use swarm_plain::Plain;
use swarm_plain::tasks::set_state;
use swarm_upkeep::breaks_constraints;

// It is live, on a node that doesn't meet its constraints any more. Where it has none, its node isn't looked up.
#[tactic(auto, using(swarm_plain::proofs::Looks::none_misplaced))]
fn is_misplaced<R: Rows>(rows: &R, task: &Task) -> bool
    ensures { result ≡ is_misplaced (R.tables rows.now) task.now }
{
    if task.template.constraints.is_empty() {
        return false;
    }
    task.is_live()
        && task.is_placed()
        && node_of(rows, task).is_some_and(|node| breaks_constraints(task, node))
}

/// The tasks on nodes that don't meet their constraints any more.
pub fn enforcer_duties(plain: &Plain) -> Result<List<Duty>, NoMemory>
    ensures { IfOk result (λ duties. duties ≡ enforcer (world_of plain.now).tables) }
{
    let mut duties = List::new(plain.alloc);
    for task in plain.tasks.as_slice() {
        if is_misplaced(plain, task) {
            add(&mut duties, Duty::Reject(task.id))?;
        }
    }
    Ok(duties)
}

// Some task with this id is misplaced.
fn has_misplaced(plain: &Plain, id: Id) -> bool
    ensures { let t = (world_of plain.now).tables in result ≡ list_any (λ x. x.id == id && is_misplaced t x) t.tasks }
{
    plain
        .tasks
        .as_slice()
        .iter()
        .any(|task| task.id == id && is_misplaced(plain, task))
}

/// The task with this id is on a node that doesn't meet its constraints any more.
pub fn is_reject_due(plain: &Plain, id: Id) -> bool
    ensures { result ≡ is_due (world_of plain.now) (Duty.Reject id) }
{
    has_misplaced(plain, id)
}

/// The task is REJECTED.
pub fn reject(plain: &mut Plain, version: Version, task: Id)
    ensures { world_of plain.new ≡ effect_by version (world_of plain.old) (Duty.Reject task) }
{
    set_state(plain, version, task, TaskState::Rejected);
}
