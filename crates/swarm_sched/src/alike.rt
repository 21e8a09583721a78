// Tasks that wait alike, for which the scheduler has one answer.
ghost use Rattle.std.specs.Bool.{OnTrue};
ghost use Rattle.std.specs.Option.{option_copied};
ghost use Rattle.std.specs.Prelude.{◌≡◌, ◌↔◌, ◌&&◌, [], IfSome, IsTrue, is_none};
ghost use Rattle.swarm_objects.specs.Loops.Scheduler.{is_to_place, schedule};
ghost use Rattle.swarm_objects.specs.Rows.{first_of};
ghost use Rattle.swarm_objects.specs.Tasks.New.{bound_node};
ghost use Rattle.swarm_objects.specs.Usable.{IsUsable};
ghost use Rattle.swarm_objects.specs.World.{Tables};
ghost use Rattle.swarm_sched.specs.Inside.KnownNodes.{KnowsNodes};

use crate::known_nodes::KnownNodes;
use crate::{is_to_place, schedule};
use swarm_objects::{Duty, Rows, Same, Task};

// The task waits for any node: one whose place is a node is tried on that node alone.
fn waits(task: &Task) -> bool
    ensures { result ≡ (is_to_place task.now && is_none (bound_node task.now.place)) }
{
    is_to_place(task) && task.place.bound_node().is_none()
}

// The task is of the other one's service, by its template and with its note.
fn asks_alike(task: &Task, other: &Task) -> bool
    ensures { IsTrue result ↔ (
        (task.now.service ≡ other.now.service) × (task.now.note ≡ other.now.note)
        × (task.now.template ≡ other.now.template)
        ) }
{
    task.service == other.service && task.note == other.note && task.template.same(&other.template)
}

/// Both wait for any node, of one service, by one template and with one note. So where there is nothing to do about the
/// other, there is nothing to do about the task.
pub fn waits_alike(task: &Task, other: &Task) -> bool
    ensures { OnTrue result ((t : Tables) → schedule t other.now ≡ [] → schedule t task.now ≡ []) }
{
    waits(task) && waits(other) && asks_alike(task, other)
}

/// What there is to do about the task, where there is nothing to do about the one before it. If the two wait alike, the
/// task isn't tried on any node.
pub fn schedule_after<R: Rows>(
    rows: &R,
    known: &mut KnownNodes,
    before: Option<&Task>,
    task: &Task,
) -> Option<Duty>
    requires usable { IsUsable (R.tables rows.now) }
    requires knows { KnowsNodes (R.tables rows.now) known.old }
    requires idle { IfSome (option_copied before) (λ x. schedule (R.tables rows.now) x ≡ []) }
    ensures first { result ≡ first_of (schedule (R.tables rows.now) task.now) }
    ensures knows { KnowsNodes (R.tables rows.now) known.new }
{
    if let Some(other) = before {
        if waits_alike(task, other) {
            return None;
        }
    }
    schedule(rows, known, task)
}
