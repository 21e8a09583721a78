//! What is remembered from one question to the next: how it goes on where the rows change.
ghost use Rattle.std.specs.Prelude.{◌≡◌, ◌≤◌, ◌↔◌, IsTrue, ℕ};
ghost use Rattle.swarm_objects.specs.ChangeLists.{apply_changes};
ghost use Rattle.swarm_objects.specs.Usable.{IsUsable};
ghost use Rattle.swarm_objects.specs.World.{Tables};
ghost use Rattle.swarm_replicated.specs.KnownPlaces.{IsAfter, Knows as KnowsPlaces};
ghost use Rattle.swarm_sched.specs.Inside.Known.{AreMoved};
ghost use Rattle.swarm_sched.specs.Inside.KnownNodes.{KnowsNodes};
ghost use Rattle.swarm_spread.specs.Counts.{HasTask, IsFor, one_fewer, with_change};
ghost use Rattle.swarm_update.specs.KnownSurvey.{Knows as KnowsSurvey};

use swarm_objects::{Change, Id, Rows, Task};
use swarm_replicated::{KnownPlaces, PlacesAfter};
use swarm_sched::{KnownNodes, Moved};
use swarm_spread::SpreadTree;
use swarm_update::KnownSurvey;

/// `KnownNodes::forget_changed`.
pub fn forget_nodes<R: Rows>(known: &mut KnownNodes, rows: &R, changes: &[Change]) -> Moved
    requires usable { IsUsable (R.tables rows.now) }
    requires knows { KnowsNodes (R.tables rows.now) known.old }
    ensures stays { KnowsNodes (R.tables rows.now) known.new }
    ensures goes_on { KnowsNodes (apply_changes (R.tables rows.now) changes.now) known.new }
    ensures moved { AreMoved (apply_changes (R.tables rows.now) changes.now) result }
{
    let moved = known.forget_changed(rows, changes);
    moved
}

/// `KnownPlaces::forget_changed`.
pub fn forget_places<R: Rows>(known: &mut KnownPlaces, rows: &R, changes: &[Change]) -> PlacesAfter
    requires usable { IsUsable (R.tables rows.now) }
    requires knows { KnowsPlaces (R.tables rows.now) known.old }
    ensures stays { KnowsPlaces (R.tables rows.now) known.new }
    ensures goes_on { KnowsPlaces (apply_changes (R.tables rows.now) changes.now) known.new }
    ensures after { IsAfter (apply_changes (R.tables rows.now) changes.now) result }
{
    let after = known.forget_changed(rows, changes);
    after
}

/// `KnownSurvey::forget_changed`.
pub fn forget_surveys<R: Rows>(known: &mut KnownSurvey, rows: &R, changes: &[Change])
    requires usable { IsUsable (R.tables rows.now) }
    requires knows { KnowsSurvey (R.tables rows.now) known.old }
    ensures stays { KnowsSurvey (R.tables rows.now) known.new }
    ensures goes_on { KnowsSurvey (apply_changes (R.tables rows.now) changes.now) known.new }
{
    known.forget_changed(rows, changes);
}

/// `KnownSurvey::pass_time`.
pub fn pass_time(known: &mut KnownSurvey)
    ensures { (t : Tables) (clock : ℕ) → t.clock ≤ clock → KnowsSurvey t known.old →
        KnowsSurvey (record t { clock = clock }) known.new }
{
    known.pass_time();
}

/// `SpreadTree::is_for`.
pub fn is_for(tree: &SpreadTree, task: &Task) -> bool
    ensures { IsTrue result ↔ IsFor task.now tree.now }
{
    let is_for = tree.is_for(task);
    is_for
}

/// `SpreadTree::drop_task`.
pub fn drop_task(tree: &mut SpreadTree, node: Id)
    requires { HasTask tree.old node }
    ensures { tree.new ≡ with_change one_fewer tree.old node }
{
    tree.drop_task(node);
}
