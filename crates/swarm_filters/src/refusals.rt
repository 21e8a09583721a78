// Which filter refuses a task a node.
ghost use Rattle.std.specs.Prelude.{◌≡◌, find, not, ℕ};
ghost use Rattle.swarm_filters.specs.Tested.{is_open};
ghost use Rattle.swarm_objects.specs.Nodes.Filters.{is_tested_on, passes, refusal_counts, refused_by};
ghost use Rattle.swarm_objects.specs.Usable.{IsUsable};

use crate::filters::passes;
use swarm_objects::loads::{Loads, Scans};
use swarm_objects::walks::nodes;
use swarm_objects::{Id, Node, Place, Rows, Task};

/// A task whose place is a node is tested on that node alone.
pub fn is_tested_on(place: Place, node: Id) -> bool
    ensures { result ≡ is_tested_on place node }
{
    match place {
        Place::Slot(_) => true,
        Place::On(own) => own == node,
    }
}

// The first of these filters that refuses the task the node.
fn first_refusing<R: Rows, L: Loads>(
    rows: &R,
    loads: &L,
    task: &Task,
    node: &Node,
    filters: &[u32],
) -> Option<u32>
    requires usable { IsUsable (R.tables rows.now) }
    requires same { L.tables loads.now ≡ R.tables rows.now }
    ensures { let refuses = λ (k : ℕ). not (passes (R.tables rows.now) task.now node.now k) in
        result ≡ find refuses filters.now }
{
    for filter in filters {
        if !passes(rows, loads, task, node, *filter) {
            return Some(*filter);
        }
    }
    None
}

/// As `first_refusal`, where it is known what the tasks on each node come to.
pub fn first_refusal_by<R: Rows, L: Loads>(
    rows: &R,
    loads: &L,
    node: &Node,
    task: &Task,
) -> Option<u32>
    requires usable { IsUsable (R.tables rows.now) }
    requires same { L.tables loads.now ≡ R.tables rows.now }
    ensures { result ≡ refused_by (R.tables rows.now) task.now node.now }
{
    first_refusing(rows, loads, task, node, &[0, 1, 2, 3, 4, 5])
}

/// The number of the first filter that refuses the task the node; None where all admit it.
pub fn first_refusal<R: Rows>(rows: &R, node: &Node, task: &Task) -> Option<u32>
    requires { IsUsable (R.tables rows.now) }
    ensures { result ≡ refused_by (R.tables rows.now) task.now node.now }
{
    first_refusal_by(rows, &Scans::new(rows), node, task)
}

/// As `is_open`, where it is known what the tasks on each node come to.
#[tactic(auto, unfolding(crate::specs::Tested::is_open))]
pub fn is_open_by<R: Rows, L: Loads>(rows: &R, loads: &L, task: &Task, node: &Node) -> bool
    requires usable { IsUsable (R.tables rows.now) }
    requires same { L.tables loads.now ≡ R.tables rows.now }
    ensures { result ≡ is_open (R.tables rows.now) task.now node.now }
{
    is_tested_on(task.place, node.id) && first_refusal_by(rows, loads, node, task).is_none()
}

/// The node is tested, and admits the task.
pub fn is_open<R: Rows>(rows: &R, task: &Task, node: &Node) -> bool
    requires { IsUsable (R.tables rows.now) }
    ensures { result ≡ is_open (R.tables rows.now) task.now node.now }
{
    is_open_by(rows, &Scans::new(rows), task, node)
}

/// As `counts`, where it is known what the tasks on each node come to. Each tested node is asked once.
pub fn counts_by<R: Rows, L: Loads>(rows: &R, loads: &L, task: &Task) -> [u64; 6]
    requires usable { IsUsable (R.tables rows.now) }
    requires same { L.tables loads.now ≡ R.tables rows.now }
    ensures { result ≡ refusal_counts (R.tables rows.now) task.now }
{
    let mut counts = [0; 6];
    for node in nodes(rows) {
        if is_tested_on(task.place, node.id)
            && let Some(filter) = first_refusal_by(rows, loads, node, task)
        {
            counts[filter as usize] += 1;
        }
    }
    counts
}

/// For each filter, in order, how many of the tested nodes it refuses the task.
pub fn counts<R: Rows>(rows: &R, task: &Task) -> [u64; 6]
    requires { IsUsable (R.tables rows.now) }
    ensures { result ≡ refusal_counts (R.tables rows.now) task.now }
{
    counts_by(rows, &Scans::new(rows), task)
}
