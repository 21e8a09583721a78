// Tasks that no node admits, and what their notes say of it.
ghost use Rattle.std.specs.Prelude.{◌≡◌, IfSome, None, Some};
ghost use Rattle.swarm_objects.specs.Loops.Scheduler.{placing};
ghost use Rattle.swarm_objects.specs.Nodes.BestNode.{best_node};
ghost use Rattle.swarm_objects.specs.Nodes.Filters.{refusal_counts, refused_by};
ghost use Rattle.swarm_objects.specs.Rows.{Has, first_of};
ghost use Rattle.swarm_objects.specs.Usable.{IsUsable};
ghost use Rattle.swarm_objects.specs.World.{Tables};
ghost use Rattle.swarm_sched.specs.Inside.Known.{Knows};
ghost use Rattle.swarm_sched.specs.Inside.KnownNodes.{KnowsNodes};
ghost use Rattle.swarm_sched.specs.Inside.KnownRefusals.{KnowsOwn};

use crate::known::{KnownLoads, KnownTotals};
use crate::known_nodes::KnownNodes;
use crate::known_refusals::Group;
use crate::totals::OneNode;
use swarm_filters::{counts_by, first_refusal_by, is_tested_on, takes_tasks};
use swarm_objects::walks::nodes;
use swarm_objects::{Duty, Node, Note, Rows, Task};

/// No node admitted the task when it was last gone over. That is a guess for the next time, and decides nothing.
pub fn was_refused(task: &Task) -> bool {
    matches!(task.note, Note::Filters(_))
}

// The filter that refuses the task the node. What the node's tasks come to is remembered.
fn first_refusal_with<R: Rows>(
    rows: &R,
    known: &mut KnownTotals,
    task: &Task,
    node: &Node,
) -> Option<u32>
    requires usable { IsUsable (R.tables rows.now) }
    requires knows { Knows (R.tables rows.now) known.old }
    ensures first { result ≡ refused_by (R.tables rows.now) task.now node.now }
    ensures knows { Knows (R.tables rows.now) known.new }
{
    let totals = known.totals(rows, node.id, task.service);
    let loads = OneNode::new(rows, node.id, totals);
    first_refusal_by(rows, &loads, node, task)
}

// The same, where a filter may be remembered for the task's group. The one that reads the node's session is asked anew.
#[tactic(auto, using(crate::proofs::Remembering::refusal_steps))]
fn first_refusal_of<R: Rows>(
    rows: &R,
    known: &mut KnownTotals,
    group: &mut Group,
    task: &Task,
    node: &Node,
) -> Option<u32>
    requires usable { IsUsable (R.tables rows.now) }
    requires knows { Knows (R.tables rows.now) known.old }
    requires row { Has (R.tables rows.now).nodes node.now }
    requires own { KnowsOwn (R.tables rows.now) task.now (Some group.old) }
    ensures first { result ≡ refused_by (R.tables rows.now) task.now node.now }
    ensures knows { Knows (R.tables rows.now) known.new }
    ensures own { KnowsOwn (R.tables rows.now) task.now (Some group.new) }
{
    if !takes_tasks(rows, node) {
        return Some(0);
    }
    if let Some(filter) = group.recall(node.id) {
        return Some(filter);
    }
    let first = first_refusal_with(rows, known, task, node);
    if let Some(filter) = first {
        group.remember(node.id, filter);
    }
    first
}

// The same, where there may be a group.
fn first_refusal_in<R: Rows>(
    rows: &R,
    known: &mut KnownTotals,
    group: &mut Option<Group>,
    task: &Task,
    node: &Node,
) -> Option<u32>
    requires usable { IsUsable (R.tables rows.now) }
    requires knows { Knows (R.tables rows.now) known.old }
    requires row { Has (R.tables rows.now).nodes node.now }
    requires own { KnowsOwn (R.tables rows.now) task.now group.old }
    ensures first { result ≡ refused_by (R.tables rows.now) task.now node.now }
    ensures knows { Knows (R.tables rows.now) known.new }
    ensures own { KnowsOwn (R.tables rows.now) task.now group.new }
{
    match group {
        Some(group) => first_refusal_of(rows, known, group, task, node),
        None => first_refusal_with(rows, known, task, node),
    }
}

// For each filter how many of the tested nodes it refuses the task, unless a node admits it: it ends with the first
// that does.
fn counts_with<R: Rows>(
    rows: &R,
    known: &mut KnownTotals,
    group: &mut Option<Group>,
    task: &Task,
) -> Option<[u64; 6]>
    requires usable { IsUsable (R.tables rows.now) }
    requires knows { Knows (R.tables rows.now) known.old }
    requires own { KnowsOwn (R.tables rows.now) task.now group.old }
    ensures counts { IfSome result (λ counts. (counts ≡ refusal_counts (R.tables rows.now) task.now)
        × (best_node (R.tables rows.now) task.now ≡ None)) }
    ensures knows { Knows (R.tables rows.now) known.new }
    ensures own { KnowsOwn (R.tables rows.now) task.now group.new }
{
    let mut counts = [0; 6];
    for node in nodes(rows) {
        if !is_tested_on(task.place, node.id) {
            continue;
        }
        let Some(filter) = first_refusal_in(rows, known, group, task, node) else {
            return None;
        };
        counts[filter as usize] += 1;
    }
    Some(counts)
}

/// For each filter how many of the tested nodes it refuses the task, unless a node admits it. What refused a task of
/// its group a node is remembered as long as the node doesn't change.
pub fn counts_if_refused<R: Rows>(rows: &R, known: &mut KnownNodes, task: &Task) -> Option<[u64; 6]>
    requires usable { IsUsable (R.tables rows.now) }
    requires knows { KnowsNodes (R.tables rows.now) known.old }
    ensures counts { IfSome result (λ counts. (counts ≡ refusal_counts (R.tables rows.now) task.now)
        × (best_node (R.tables rows.now) task.now ≡ None)) }
    ensures knows { KnowsNodes (R.tables rows.now) known.new }
{
    let mut group = known.refusals.take(rows, task);
    let counts = counts_with(rows, &mut known.totals, &mut group, task);
    known.refusals.put(group);
    counts
}

/// The note of a task that no node admits is to say so many refusals, unless it does.
pub fn explained(task: &Task, counts: [u64; 6]) -> Option<Duty>
    ensures { (t : Tables) → counts ≡ refusal_counts t task.now → result ≡ first_of (placing t task.now None) }
{
    if Note::Filters(counts) == task.note {
        None
    } else {
        Some(Duty::Explain(task.id))
    }
}

/// The note of a task that no node admits is to say why, unless it does.
pub fn explanation<R: Rows>(rows: &R, known: &KnownTotals, task: &Task) -> Option<Duty>
    requires usable { IsUsable (R.tables rows.now) }
    requires knows { Knows (R.tables rows.now) known.now }
    ensures { result ≡ first_of (placing (R.tables rows.now) task.now None) }
{
    let loads = KnownLoads::new(rows, known);
    explained(task, counts_by(rows, &loads, task))
}
