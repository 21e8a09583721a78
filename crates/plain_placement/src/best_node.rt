// The best node for a task.
ghost use Rattle.std.specs.Prelude.{◌≡◌, [], Some, cond};
ghost use Rattle.std.specs.Cmp.Lexicographic.{slice_cmp};
ghost use Rattle.std.specs.Option.{option_copied};
ghost use Rattle.std.specs.Ordering.{nat_cmp, ordering_then};
ghost use Rattle.plain_placement.specs.Inside.Loads.{HoldsBest, IsLoad};
ghost use Rattle.swarm_objects.specs.Nodes.BestNode.{agrees, best_node, branch_load, node_cmp, spread_cmp};
ghost use Rattle.swarm_objects.specs.Nodes.Constraints.{key_value};
ghost use Rattle.swarm_objects.specs.Rows.{keep_least};
ghost use Rattle.swarm_plain.specs.Plain.{world_of};

use crate::filters::here;
use crate::loads::{NodeLoad, load_if_open};
use std::cmp::Ordering;
use swarm_objects::{Id, Key, Node, Task};
use swarm_plain::Plain;
use swarm_sched::{agrees, value_cmp};
use swarm_spread::key_value;

// The service's tasks on all nodes, admitting or not, that agree with this one on the keys.
fn branch_load(plain: &Plain, service: Id, keys: &[Key], node: &Node) -> u128
    ensures { result ≡ branch_load (world_of plain.now).tables service keys.now node.now }
{
    let mut sum = 0;
    for other in plain.nodes.as_slice() {
        if agrees(keys, node, other) {
            sum += here(plain, other.id, service) as u128;
        }
    }
    sum
}

// By the last preference of those that were looked at: the load of the branch, and then the branch's value.
fn branch_cmp(plain: &Plain, service: Id, keys: &[Key], last: &Key, a: &Node, b: &Node) -> Ordering
    ensures { let branch = branch_load (world_of plain.now).tables service keys.now in
        result ≡ ordering_then (nat_cmp (branch a.now) (branch b.now))
        (slice_cmp nat_cmp (key_value a.now last.now) (key_value b.now last.now)) }
{
    branch_load(plain, service, keys, a)
        .cmp(&branch_load(plain, service, keys, b))
        .then(value_cmp(last, a, b))
}

// By each preference in turn.
fn spread_cmp(plain: &Plain, service: Id, keys: &[Key], a: &Node, b: &Node) -> Ordering
    ensures { result ≡ spread_cmp (world_of plain.now).tables service [] keys.now a.now b.now }
{
    for depth in 0..keys.len() {
        let order = branch_cmp(plain, service, &keys[..=depth], &keys[depth], a, b);
        if order != Ordering::Equal {
            return order;
        }
    }
    Ordering::Equal
}

// Which of two nodes with these loads comes first for the task.
fn compare(
    plain: &Plain,
    task: &Task,
    a: &Node,
    load_of_a: NodeLoad,
    b: &Node,
    load_of_b: NodeLoad,
) -> Ordering
    requires a { IsLoad (world_of plain.now).tables a.now.id task.now.service load_of_a }
    requires b { IsLoad (world_of plain.now).tables b.now.id task.now.service load_of_b }
    ensures { result ≡ node_cmp (world_of plain.now).tables task.now a.now b.now }
{
    spread_cmp(plain, task.service, task.template.spread.as_slice(), a, b)
        .then(load_of_a.here.cmp(&load_of_b.here))
        .then(load_of_a.live.cmp(&load_of_b.live))
        .then(a.id.cmp(&b.id))
}

// The node with this load comes before the best one so far, which has that load.
fn comes_first(
    plain: &Plain,
    task: &Task,
    node: &Node,
    load: NodeLoad,
    best: Option<&Node>,
    best_load: NodeLoad,
) -> bool
    requires node { IsLoad (world_of plain.now).tables node.now.id task.now.service load }
    requires best { HoldsBest (world_of plain.now).tables task.now.service (option_copied best) best_load }
    ensures { let order = node_cmp (world_of plain.now).tables task.now in
        keep_least order (option_copied best.entry) node.now
        ≡ cond result (Some node.now) (option_copied best.entry) }
{
    match best {
        None => true,
        Some(best) => compare(plain, task, node, load, best, best_load) == Ordering::Less,
    }
}

/// The best of the nodes that admit the task.
pub fn best_node<'a>(plain: &'a Plain, task: &Task) -> Option<&'a Node>
    ensures { option_copied result ≡ best_node (world_of plain.now).tables task.now }
{
    let mut best = None;
    let mut best_load = NodeLoad {
        cpu: 0,
        mem: 0,
        here: 0,
        live: 0,
    };
    for node in plain.nodes.as_slice() {
        if let Some(load) = load_if_open(plain, task, node) {
            if comes_first(plain, task, node, load, best, best_load) {
                best = Some(node);
                best_load = load;
            }
        }
    }
    best
}
