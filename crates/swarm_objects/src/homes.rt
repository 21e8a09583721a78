// Words on the nodes of tasks.
ghost use Rattle.std.specs.Prelude.{◌≡◌};
ghost use Rattle.std.specs.Option.{option_copied};
ghost use Rattle.swarm_objects.specs.Homes.{node_of};
ghost use Rattle.swarm_objects.specs.Nodes.Words.{is_astray, is_homed, is_valid};

use crate::{Id, Node, Rows, Task};

/// The task's node, where it has one that is there.
pub fn node_of<'a, R: Rows>(rows: &'a R, task: &Task) -> Option<&'a Node>
    ensures { option_copied result ≡ node_of (R.tables rows.now) task.now }
{
    match task.node {
        Some(node) => rows.node(node),
        None => None,
    }
}

/// The node is there, neither DOWN nor on DRAIN.
pub fn is_valid<R: Rows>(rows: &R, node: Id) -> bool
    ensures { result ≡ is_valid (R.tables rows.now) node }
{
    rows.node(node).is_some_and(Node::is_valid_node)
}

/// The task has a node, and that isn't valid.
pub fn is_astray<R: Rows>(rows: &R, task: &Task) -> bool
    ensures { result ≡ is_astray (R.tables rows.now) task.now }
{
    match task.node {
        Some(node) => !is_valid(rows, node),
        None => false,
    }
}

/// The task has a node, and that is valid.
pub fn is_homed<R: Rows>(rows: &R, task: &Task) -> bool
    ensures { result ≡ is_homed (R.tables rows.now) task.now }
{
    match task.node {
        Some(node) => is_valid(rows, node),
        None => false,
    }
}
