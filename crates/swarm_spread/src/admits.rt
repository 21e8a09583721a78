// The test by which a node is found.
ghost use Rattle.std.specs.Prelude.{◌≡◌, Bool};
ghost use Rattle.swarm_objects.specs.declared.nodes.Node.{Node as NodeRow};
ghost use Rattle.swarm_objects.specs.declared.tasks.Task.{Task as TaskRow};

use swarm_objects::{Node, Task};

/// A test of the nodes that a task may be placed on.
pub trait Admits {
    /// Whether the node passes.
    ghost test: { Self → NodeRow → TaskRow → Bool };

    /// Whether the task may be placed on the node.
    fn admits(&self, node: &Node, task: &Task) -> bool
        ensures { result ≡ test self.now node.now task.now };
}
