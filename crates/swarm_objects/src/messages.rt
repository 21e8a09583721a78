// What agents are told of their tasks.
ghost use Rattle.std.specs.Prelude.{◌≡◌};
ghost use Rattle.swarm_objects.specs.Agents.Messages.{assigned};

use crate::{Desired, Duplicate, Id, List, NoMemory, Task, Workload};
use std::alloc::Global;

/// What an agent is told of one task.
#[derive(Clone, Copy, PartialEq, Eq)]
pub struct Assigned {
    pub task: Id,
    pub desired: Desired,
    pub workload: Workload,
}

/// A change of what an agent is to run.
#[derive(Clone, Copy, PartialEq, Eq)]
pub enum AssignChange {
    Update(Assigned),
    Remove(Id),
}

/// What an agent is told: everything, or the changes since the last message.
#[derive(Drop)]
pub struct Message {
    /// The changes are all that is assigned.
    pub complete: bool,
    /// The number of the message before, and 0 of the first.
    pub applies_to: u64,
    pub results_in: u64,
    /// By rising task.
    pub changes: List<AssignChange>,
}

/// What was sent to a node in its session.
#[derive(Drop)]
pub struct NodeSent {
    pub node: Id,
    /// How many messages; it is the number of the last one.
    pub count: u64,
    /// What the node has by them, by rising task.
    pub tasks: List<Assigned>,
}

impl Duplicate for Assigned {
    fn duplicate(&self, _alloc: Global) -> Result<Assigned, NoMemory> {
        Ok(*self)
    }
}

impl Duplicate for AssignChange {
    fn duplicate(&self, _alloc: Global) -> Result<AssignChange, NoMemory> {
        Ok(*self)
    }
}

impl Duplicate for Message {
    fn duplicate(&self, alloc: Global) -> Result<Message, NoMemory> {
        Ok(Message {
            complete: self.complete,
            applies_to: self.applies_to,
            results_in: self.results_in,
            changes: self.changes.duplicate(alloc)?,
        })
    }
}

impl Duplicate for NodeSent {
    fn duplicate(&self, alloc: Global) -> Result<NodeSent, NoMemory> {
        Ok(NodeSent {
            node: self.node,
            count: self.count,
            tasks: self.tasks.duplicate(alloc)?,
        })
    }
}

/// What its node is told of the task.
pub fn assignment(task: &Task) -> Assigned
    ensures { result ≡ assigned task.now }
{
    Assigned {
        task: task.id,
        desired: task.desired,
        workload: task.template.workload,
    }
}
