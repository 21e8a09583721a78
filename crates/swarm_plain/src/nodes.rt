// The operations on nodes.
ghost use Rattle.std.specs.Prelude.{◌≡◌, ◌+◌, ◌^◌, ◌<◌, map, if◌then◌else◌};
ghost use Rattle.swarm_model.specs.Calls.Nodes.{is_left_behind};
ghost use Rattle.swarm_objects.specs.NewRows.{new_node, respecified_node};
ghost use Rattle.swarm_objects.specs.Agents.NodeAgents.{new_agent};
ghost use Rattle.swarm_objects.specs.Changes.{in_state};
ghost use Rattle.swarm_plain.specs.Operations.{AppliesOp};

use crate::Plain;
use crate::names::{node_id, node_named};
use crate::transactions::check_version;
use std::alloc::Global;
use swarm_check::{check_node, new_node, not_found, respecified_node};
use swarm_objects::limits::MOST_NODES;
use swarm_objects::{
    AgentMode, Availability, Duplicate, Id, Kind, Labels, List, Ms, Name, NoMemory, Node,
    NodeAgent, NodeDraft, NodeRole, Op, Refusal, Task, TaskState, Version, drop_row, put_row,
};

// The agent of a node that joins.
fn new_agent(alloc: Global, node: Id) -> NodeAgent
    ensures { result ≡ new_agent node }
{
    NodeAgent {
        node,
        mode: AgentMode::On,
        inbox: None,
        applied: 0,
        executors: List::new(alloc),
    }
}

// Every task of the node up to RUNNING is ORPHANED now.
fn orphan(tasks: &mut [Task], version: Version, now: Ms, node: Id)
    ensures { tasks.new ≡
        map (λ x. if is_left_behind node x then in_state version now TaskState.Orphaned x else x) tasks.old }
{
    for task in tasks.iter_mut() {
        if task.is_on(node) && task.is_not_over() {
            task.version = version;
            task.state = TaskState::Orphaned;
            task.since = now;
        }
    }
}

impl Plain {
    // A node joins, and its agent where it isn't remote.
    pub(crate) fn create_node(
        &mut self,
        version: Version,
        name: &Name,
        draft: &NodeDraft,
    ) -> Result<Id, Refusal>
        requires { self.old.next_id + 1 < 2 ^ 64 }
        ensures { AppliesOp version (Op.CreateNode name.now draft.now) self.old result self.new }
    {
        let id = self.next_id;
        let node = new_node(self.alloc, version, id, name, draft)?;
        if let Err(rule) = check_node(&node) {
            return Err(Refusal::BadSpec(rule));
        }
        if let Some(id) = node_id(self.nodes.as_slice(), name) {
            return Err(Refusal::NameTaken(id));
        }
        let count = self.nodes.len();
        if count >= MOST_NODES {
            return Err(Refusal::TooMany(Kind::Node, count as u64));
        }
        if self.nodes.push(node).is_err() {
            return Err(Refusal::NoMemory);
        }
        if !draft.remote && self.agents.push(new_agent(self.alloc, id)).is_err() {
            self.nodes.truncate(count);
            return Err(Refusal::NoMemory);
        }
        self.next_id += 1;
        Ok(id)
    }

    // A node's labels, role and availability are these.
    pub(crate) fn update_node(
        &mut self,
        version: Version,
        name: &Name,
        asked: Option<Version>,
        labels: &Labels,
        role: NodeRole,
        availability: Availability,
    ) -> Result<Id, Refusal>
        ensures { AppliesOp version (Op.UpdateNode name.now asked labels.now role availability)
            self.old result self.new }
    {
        let Some(node) = node_named(self.nodes.as_slice(), name) else {
            return Err(not_found(self.alloc, Kind::Node, name));
        };
        check_version(asked, node.version)?;
        let new = respecified_node(self.alloc, version, labels, role, availability, node)?;
        if let Err(rule) = check_node(&new) {
            return Err(Refusal::BadSpec(rule));
        }
        let id = node.id;
        put_row(self.alloc, &mut self.nodes, new)?;
        Ok(id)
    }

    // A node leaves, with all that it had. Its tasks up to RUNNING are left behind.
    pub(crate) fn remove_node(
        &mut self,
        version: Version,
        name: &Name,
        force: bool,
    ) -> Result<Id, Refusal>
        ensures { AppliesOp version (Op.RemoveNode name.now force) self.old result self.new }
    {
        let Some(node) = node_named(self.nodes.as_slice(), name) else {
            return Err(not_found(self.alloc, Kind::Node, name));
        };
        let id = node.id;
        if !force && !node.is_down() {
            return Err(Refusal::NodeNotDown(node.state));
        }
        orphan(self.tasks.as_mut_slice(), version, self.clock, id);
        drop_row(&mut self.nodes, id);
        drop_row(&mut self.sessions, id);
        drop_row(&mut self.sent, id);
        drop_row(&mut self.agents, id);
        Ok(id)
    }
}
