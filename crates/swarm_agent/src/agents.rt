// The agents of nodes, by rising node.
ghost use Rattle.std.specs.Prelude.{◌≡◌, ◌<◌, [], List as Seq, OnErr, OnOk, ℕ, map, true};
ghost use Rattle.std.specs.List.{list_all};
ghost use Rattle.std.specs.Option.{option_copied, option_map};
ghost use Rattle.swarm_agent.specs.Agent.{at_node, executor_state};
ghost use Rattle.swarm_agent.specs.Agents.{AppliesOn, Changes, agent_row, agents_below, executor_on};
ghost use Rattle.swarm_agent.specs.Times.{on_executors, seen_agent};
ghost use Rattle.swarm_objects.specs.Agents.NodeAgents.{failed_agent, in_mode, mode_after_start, mode_after_stop, started_agent};
ghost use Rattle.swarm_objects.specs.Agents.Messages.{change_executor};
ghost use Rattle.swarm_objects.specs.Bounds.{far_end, is_near_change};
ghost use Rattle.swarm_objects.specs.Loops.Agents.{begun, received, stepped, told};
ghost use Rattle.swarm_objects.specs.Rows.{agent_node, drop_row, executor_task, row_above, row_at, with_row};
ghost use Rattle.swarm_objects.specs.declared.agents.NodeAgent.{NodeAgent};

use crate::agent::{Agent, ApplyFault};
use std::alloc::Global;
use std::collections::BTreeMap;
use std::collections::btree_map::Iter;
use std::marker::Model;
use std::ops::Bound;
use swarm_objects::{Id, Message, Ms, NoMemory, TaskState};

/// The agents of nodes, by rising node. Contracts see them as a world has them, but for times that no step looks at
/// (`theorems::times_that_no_step_looks_at`); a call on a node that has no agent changes nothing. Only `insert` and
/// `apply` take memory.
#[derive(Drop)]
pub struct Agents {
    rows: BTreeMap<Id, Agent>,
}

impl Model for Agents {
    ghost use Rattle.std.specs.Prelude.{List, map};
    ghost use Rattle.swarm_agent.specs.Agents.{agent_row};
    ghost use Rattle.swarm_objects.specs.MapEntries.{entry_key};
    ghost use Rattle.swarm_objects.specs.Rows.{IsRising};
    ghost use Rattle.swarm_objects.specs.declared.agents.NodeAgent.{NodeAgent};

    ghost Value = { List NodeAgent };

    ghost view = { λ a. map agent_row a.rows.entries };

    ghost invariant = { λ a. IsRising entry_key a.rows.entries };
}

impl Agents {
    /// None.
    pub fn new(alloc: Global) -> Agents
        ensures { result ≡ [] }
    {
        Agents {
            rows: BTreeMap::new(alloc),
        }
    }

    /// Each with its node, by rising node.
    pub fn iter(&self) -> Iter<'_, Id, Agent>
        ensures { map agent_row result ≡ self.now }
    {
        self.rows.iter()
    }

    /// The first of the nodes above this one, with its node.
    pub fn next(&self, after: Id) -> Option<(&Id, &Agent)>
        ensures { option_map (λ p. seen_agent (at_node p.0.now p.1.now)) result
            ≡ row_above agent_node after self.now }
    {
        self.rows
            .range((Bound::Excluded(after), Bound::Unbounded))
            .next()
    }

    /// The agent of the node.
    pub fn get(&self, node: Id) -> Option<&Agent>
        ensures { option_map (λ a. seen_agent (at_node node a)) (option_copied result)
            ≡ row_at agent_node node self.now }
    {
        self.rows.get(&node)
    }

    /// The state of the task's executor on the node.
    pub fn state_of(&self, node: Id, task: Id) -> Option<TaskState>
        ensures { (agents : Seq NodeAgent) → self.now ≡ map seen_agent agents →
            result ≡ option_map executor_state (executor_on node task agents) }
    {
        match self.rows.get(&node) {
            Some(agent) => agent.state_of(task),
            None => None,
        }
    }

    /// The agent comes, or takes the place of the one of its node.
    pub fn insert(&mut self, node: Id, agent: Agent) -> Result<(), NoMemory>
        ensures ok { OnOk result (self.new ≡ with_row agent_node (seen_agent (at_node node agent)) self.old) }
        ensures err { OnErr result (self.new ≡ self.old) }
    {
        match self.rows.insert(node, agent) {
            Ok(_) => Ok(()),
            Err(_) => Err(NoMemory),
        }
    }

    /// The agent of the node goes.
    pub fn remove(&mut self, node: Id)
        ensures { self.new ≡ drop_row agent_node node self.old }
    {
        self.rows.remove(&node);
    }

    /// The agents of this node and of all after it go.
    pub fn cut(&mut self, from: Id)
        ensures { self.new ≡ agents_below from self.old }
    {
        self.rows.retain(|node, _| *node < from);
    }

    /// The node's agent registers under the session.
    pub fn register(&mut self, node: Id, session: Id)
        ensures { Changes node begun self.old self.new }
    {
        match self.rows.get_mut(&node) {
            Some(agent) => agent.register(session),
            None => {}
        }
    }

    /// The node's agent is sent the message.
    pub fn receive(&mut self, node: Id, m: Message)
        requires near { list_all is_near_change m.changes ≡ true }
        ensures { Changes node (received m) self.old self.new }
    {
        match self.rows.get_mut(&node) {
            Some(agent) => agent.receive(m),
            None => {}
        }
    }

    /// The node's agent applies the message in its inbox, if one is there.
    pub fn apply(&mut self, node: Id) -> Result<(), ApplyFault>
        ensures { AppliesOn node self.old result self.new }
    {
        match self.rows.get_mut(&node) {
            Some(agent) => agent.apply(),
            None => Ok(()),
        }
    }

    /// The executor of the task on the node makes the step that is due, if one is.
    pub fn exec(&mut self, node: Id, task: Id, now: Ms)
        requires clock { now < far_end }
        ensures { Changes node (on_executors (change_executor task (stepped now))) self.old self.new }
    {
        match self.rows.get_mut(&node) {
            Some(agent) => agent.exec(task, now),
            None => {}
        }
    }

    /// The state of the task's executor on the node was reported.
    pub fn reported(&mut self, node: Id, task: Id)
        ensures { Changes node (on_executors (change_executor task told)) self.old self.new }
    {
        match self.rows.get_mut(&node) {
            Some(agent) => agent.reported(task),
            None => {}
        }
    }

    /// The executor of the task on the node goes.
    pub fn forget(&mut self, node: Id, task: Id)
        ensures { Changes node (on_executors (drop_row executor_task task)) self.old self.new }
    {
        match self.rows.get_mut(&node) {
            Some(agent) => agent.forget(task),
            None => {}
        }
    }

    /// The node loses power.
    pub fn fail(&mut self, node: Id)
        ensures { (clock : ℕ) → Changes node (failed_agent clock) self.old self.new }
    {
        match self.rows.get_mut(&node) {
            Some(agent) => agent.fail(),
            None => {}
        }
    }

    /// The node has power again.
    pub fn power(&mut self, node: Id)
        ensures { Changes node started_agent self.old self.new }
    {
        match self.rows.get_mut(&node) {
            Some(agent) => agent.power(),
            None => {}
        }
    }

    /// The node's agent is stopped, where it was on.
    pub fn stop(&mut self, node: Id)
        ensures { Changes node (in_mode mode_after_stop) self.old self.new }
    {
        match self.rows.get_mut(&node) {
            Some(agent) => agent.stop(),
            None => {}
        }
    }

    /// The node's agent is on again, where it was stopped.
    pub fn start(&mut self, node: Id)
        ensures { Changes node (in_mode mode_after_start) self.old self.new }
    {
        match self.rows.get_mut(&node) {
            Some(agent) => agent.start(),
            None => {}
        }
    }
}
