// The tick, and faults of nodes whose agents are inside.
ghost use Rattle.std.specs.Prelude.{◌≡◌, map};
ghost use Rattle.swarm_model.specs.Calls.{tick};
ghost use Rattle.swarm_objects.specs.Agents.NodeAgents.{failed_agent, in_mode, lost, mode_after_start, mode_after_stop};
ghost use Rattle.swarm_model.specs.Calls.Faults.{on_agent};
ghost use Rattle.swarm_objects.specs.Agents.NodeAgents.{started_agent};
ghost use Rattle.swarm_objects.specs.Agents.Executors.{is_late};
ghost use Rattle.swarm_objects.specs.Bounds.{IsSmall};
ghost use Rattle.swarm_objects.specs.Rows.{agent_node, change_row};
ghost use Rattle.swarm_plain.specs.Plain.{AnswersCall, tables_of, world_of};
ghost use Rattle.swarm_model.specs.Outcome.{Gets};
ghost use Rattle.swarm_plain.specs.Inside.Lookups.{inside};

use crate::Plain;
use crate::names::node_named;
use swarm_agent::is_late;
use swarm_check::not_found;
use swarm_objects::limits::LONGEST_TICK;
use swarm_objects::{
    AgentMode, Executor, Id, Kind, Ms, Name, NodeAgent, Refusal, Reply, TaskState,
};

// What starts or runs has failed now.
fn lose(executors: &mut [Executor], clock: Ms)
    ensures { executors.new ≡ map (lost clock) executors.old }
{
    for executor in executors.iter_mut() {
        if is_late(executor.state) {
            executor.state = TaskState::Failed;
            executor.since = clock;
        }
    }
}

// The node loses its power, and its agent what starts or runs.
fn fail(agents: &mut [NodeAgent], clock: Ms, node: Id)
    ensures { agents.new ≡ change_row agent_node node (failed_agent clock) agents.old }
{
    for agent in agents.iter_mut() {
        if agent.node == node {
            agent.mode = AgentMode::PowerOff;
            lose(agent.executors.as_mut_slice(), clock);
        }
    }
}

// The node has power, and its agent runs.
fn start(agents: &mut [NodeAgent], node: Id)
    ensures { agents.new ≡ change_row agent_node node started_agent agents.old }
{
    for agent in agents.iter_mut() {
        if agent.node == node {
            agent.mode = AgentMode::On;
        }
    }
}

fn mode_after_stop(mode: AgentMode) -> AgentMode
    ensures { result ≡ mode_after_stop mode }
{
    match mode {
        AgentMode::On | AgentMode::AgentOff => AgentMode::AgentOff,
        AgentMode::PowerOff => AgentMode::PowerOff,
    }
}

fn mode_after_start(mode: AgentMode) -> AgentMode
    ensures { result ≡ mode_after_start mode }
{
    match mode {
        AgentMode::On | AgentMode::AgentOff => AgentMode::On,
        AgentMode::PowerOff => AgentMode::PowerOff,
    }
}

// The agent stops, unless its node has no power.
fn stop_agent(agents: &mut [NodeAgent], node: Id)
    ensures { agents.new ≡ change_row agent_node node (in_mode mode_after_stop) agents.old }
{
    for agent in agents.iter_mut() {
        if agent.node == node {
            agent.mode = mode_after_stop(agent.mode);
        }
    }
}

// The agent runs again, unless its node has no power.
fn start_agent(agents: &mut [NodeAgent], node: Id)
    ensures { agents.new ≡ change_row agent_node node (in_mode mode_after_start) agents.old }
{
    for agent in agents.iter_mut() {
        if agent.node == node {
            agent.mode = mode_after_start(agent.mode);
        }
    }
}

impl Plain {
    // The clock goes on.
    pub(crate) fn tick(&mut self, ms: Ms) -> Result<Reply, Refusal>
        requires { IsSmall (world_of self.old) }
        ensures { AnswersCall (tick (world_of self.old) ms) self.old result self.new }
    {
        if ms < 1 || ms > LONGEST_TICK {
            return Err(Refusal::BadTick(ms));
        }
        self.clock += ms;
        Ok(Reply::Ticked)
    }

    // The node with this name, whose agent is inside.
    fn inside(&self, name: &Name) -> Result<Id, Refusal>
        ensures { Gets (inside (tables_of self.now) name.now) result }
    {
        let Some(node) = node_named(self.nodes.as_slice(), name) else {
            return Err(not_found(self.alloc, Kind::Node, name));
        };
        if node.remote {
            return Err(Refusal::WrongKind(node.id));
        }
        Ok(node.id)
    }

    // The node loses its power, and what starts or runs on it.
    pub(crate) fn node_fail(&mut self, name: &Name) -> Result<Reply, Refusal>
        ensures { let w = world_of self.old in
            AnswersCall (on_agent w name.now (failed_agent w.tables.clock)) self.old result self.new }
    {
        let node = self.inside(name)?;
        fail(self.agents.as_mut_slice(), self.clock, node);
        Ok(Reply::AgentDone(node))
    }

    // The node has power again, and its agent runs.
    pub(crate) fn node_start(&mut self, name: &Name) -> Result<Reply, Refusal>
        ensures { AnswersCall (on_agent (world_of self.old) name.now started_agent) self.old result self.new }
    {
        let node = self.inside(name)?;
        start(self.agents.as_mut_slice(), node);
        Ok(Reply::AgentDone(node))
    }

    // The node's agent stops; where the node has no power, nothing changes.
    pub(crate) fn agent_stop(&mut self, name: &Name) -> Result<Reply, Refusal>
        ensures { let w = world_of self.old in
            AnswersCall (on_agent w name.now (in_mode mode_after_stop)) self.old result self.new }
    {
        let node = self.inside(name)?;
        stop_agent(self.agents.as_mut_slice(), node);
        Ok(Reply::AgentDone(node))
    }

    // The node's agent runs again; where the node has no power, nothing changes.
    pub(crate) fn agent_start(&mut self, name: &Name) -> Result<Reply, Refusal>
        ensures { let w = world_of self.old in
            AnswersCall (on_agent w name.now (in_mode mode_after_start)) self.old result self.new }
    {
        let node = self.inside(name)?;
        start_agent(self.agents.as_mut_slice(), node);
        Ok(Reply::AgentDone(node))
    }
}
