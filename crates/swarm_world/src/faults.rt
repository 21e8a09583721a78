// Faults of nodes whose agents are inside.
ghost use Rattle.std.specs.Prelude.{List as Seq, ℕ};
ghost use Rattle.swarm_model.specs.History.{replay};
ghost use Rattle.swarm_model.specs.Outcome.{Gets};
ghost use Rattle.swarm_objects.specs.declared.calls.Call.TheVariants as call;
ghost use Rattle.swarm_objects.specs.declared.calls.Entry.{Entry};
ghost use Rattle.swarm_world.specs.Inside.Lookups.{inside};
ghost use Rattle.swarm_world.specs.Inside.Parts.{Answers, StandsFor};

use crate::parts::Parts;
use swarm_check::not_found;
use swarm_objects::{Id, Kind, Name, Refusal, Reply};

impl Parts {
    // The node with this name, whose agent is inside.
    fn inside(&self, name: &Name) -> Result<Id, Refusal>
        ensures { Gets (inside self.now.records.store.tables name.now) result }
    {
        let Some(node) = self.records.store.node_named(name) else {
            return Err(not_found(self.alloc, Kind::Node, name));
        };
        if node.remote {
            return Err(Refusal::WrongKind(node.id));
        }
        Ok(node.id)
    }

    /// The node loses its power.
    pub fn fail_node(&mut self, name: &Name) -> Result<Reply, Refusal>
        ensures { (version : ℕ) (h : Seq Entry) → StandsFor self.old (replay h) →
            Answers version h (call.NodeFail name.now) self.old result self.new }
    {
        match self.inside(name) {
            Ok(node) => {
                self.agents.fail(node);
                Ok(Reply::AgentDone(node))
            }
            Err(refusal) => Err(refusal),
        }
    }

    /// The node has power again.
    pub fn start_node(&mut self, name: &Name) -> Result<Reply, Refusal>
        ensures { (version : ℕ) (h : Seq Entry) → StandsFor self.old (replay h) →
            Answers version h (call.NodeStart name.now) self.old result self.new }
    {
        match self.inside(name) {
            Ok(node) => {
                self.agents.power(node);
                Ok(Reply::AgentDone(node))
            }
            Err(refusal) => Err(refusal),
        }
    }

    /// The agent of the node stops.
    pub fn stop_agent(&mut self, name: &Name) -> Result<Reply, Refusal>
        ensures { (version : ℕ) (h : Seq Entry) → StandsFor self.old (replay h) →
            Answers version h (call.AgentStop name.now) self.old result self.new }
    {
        match self.inside(name) {
            Ok(node) => {
                self.agents.stop(node);
                Ok(Reply::AgentDone(node))
            }
            Err(refusal) => Err(refusal),
        }
    }

    /// The agent of the node runs again.
    pub fn start_agent(&mut self, name: &Name) -> Result<Reply, Refusal>
        ensures { (version : ℕ) (h : Seq Entry) → StandsFor self.old (replay h) →
            Answers version h (call.AgentStart name.now) self.old result self.new }
    {
        match self.inside(name) {
            Ok(node) => {
                self.agents.start(node);
                Ok(Reply::AgentDone(node))
            }
            Err(refusal) => Err(refusal),
        }
    }
}
