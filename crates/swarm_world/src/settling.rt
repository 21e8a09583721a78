// The settle test on the parts of the world.
ghost use Rattle.std.specs.Prelude.{◌≡◌, ◌<◌, IsTrue, List as Seq, Some, true, ℕ};
ghost use Rattle.swarm_model.specs.History.{replay};
ghost use Rattle.swarm_model.specs.Settle.{settle_answer};
ghost use Rattle.swarm_objects.specs.Duties.{first_duty};
ghost use Rattle.swarm_objects.specs.Kinds.{roles};
ghost use Rattle.swarm_objects.specs.declared.calls.Call.TheVariants as call;
ghost use Rattle.swarm_objects.specs.declared.calls.Entry.{Entry};
ghost use Rattle.swarm_agent.specs.Agent.{at_node};
ghost use Rattle.swarm_agent.specs.Times.{seen_agent};
ghost use Rattle.swarm_objects.specs.Rows.{RisesFrom, agent_node};
ghost use Rattle.swarm_settle.specs.Asked.{AreAsked, may_wait};
ghost use Rattle.swarm_spans.specs.Spans.{Covers, IsWider, is_in};
ghost use Rattle.swarm_world.specs.Inside.Marks.{IsMarked};
ghost use Rattle.swarm_world.specs.Inside.Parts.{Answers, HasHistory, StandsFor};
ghost use Rattle.swarm_world.specs.Inside.Records.{tables_of};

use crate::marks::Marks;
use crate::parts::Parts;
use swarm_agent::theorems::times_that_no_step_looks_at;
use swarm_agent::{Agent, Agents};
use swarm_objects::{Duty, Id, Ms, Refusal, Reply, Role, Settle};
use swarm_settle::{Asked, is_on, next_agent_in, settle_by};
use swarm_spans::Span;

impl Marks {
    /// The first duty of the first of these control loops that has one.
    pub fn find_among(&mut self, parts: &Parts, roles: &[Role]) -> Option<Duty>
        requires at { HasHistory parts.now }
        requires marks { IsMarked self.old parts.now }
        ensures first { (h : Seq Entry) → StandsFor parts.now (replay h) → result ≡ first_duty (replay h) roles.now }
        ensures marks { IsMarked self.new parts.now }
    {
        let mut rest = roles;
        while let Some((role, more)) = rest.split_first() {
            match self.find(parts, *role) {
                Some(duty) => return Some(duty),
                None => rest = more,
            }
        }
        None
    }

    /// The settle test: the first duty of the first control loop that has one; else what is waited for, held or paused,
    /// or that all is settled. It takes no memory.
    pub fn settle(&mut self, parts: &Parts) -> Settle
        requires at { HasHistory parts.now }
        requires marks { IsMarked self.old parts.now }
        ensures answer { (h : Seq Entry) → StandsFor parts.now (replay h) → result ≡ settle_answer (replay h) }
        ensures marks { IsMarked self.new parts.now }
    {
        let first = self.find_among(parts, &Role::ALL);
        self.agents.waits = still_waiting(&parts.agents, self.agents.waits);
        parts.settled_by(first, &self.asked())
    }

    // The rows that the settle test asks.
    fn asked(&self) -> Asked
        ensures tasks { result.tasks ≡ self.now.tasks.to_wait }
        ensures updates { result.updates ≡ self.now.timed.updates }
        ensures remotes { result.remotes ≡ self.now.timed.remotes }
        ensures agents { result.agents ≡ Some self.now.agents.waits }
    {
        Asked {
            tasks: self.tasks.to_wait,
            updates: self.timed.updates,
            remotes: self.timed.remotes,
            agents: Some(self.agents.waits),
        }
    }
}

// The agent isn't on, or has an executor with a phase to come.
fn may_wait(agent: &Agent) -> bool
    ensures { (node : ℕ) → may_wait (seen_agent (at_node node agent.now)) ≡ true → IsTrue result }
{
    times_that_no_step_looks_at();
    if !is_on(agent.mode()) {
        return true;
    }
    agent.first_wake() != Ms::MAX
}

// The agent's node too, where the agent may be waited for.
#[tactic(auto, using(crate::proofs::StillWaiting::adding_steps))]
fn add_waiting(node: Id, agent: &Agent, span: &mut Span)
    ensures wider { IsWider span.new span.old }
    ensures own { 0 < node → may_wait (seen_agent (at_node node agent.now)) ≡ true → is_in span.new node ≡ true }
{
    if may_wait(agent) {
        span.add(node);
    }
}

// Of the agents in the span those that may be waited for.
fn still_waiting(agents: &Agents, span: Span) -> Span
    requires ordered { RisesFrom agent_node 0 agents.now }
    requires covers { Covers agent_node may_wait span agents.now }
    ensures { Covers agent_node may_wait result agents.now }
{
    let mut still = Span::empty();
    let mut left = span;
    while let Some((node, agent)) = next_agent_in(agents, &left) {
        add_waiting(*node, agent, &mut still);
        left.pass(*node);
    }
    still
}

impl Parts {
    /// What the settle test answers where this is the first duty of all control loops, or there is none. The spans have
    /// each row that may be waited for, held or paused.
    pub fn settled_by(&self, first: Option<Duty>, asked: &Asked) -> Settle
        requires at { HasHistory self.now }
        requires asked { AreAsked (tables_of self.now.records) self.now.agents asked.now }
        ensures { (h : Seq Entry) → StandsFor self.now (replay h) → first ≡ first_duty (replay h) roles →
            result ≡ settle_answer (replay h) }
    {
        match first {
            Some(duty) => Settle::Busy(duty),
            None => settle_by(&self.records, &self.records.sessions, &self.agents, asked),
        }
    }

    /// A settle line that may take so many duties is answered. Nothing changes.
    pub fn settle(&self, marks: &Marks, budget: u64) -> Result<Reply, Refusal>
        requires at { HasHistory self.now }
        requires marks { IsMarked marks.now self.now }
        ensures { (version : ℕ) (h : Seq Entry) → StandsFor self.now (replay h) →
            Answers version h (call.Settle budget) self.now result self.now }
    {
        let mut marks = marks.apart();
        Ok(Reply::Settle(budget, marks.settle(self)))
    }
}
