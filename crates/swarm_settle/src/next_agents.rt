// The first agent in a span.
ghost use Rattle.std.specs.Prelude.{◌≡◌, find};
ghost use Rattle.std.specs.Option.{option_map};
ghost use Rattle.swarm_agent.specs.Agent.{at_node};
ghost use Rattle.swarm_agent.specs.Times.{seen_agent};
ghost use Rattle.swarm_objects.specs.Rows.{RisesFrom, agent_node};
ghost use Rattle.swarm_spans.specs.Spans.{is_in};

use swarm_agent::{Agent, Agents};
use swarm_objects::Id;
use swarm_spans::Span;

/// The first agent in the span, with its node.
#[tactic(auto, using(crate::proofs::NextAgents::agents))]
pub fn next_agent_in<'a>(agents: &'a Agents, span: &Span) -> Option<(&'a Id, &'a Agent)>
    requires { RisesFrom agent_node 0 agents.now }
    ensures { option_map (λ p. seen_agent (at_node p.0.now p.1.now)) result
        ≡ find (λ a. is_in span.now a.node) agents.now }
{
    let mut after = span.after;
    while after < span.high {
        let Some((node, agent)) = agents.next(span.skip(after)) else {
            return None;
        };
        if span.has(*node) {
            return Some((node, agent));
        }
        after = *node;
    }
    None
}
