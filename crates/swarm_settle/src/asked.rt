// Which rows the settle test asks.
ghost use Rattle.std.specs.Prelude.{List};
ghost use Rattle.swarm_objects.specs.Usable.{IsUsable};
ghost use Rattle.swarm_objects.specs.World.{Tables};
ghost use Rattle.swarm_objects.specs.declared.agents.NodeAgent.{NodeAgent};
ghost use Rattle.swarm_settle.specs.Asked.{AreAsked};

use swarm_spans::Span;

/// Which rows the settle test asks. Each row that may be waited for, held or paused is in its span.
#[derive(Clone, Copy, Drop)]
pub struct Asked {
    /// Tasks that wait to be raised.
    pub tasks: Span,
    /// Services with an update under way, or with a paused run.
    pub updates: Span,
    /// Remote nodes.
    pub remotes: Span,
    /// Nodes of agents that aren't on, or have an executor with a phase to come. Where there is no span, all agents are
    /// asked.
    pub agents: Option<Span>,
}

impl Asked {
    /// All rows and all agents.
    pub fn full() -> Asked
        ensures { (t : Tables) (agents : List NodeAgent) → IsUsable t → AreAsked t agents result }
    {
        Asked {
            tasks: Span::full(),
            updates: Span::full(),
            remotes: Span::full(),
            agents: None,
        }
    }
}
