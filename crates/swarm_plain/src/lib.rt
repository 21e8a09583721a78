// The control plane by plain lists and whole scans.
#![tactic(auto)]

mod details;
mod entries;
pub mod events;
mod faults;
pub mod halving;
pub mod held;
mod messages;
mod names;
mod networks;
mod nodes;
pub mod places;
mod reads;
pub mod remote;
pub mod services;
pub mod tasks;
mod transactions;
mod views;
mod watches;

ghost use Rattle.std.specs.Prelude.{◌≡◌, IfOk};
ghost use Rattle.swarm_objects.specs.World.{empty_world};
ghost use Rattle.swarm_plain.specs.Plain.{world_of};

use std::alloc::Global;
use swarm_objects::{
    Attempt, Duplicate, Event, Id, List, Ms, Network, NoMemory, Node, NodeAgent, NodeSent,
    NodeSession, Service, Settings, Task, Watcher,
};

/// The world as lists of rows, each by rising id. It is the reference that other forms of the world are compared with:
/// every look-up is a scan.
#[derive(Drop)]
pub struct Plain {
    pub alloc: Global,
    /// How many entries made this world.
    pub entries: u64,
    pub clock: Ms,
    /// The id of the next object.
    pub next_id: Id,
    pub nodes: List<Node>,
    pub services: List<Service>,
    pub tasks: List<Task>,
    pub networks: List<Network>,
    pub attempts: List<Attempt>,
    /// At most one of each node, by rising node.
    pub sessions: List<NodeSession>,
    pub settings: Settings,
    /// What was sent to each node in its session, by rising node.
    pub sent: List<NodeSent>,
    /// The agents of the nodes that are inside, by rising node.
    pub agents: List<NodeAgent>,
    pub watchers: List<Watcher>,
    /// The events that a watcher waits for, in order.
    pub events: List<Event>,
    pub halted: bool,
}

impl Plain {
    /// The empty world at time 0.
    pub fn new(alloc: Global) -> Plain
        ensures { world_of result ≡ empty_world }
    {
        Plain {
            alloc,
            entries: 0,
            clock: 0,
            next_id: 1,
            nodes: List::new(alloc),
            services: List::new(alloc),
            tasks: List::new(alloc),
            networks: List::new(alloc),
            attempts: List::new(alloc),
            sessions: List::new(alloc),
            settings: Settings::usual(),
            sent: List::new(alloc),
            agents: List::new(alloc),
            watchers: List::new(alloc),
            events: List::new(alloc),
            halted: false,
        }
    }

    /// An equal world, unless memory is wanting.
    pub fn duplicate(&self) -> Result<Plain, NoMemory>
        ensures { IfOk result (λ same. world_of same ≡ world_of self.now) }
    {
        Ok(Plain {
            alloc: self.alloc,
            entries: self.entries,
            clock: self.clock,
            next_id: self.next_id,
            nodes: self.nodes.duplicate(self.alloc)?,
            services: self.services.duplicate(self.alloc)?,
            tasks: self.tasks.duplicate(self.alloc)?,
            networks: self.networks.duplicate(self.alloc)?,
            attempts: self.attempts.duplicate(self.alloc)?,
            sessions: self.sessions.duplicate(self.alloc)?,
            settings: self.settings,
            sent: self.sent.duplicate(self.alloc)?,
            agents: self.agents.duplicate(self.alloc)?,
            watchers: self.watchers.duplicate(self.alloc)?,
            events: self.events.duplicate(self.alloc)?,
            halted: self.halted,
        })
    }
}
