// A world that is made entry by entry.
ghost use Rattle.std.specs.Prelude.{◌≡◌};
ghost use Rattle.swarm_duties.specs.Reached.{IsReached};
ghost use Rattle.swarm_objects.specs.Usable.{IsUsableWorld};
ghost use Rattle.swarm_duties.specs.Stepping.{DoesStep};
ghost use Rattle.swarm_objects.specs.World.{empty_world};
ghost use Rattle.swarm_plain.specs.Plain.{world_of};

use crate::steps::{StepFault, step};
use std::alloc::Global;
use std::marker::Model;
use swarm_objects::{Reply, What};
use swarm_plain::Plain;

/// A world that a legal history makes, entry by entry. Contracts see the world.
#[derive(Drop)]
pub struct Replay {
    plain: Plain,
}

impl Model for Replay {
    ghost use Rattle.swarm_duties.specs.Reached.{IsReached};
    ghost use Rattle.swarm_objects.specs.World.{World};
    ghost use Rattle.swarm_plain.specs.Plain.{world_of};

    ghost Value = { World };

    ghost view = { λ r. world_of r.plain };

    ghost invariant = { λ r. IsReached (world_of r.plain) };
}

impl Replay {
    /// The empty world.
    pub fn new(alloc: Global) -> Replay
        ensures { result ≡ empty_world }
    {
        Replay {
            plain: Plain::new(alloc),
        }
    }

    /// The world so far.
    pub fn plain(&self) -> &Plain
        ensures world { world_of result.now ≡ self.now }
        ensures reached { IsReached (world_of result.now) }
        ensures usable { IsUsableWorld (world_of result.now) }
    {
        &self.plain
    }

    /// Does the entry as the next one, and gives its reply; it is illegal exactly where it may not follow. A fault
    /// changes nothing.
    pub fn step(&mut self, what: &What) -> Result<Reply, StepFault>
        ensures { DoesStep self.old what.now result self.new }
    {
        step(&mut self.plain, what)
    }
}
