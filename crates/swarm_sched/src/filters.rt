// The scheduler's test of nodes.
ghost use Rattle.std.specs.Prelude.{◌≡◌};
ghost use Rattle.swarm_objects.specs.Usable.{IsUsable};

use std::marker::Model;
use swarm_filters::is_open_by;
use swarm_objects::loads::Loads;
use swarm_objects::{Node, Rows, Task};
use swarm_spread::Admits;

/// The filters over these rows: a node passes where it is tested for the task, and no filter refuses it. Contracts see
/// the tables that are read.
#[derive(Drop)]
pub struct Filters<'a, R: Rows, L: Loads> {
    rows: &'a R,
    loads: &'a L,
}

impl<'a, R: Rows, L: Loads> Model for Filters<'a, R, L> {
    ghost use Rattle.std.specs.Prelude.{◌≡◌};
    ghost use Rattle.swarm_objects.specs.World.{Tables};
    ghost use Rattle.swarm_objects.specs.Usable.{IsUsable};

    ghost Value = { Tables };

    ghost view = { λ f. R.tables f.rows.now };

    ghost invariant = { λ f. IsUsable (R.tables f.rows.now) × (L.tables f.loads.now ≡ R.tables f.rows.now) };
}

impl<'a, R: Rows, L: Loads> Filters<'a, R, L> {
    /// The filters over the rows, where it is known what the tasks on each node come to.
    pub fn new(rows: &'a R, loads: &'a L) -> Filters<'a, R, L>
        requires usable { IsUsable (R.tables rows.now) }
        requires same { L.tables loads.now ≡ R.tables rows.now }
        ensures { result ≡ R.tables rows.now }
    {
        Filters { rows, loads }
    }
}

impl<'a, R: Rows, L: Loads> Admits for Filters<'a, R, L> {
    ghost use Rattle.std.specs.Prelude.{◌&&◌};
    ghost use Rattle.swarm_objects.specs.Nodes.Filters.{admits, is_tested_on};

    ghost test = { λ t n x. is_tested_on x.place n.id && admits t x n };

    #[tactic(auto, unfolding(swarm_filters::specs::Tested::is_open))]
    fn admits(&self, node: &Node, task: &Task) -> bool {
        is_open_by(self.rows, self.loads, task, node)
    }
}
