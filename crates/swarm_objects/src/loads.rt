// What the tasks on a node come to, by scans or kept.
ghost use Rattle.std.specs.Prelude.{◌≡◌};
ghost use Rattle.swarm_objects.specs.Nodes.BestNode.{load};
ghost use Rattle.swarm_objects.specs.Nodes.Holdings.{reserved_cpu, reserved_mem};
ghost use Rattle.swarm_objects.specs.World.{Tables};
ghost use Rattle.swarm_objects.specs.Usable.{IsUsable};

use crate::placed::{load, reserved_cpu, reserved_mem};
use crate::{Id, Rows};
use std::marker::Model;

/// What the tasks from ASSIGNED to RUNNING on a node come to, by a scan of the rows or kept beside them.
pub trait Loads {
    /// The tables whose tasks they are.
    ghost tables: { Self → Tables };

    /// How many live ones there are, of all services.
    fn load(&self, node: Id) -> u64
        ensures { result ≡ load (tables self.now) node };

    /// What they reserve of the node's processors, in thousandths.
    fn cpu(&self, node: Id) -> u128
        ensures { result ≡ reserved_cpu (tables self.now) node };

    /// What they reserve of its memory, in bytes.
    fn mem(&self, node: Id) -> u128
        ensures { result ≡ reserved_mem (tables self.now) node };
}

/// A scan of the node's tasks at each look. Contracts see the tables that are read.
#[derive(Drop)]
pub struct Scans<'a, R: Rows> {
    rows: &'a R,
}

impl<'a, R: Rows> Model for Scans<'a, R> {
    ghost use Rattle.swarm_objects.specs.World.{Tables};
    ghost use Rattle.swarm_objects.specs.Usable.{IsUsable};

    ghost Value = { Tables };

    ghost view = { λ s. R.tables s.rows.now };

    ghost invariant = { λ s. IsUsable (R.tables s.rows.now) };
}

impl<'a, R: Rows> Scans<'a, R> {
    /// Scans of these rows.
    pub fn new(rows: &'a R) -> Scans<'a, R>
        requires { IsUsable (R.tables rows.now) }
        ensures { result ≡ R.tables rows.now }
    {
        Scans { rows }
    }
}

impl<'a, R: Rows> Loads for Scans<'a, R> {
    ghost tables = { λ t. t };

    fn load(&self, node: Id) -> u64 {
        load(self.rows, node)
    }

    fn cpu(&self, node: Id) -> u128 {
        reserved_cpu(self.rows, node)
    }

    fn mem(&self, node: Id) -> u128 {
        reserved_mem(self.rows, node)
    }
}
