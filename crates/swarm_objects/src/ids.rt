// The numbers and kinds that all rows share.
ghost use Rattle.std.specs.Prelude.{◌≡◌};
ghost use Rattle.swarm_objects.specs.Values.Texts.{kind_text};

use crate::{Duplicate, NoMemory};
use std::alloc::Global;

/// Milliseconds: a length of time, or a time since the world began.
pub type Ms = u64;

/// The number of a node, service, task, network, session or watcher. Ids begin at 1 and are never used twice.
pub type Id = u64;

/// The number of the entry that last wrote a row. Entries are numbered from 1.
pub type Version = u64;

/// What an id or a name belongs to.
#[derive(Clone, Copy, Debug, PartialEq, Eq)]
pub enum Kind {
    Node,
    Service,
    Task,
    Network,
    Watcher,
}

impl Kind {
    /// Its word in scripts and replies.
    pub const fn as_str(self) -> &'static str
        ensures { result.now ≡ kind_text self }
    {
        match self {
            Kind::Node => "node",
            Kind::Service => "service",
            Kind::Task => "task",
            Kind::Network => "network",
            Kind::Watcher => "watcher",
        }
    }
}

impl Duplicate for Kind {
    fn duplicate(&self, _alloc: Global) -> Result<Kind, NoMemory> {
        Ok(*self)
    }
}
