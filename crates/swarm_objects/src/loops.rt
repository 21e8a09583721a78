// The control loops.
ghost use Rattle.std.specs.Prelude.{◌≡◌};
ghost use Rattle.swarm_objects.specs.DutyTexts.{loop_word};
ghost use Rattle.swarm_objects.specs.Kinds.{roles};

use crate::{Duplicate, NoMemory};
use std::alloc::Global;

/// The control loops, in their order.
#[derive(Clone, Copy, Debug, PartialEq, Eq)]
pub enum Role {
    Dispatcher,
    Enforcer,
    Restart,
    Update,
    Replicated,
    Global,
    Job,
    Allocator,
    Scheduler,
    Reaper,
    Agents,
}

impl Role {
    /// All of them, in their order.
    pub const ALL: [Role; 11] = [
        Role::Dispatcher,
        Role::Enforcer,
        Role::Restart,
        Role::Update,
        Role::Replicated,
        Role::Global,
        Role::Job,
        Role::Allocator,
        Role::Scheduler,
        Role::Reaper,
        Role::Agents,
    ];

    /// Its name, as journals have it.
    pub fn word(self) -> &'static str
        ensures { result.now ≡ loop_word self }
    {
        match self {
            Role::Dispatcher => "dispatcher",
            Role::Enforcer => "enforcer",
            Role::Restart => "restart",
            Role::Update => "update",
            Role::Replicated => "replicated",
            Role::Global => "global",
            Role::Job => "job",
            Role::Allocator => "allocator",
            Role::Scheduler => "scheduler",
            Role::Reaper => "reaper",
            Role::Agents => "agents",
        }
    }
}

/// A law: `Role::ALL` is the list of the definitions, so a loop over it may be spoken of by that.
pub fn all_roles_are_in_order()
    ensures { Role.ALL ≡ roles }
{}

impl Duplicate for Role {
    fn duplicate(&self, _alloc: Global) -> Result<Role, NoMemory> {
        Ok(*self)
    }
}
