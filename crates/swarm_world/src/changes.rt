// What the duties of the control loops over the rows change.
ghost use Rattle.std.specs.Prelude.{◌≡◌, IfOk, false};
ghost use Rattle.swarm_objects.specs.Kinds.{role_of};
ghost use Rattle.swarm_objects.specs.ChangeLists.{Makes};
ghost use Rattle.swarm_objects.specs.Effects.{after_duty, is_agents};
ghost use Rattle.swarm_objects.specs.Usable.{IsUsable};
ghost use Rattle.swarm_world.specs.Inside.Records.{tables_of};

use crate::records::Records;
use std::alloc::Global;
use swarm_objects::{Change, Duty, List, NoMemory, Role, Version};

/// The changes that a duty of this control loop makes as the entry with this number.
pub fn changes_of(
    alloc: Global,
    records: &Records,
    version: Version,
    role: Role,
    duty: Duty,
) -> Result<List<Change>, NoMemory>
    requires usable { IsUsable (tables_of records.now) }
    requires own { role_of duty ≡ role }
    requires rows { is_agents role ≡ false }
    ensures { let t = tables_of records.now in
        IfOk result (λ changes. Makes t changes (after_duty version t duty)) }
{
    match role {
        Role::Dispatcher => swarm_sessions::changes(alloc, records, version, duty),
        Role::Enforcer => swarm_upkeep::changes(alloc, records, version, duty),
        Role::Restart => swarm_restart::changes(alloc, records, version, duty),
        Role::Update => swarm_update::changes(alloc, records, version, duty),
        Role::Replicated => swarm_replicated::changes(alloc, records, version, duty),
        Role::Global => swarm_global::changes(alloc, records, version, duty),
        Role::Job => swarm_jobs::changes(alloc, records, version, duty),
        Role::Allocator => swarm_alloc::changes(alloc, records, version, duty),
        Role::Scheduler => swarm_sched::changes(alloc, records, version, duty),
        Role::Reaper => swarm_upkeep::changes(alloc, records, version, duty),
        Role::Agents => unreachable!(),
    }
}
