// What the duties change.
ghost use Rattle.std.specs.Prelude.{◌≡◌, ◌⊎◌, IfOk};
ghost use Rattle.swarm_objects.specs.Kinds.{role_of};
ghost use Rattle.swarm_objects.specs.declared.loops.Role.TheVariants as role;
ghost use Rattle.swarm_objects.specs.ChangeLists.{Makes};
ghost use Rattle.swarm_objects.specs.Effects.{after_duty};
ghost use Rattle.swarm_objects.specs.Usable.{IsUsable};

use std::alloc::Global;
use swarm_objects::effects::drop_task;
use swarm_objects::states::set_state;
use swarm_objects::{Change, Duty, List, NoMemory, Rows, TaskState, Version};

/// The changes that a duty of the reaper or the enforcer makes as the entry with this number. What isn't due any more
/// may be asked for too: a task that isn't there is left out.
pub fn changes<R: Rows>(
    alloc: Global,
    rows: &R,
    version: Version,
    duty: Duty,
) -> Result<List<Change>, NoMemory>
    requires usable { IsUsable (R.tables rows.now) }
    requires own { (role_of duty ≡ role.Reaper) ⊎ (role_of duty ≡ role.Enforcer) }
    ensures { let t = R.tables rows.now in
        IfOk result (λ changes. Makes t changes (after_duty version t duty)) }
{
    match duty {
        Duty::Reject(task) => set_state(alloc, rows, version, task, TaskState::Rejected),
        Duty::Delete(task) | Duty::Trim(task) => drop_task(alloc, rows, task),
        _ => Ok(List::new(alloc)),
    }
}
