// What the duties change.
ghost use Rattle.std.specs.Prelude.{◌≡◌, IfOk};
ghost use Rattle.swarm_objects.specs.Kinds.{role_of};
ghost use Rattle.swarm_objects.specs.declared.loops.Role.TheVariants as role;
ghost use Rattle.swarm_objects.specs.ChangeLists.{Makes};
ghost use Rattle.swarm_objects.specs.Effects.{after_duty};
ghost use Rattle.swarm_objects.specs.Usable.{IsUsable};

use role_words::{create_task, remove_place};
use std::alloc::Global;
use swarm_objects::{Change, Desired, Duty, List, NoMemory, Rows, Version};

/// The changes that a duty on global services makes as the entry with this number. Whether it is due isn't asked:
/// what isn't there is left out.
pub fn changes<R: Rows>(
    alloc: Global,
    rows: &R,
    version: Version,
    duty: Duty,
) -> Result<List<Change>, NoMemory>
    requires usable { IsUsable (R.tables rows.now) }
    requires own { role_of duty ≡ role.Global }
    ensures { let t = R.tables rows.now in
        IfOk result (λ changes. Makes t changes (after_duty version t duty)) }
{
    match duty {
        Duty::Leave(service, node) => remove_place(alloc, rows, version, service, node),
        Duty::GlobalCreate(service, node) => create_task(
            alloc,
            rows,
            version,
            service,
            node,
            Desired::Running,
        ),
        _ => Ok(List::new(alloc)),
    }
}
