// The addresses of a network that are held, as a list.
ghost use Rattle.std.specs.Prelude.{◌≡◌, ◌++◌, IfOk, OnOk};
ghost use Rattle.swarm_objects.specs.Tasks.Addresses.{addresses_held, addresses_in};
ghost use Rattle.swarm_objects.specs.Usable.{IsUsable};

use std::alloc::Global;
use swarm_objects::walks::tasks;
use swarm_objects::{Id, List, NoMemory, Rows, Task, add};

// Adds the task's addresses of the network.
fn add_addresses(held: &mut List<u32>, network: Id, task: &Task) -> Result<(), NoMemory>
    ensures { OnOk result (held.new ≡ held.old ++ addresses_in network task.now) }
{
    for address in task.addresses.as_slice() {
        if address.network == network {
            add(held, address.number)?;
        }
    }
    Ok(())
}

/// The addresses of the network that tasks up to RUNNING have.
pub fn held_addresses<R: Rows>(alloc: Global, rows: &R, network: Id) -> Result<List<u32>, NoMemory>
    requires { IsUsable (R.tables rows.now) }
    ensures { IfOk result (λ held. held ≡ addresses_held (R.tables rows.now) network) }
{
    let mut held = List::new(alloc);
    for task in tasks(rows) {
        if task.is_not_over() {
            add_addresses(&mut held, network, task)?;
        }
    }
    Ok(held)
}
