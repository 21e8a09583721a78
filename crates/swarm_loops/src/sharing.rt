// Which control loops a worker has.
ghost use Rattle.std.specs.Prelude.{◌≡◌, ◌<◌, ◌≤◌, length, ◌++◌, [], ◌∷◌, if◌then◌else◌, ℕ, IfOk, OnOk};
ghost use Rattle.swarm_model.specs.Script.{is_share as is_share_of, share as share_of};
ghost use Rattle.swarm_objects.specs.Rows.{Has};
ghost use Rattle.swarm_objects.specs.declared.loops.Role.{Role};

use std::alloc::Global;
use swarm_objects::{List, NoMemory, Role, add};

// The worker with this number, counted from 1, has the control loop.
fn is_share(worker: u32, workers: u32, role: Role) -> bool
    requires { (1 ≤ worker) × (worker ≤ workers) }
    ensures { result ≡ is_share_of worker workers role }
{
    let dealt = workers.min(11);
    role as u32 % dealt == (worker - 1) % dealt
}

// Puts the loop last, if it is to be there.
fn add_if(shared: &mut List<Role>, role: Role, is_there: bool) -> Result<(), NoMemory>
    ensures { OnOk result (shared.new ≡ if is_there then shared.old ++ role ∷ [] else shared.old) }
{
    if is_there { add(shared, role) } else { Ok(()) }
}

/// The control loops of the worker with this number, counted from 1: every so manieth of all, as there are workers.
/// Where there are more workers than loops, those above share the first ones' loops.
pub fn share(alloc: Global, worker: u32, workers: u32) -> Result<List<Role>, NoMemory>
    requires worker { (1 ≤ worker) × (worker ≤ workers) }
    ensures share { IfOk result (λ roles. roles ≡ share_of worker workers) }
    ensures some { IfOk result (λ roles. 0 < length roles) }
{
    let mut shared = List::new(alloc);
    for role in &Role::ALL {
        add_if(&mut shared, *role, is_share(worker, workers, *role))?;
    }
    Ok(shared)
}

/// A law: each control loop is in the share of some worker, however many there are.
#[tactic(auto, using(crate::proofs::Dealing::is_shared))]
pub fn each_loop_is_shared(workers: u32)
    requires { 1 ≤ workers }
    ensures { (role : Role)
        → (worker : ℕ) × (1 ≤ worker) × (worker ≤ workers) × Has (share_of worker workers) role }
{}
