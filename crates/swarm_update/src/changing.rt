// What the duties change.
ghost use Rattle.std.specs.Prelude.{◌≡◌, IfOk};
ghost use Rattle.swarm_objects.specs.Kinds.{role_of};
ghost use Rattle.swarm_objects.specs.Loops.Update.{
  after_fail,
  after_finish,
  after_replace,
  after_start,
  after_swap,
};
ghost use Rattle.swarm_objects.specs.declared.loops.Role.TheVariants as role;
ghost use Rattle.swarm_objects.specs.ChangeLists.{Makes};
ghost use Rattle.swarm_objects.specs.Effects.{after_duty};
ghost use Rattle.swarm_objects.specs.Usable.{IsUsable};

use crate::failing::fail_run;
use crate::replacing::{replace_place, swap_place};
use crate::starting::{finish_run, start_run};
use std::alloc::Global;
use swarm_objects::{Change, Duty, Id, List, NoMemory, Rows, Version};

// Each duty on its service, where that is there.

#[tactic(auto, using(crate::proofs::Running::id_steps))]
fn start<R: Rows>(
    alloc: Global,
    rows: &R,
    version: Version,
    service: Id,
) -> Result<List<Change>, NoMemory>
    requires { IsUsable (R.tables rows.now) }
    ensures { let t = R.tables rows.now in
        IfOk result (λ changes. Makes t changes (after_start version t service)) }
{
    match rows.service(service) {
        Some(service) => start_run(alloc, rows, version, service),
        None => Ok(List::new(alloc)),
    }
}

#[tactic(auto, using(crate::proofs::Running::id_steps))]
fn fail<R: Rows>(
    alloc: Global,
    rows: &R,
    version: Version,
    service: Id,
) -> Result<List<Change>, NoMemory>
    requires { IsUsable (R.tables rows.now) }
    ensures { let t = R.tables rows.now in
        IfOk result (λ changes. Makes t changes (after_fail version t service)) }
{
    match rows.service(service) {
        Some(service) => fail_run(alloc, rows, version, service),
        None => Ok(List::new(alloc)),
    }
}

#[tactic(auto, using(crate::proofs::Running::id_steps))]
fn finish<R: Rows>(
    alloc: Global,
    rows: &R,
    version: Version,
    service: Id,
) -> Result<List<Change>, NoMemory>
    requires { IsUsable (R.tables rows.now) }
    ensures { let t = R.tables rows.now in
        IfOk result (λ changes. Makes t changes (after_finish version t service)) }
{
    match rows.service(service) {
        Some(service) => finish_run(alloc, rows, version, service),
        None => Ok(List::new(alloc)),
    }
}

#[tactic(auto, using(crate::proofs::Running::id_steps))]
fn swap<R: Rows>(
    alloc: Global,
    rows: &R,
    version: Version,
    service: Id,
    number: u64,
) -> Result<List<Change>, NoMemory>
    requires { IsUsable (R.tables rows.now) }
    ensures { let t = R.tables rows.now in
        IfOk result (λ changes. Makes t changes (after_swap version t service number)) }
{
    match rows.service(service) {
        Some(service) => swap_place(alloc, rows, version, service, number),
        None => Ok(List::new(alloc)),
    }
}

#[tactic(auto, using(crate::proofs::Running::id_steps))]
fn replace<R: Rows>(
    alloc: Global,
    rows: &R,
    version: Version,
    service: Id,
    number: u64,
) -> Result<List<Change>, NoMemory>
    requires { IsUsable (R.tables rows.now) }
    ensures { let t = R.tables rows.now in
        IfOk result (λ changes. Makes t changes (after_replace version t service number)) }
{
    match rows.service(service) {
        Some(service) => replace_place(alloc, rows, version, service, number),
        None => Ok(List::new(alloc)),
    }
}

/// The changes that a duty on updates makes as the entry with this number. Whether it is due isn't asked: what isn't
/// there is left out.
pub fn changes<R: Rows>(
    alloc: Global,
    rows: &R,
    version: Version,
    duty: Duty,
) -> Result<List<Change>, NoMemory>
    requires usable { IsUsable (R.tables rows.now) }
    requires own { role_of duty ≡ role.Update }
    ensures { let t = R.tables rows.now in
        IfOk result (λ changes. Makes t changes (after_duty version t duty)) }
{
    match duty {
        Duty::Start(service) => start(alloc, rows, version, service),
        Duty::Fail(service) => fail(alloc, rows, version, service),
        Duty::Swap(service, number) => swap(alloc, rows, version, service, number),
        Duty::Replace(service, number) => replace(alloc, rows, version, service, number),
        Duty::Finish(service) => finish(alloc, rows, version, service),
        _ => Ok(List::new(alloc)),
    }
}
