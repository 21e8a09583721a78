// Changes of the tasks of a place that control loops make, as lists.
ghost use Rattle.std.specs.Prelude.{◌≡◌, ◌∷◌, [], IfOk};
ghost use Rattle.swarm_objects.specs.ChangeLists.{Makes, put_each};
ghost use Rattle.swarm_objects.specs.Changes.{on_service, wanted, with_new, without_place};
ghost use Rattle.swarm_objects.specs.Tasks.New.{new_task};
ghost use Rattle.swarm_objects.specs.Tasks.Places.{place_at, place_tasks};
ghost use Rattle.swarm_objects.specs.Tasks.Words.{is_kept};
ghost use Rattle.swarm_objects.specs.Usable.{IsUsable};

use crate::places::place_tasks;
use std::alloc::Global;
use swarm_objects::effects::wanted;
use swarm_objects::{
    Change, Desired, Id, List, NoMemory, Rows, Service, Task, Version, add, list_of,
};

fn removals<R: Rows>(
    alloc: Global,
    rows: &R,
    version: Version,
    service: &Service,
    number: u64,
) -> Result<List<Change>, NoMemory>
    requires { IsUsable (R.tables rows.now) }
    ensures { let t = R.tables rows.now in IfOk result (λ changes. changes
        ≡ put_each is_kept (wanted version Desired.Remove) (place_tasks t service.now number)) }
{
    let mut changes = List::new(alloc);
    for task in place_tasks(rows, service, number) {
        if task.is_kept() {
            add(
                &mut changes,
                Change::PutTask(wanted(alloc, task, version, Desired::Remove)?),
            )?;
        }
    }
    Ok(changes)
}

#[tactic(auto, using(swarm_objects::proofs::Applied::removals_make))]
fn empty_place<R: Rows>(
    alloc: Global,
    rows: &R,
    version: Version,
    service: &Service,
    number: u64,
) -> Result<List<Change>, NoMemory>
    requires { IsUsable (R.tables rows.now) }
    ensures { let t = R.tables rows.now in
        IfOk result (λ changes. Makes t changes (without_place version t service.now number)) }
{
    removals(alloc, rows, version, service, number)
}

/// The tasks of the service's place with this number are to be removed, where the service is there.
#[tactic(auto, using(swarm_objects::proofs::Applied::makes_none))]
pub fn remove_place<R: Rows>(
    alloc: Global,
    rows: &R,
    version: Version,
    service: Id,
    number: u64,
) -> Result<List<Change>, NoMemory>
    requires { IsUsable (R.tables rows.now) }
    ensures { let t = R.tables rows.now in IfOk result
        (λ changes. Makes t changes (on_service t service (λ s. without_place version t s number))) }
{
    match rows.service(service) {
        Some(service) => empty_place(alloc, rows, version, service, number),
        None => Ok(List::new(alloc)),
    }
}

fn newcomer<R: Rows>(
    alloc: Global,
    rows: &R,
    version: Version,
    service: &Service,
    number: u64,
    desired: Desired,
) -> Result<List<Change>, NoMemory>
    ensures { let place = place_at service.now.spec.mode number in IfOk result (λ changes. changes
        ≡ Change.PutTask (new_task version (R.tables rows.now) service.now place desired) ∷ []) }
{
    let place = service.spec.mode.place_at(number);
    list_of(
        alloc,
        Change::PutTask(Task::new(alloc, rows, version, service, place, desired)?),
    )
}

#[tactic(auto, using(swarm_objects::proofs::Applied::newcomer_makes))]
fn fill_place<R: Rows>(
    alloc: Global,
    rows: &R,
    version: Version,
    service: &Service,
    number: u64,
    desired: Desired,
) -> Result<List<Change>, NoMemory>
    requires { IsUsable (R.tables rows.now) }
    ensures { let t = R.tables rows.now in
        IfOk result (λ changes. Makes t changes (with_new version desired t service.now number)) }
{
    newcomer(alloc, rows, version, service, number, desired)
}

/// The service gets a new task in its place with this number, where it is there.
#[tactic(auto, using(swarm_objects::proofs::Applied::makes_none))]
pub fn create_task<R: Rows>(
    alloc: Global,
    rows: &R,
    version: Version,
    service: Id,
    number: u64,
    desired: Desired,
) -> Result<List<Change>, NoMemory>
    requires { IsUsable (R.tables rows.now) }
    ensures { let t = R.tables rows.now in IfOk result
        (λ changes. Makes t changes (on_service t service (λ s. with_new version desired t s number))) }
{
    match rows.service(service) {
        Some(service) => fill_place(alloc, rows, version, service, number, desired),
        None => Ok(List::new(alloc)),
    }
}
