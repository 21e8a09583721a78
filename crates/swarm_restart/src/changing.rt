// What the duties change.
ghost use Rattle.std.specs.Prelude.{◌≡◌, ◌==◌, ◌&&◌, IfOk, Some, not};
ghost use Rattle.swarm_objects.specs.Changes.{on_service};
ghost use Rattle.swarm_objects.specs.Kinds.{role_of};
ghost use Rattle.swarm_objects.specs.Loops.Restart.{
  after_raise,
  after_restart,
  by_policy,
  raised,
  restarted,
  shut,
};
ghost use Rattle.swarm_objects.specs.Rows.{row_at, service_id, task_id};
ghost use Rattle.swarm_objects.specs.Tasks.Places.{has_other};
ghost use Rattle.swarm_objects.specs.Tasks.Policy.{no_restart};
ghost use Rattle.swarm_objects.specs.Tasks.Words.{is_live};
ghost use Rattle.swarm_objects.specs.declared.loops.Role.TheVariants as role;
ghost use Rattle.swarm_objects.specs.ChangeLists.{Makes, put_found};
ghost use Rattle.swarm_objects.specs.Effects.{after_duty};
ghost use Rattle.swarm_objects.specs.Usable.{IsUsable};

use crate::closing::close;
use crate::replacing::replace;
use role_words::tasks_of_place;
use std::alloc::Global;
use swarm_objects::effects::{want, wanted};
use swarm_objects::{
    Change, Desired, Duty, Id, List, NoMemory, Rows, Service, Task, Version, list_of,
};
use swarm_policy::no_restart;

// It is a live task, and not this one.
fn is_other_live(task: &Task, other: &Task) -> bool
    ensures { result ≡ (is_live other.now && not (other.now.id == task.now.id)) }
{
    other.is_live() && other.id != task.id
}

// Another live task stands in the task's place.
fn has_other<R: Rows>(rows: &R, service: &Service, task: &Task) -> bool
    requires { IsUsable (R.tables rows.now) }
    ensures { result ≡ has_other (R.tables rows.now) service.now task.now }
{
    tasks_of_place(rows, service, task.place).any(|other| is_other_live(task, other))
}

// Where no other live task stands in the place: a new one comes, or the place is closed.
#[tactic(auto, using(crate::proofs::Steps::delay_fits))]
fn by_policy<R: Rows>(
    alloc: Global,
    rows: &R,
    version: Version,
    service: &Service,
    task: &Task,
) -> Result<List<Change>, NoMemory>
    requires usable { IsUsable (R.tables rows.now) }
    requires there { Some task.now ≡ row_at task_id task.now.id (R.tables rows.now).tasks }
    requires service { Some service.now ≡ row_at service_id task.now.service (R.tables rows.now).services }
    ensures { let t = R.tables rows.now in let shut = shut version task.now.id t in
        IfOk result (λ changes. Makes t changes
        (by_policy version shut service.now task.now.place (no_restart t service.now task.now))) }
{
    match no_restart(rows, service, task) {
        Some(cause) => close(alloc, rows, version, service, task, cause),
        None => replace(alloc, rows, version, service, task),
    }
}

// The task stops. Where no other live task is in its place, the place gets a new task or is closed.
fn restarted<R: Rows>(
    alloc: Global,
    rows: &R,
    version: Version,
    service: &Service,
    task: &Task,
) -> Result<List<Change>, NoMemory>
    requires usable { IsUsable (R.tables rows.now) }
    requires there { Some task.now ≡ row_at task_id task.now.id (R.tables rows.now).tasks }
    requires service { Some service.now ≡ row_at service_id task.now.service (R.tables rows.now).services }
    ensures { let t = R.tables rows.now in
        IfOk result (λ changes. Makes t changes (restarted version t task.now service.now)) }
{
    if has_other(rows, service, task) {
        want(alloc, rows, version, task.id, Desired::Shutdown)
    } else {
        by_policy(alloc, rows, version, service, task)
    }
}

// The same, where its service is there.
#[tactic(auto, using(crate::proofs::Steps::nothing_steps))]
fn restart_task<R: Rows>(
    alloc: Global,
    rows: &R,
    version: Version,
    task: &Task,
) -> Result<List<Change>, NoMemory>
    requires usable { IsUsable (R.tables rows.now) }
    requires there { Some task.now ≡ row_at task_id task.now.id (R.tables rows.now).tasks }
    ensures { let t = R.tables rows.now in IfOk result
        (λ changes. Makes t changes (on_service t task.now.service (restarted version t task.now))) }
{
    match rows.service(task.service) {
        Some(service) => restarted(alloc, rows, version, service, task),
        None => Ok(List::new(alloc)),
    }
}

// The same by its id, where it is there.
#[tactic(auto, using(crate::proofs::Steps::id_steps))]
fn restart<R: Rows>(
    alloc: Global,
    rows: &R,
    version: Version,
    id: Id,
) -> Result<List<Change>, NoMemory>
    requires { IsUsable (R.tables rows.now) }
    ensures { let t = R.tables rows.now in
        IfOk result (λ changes. Makes t changes (after_restart version t id)) }
{
    match rows.task(id) {
        Some(task) => restart_task(alloc, rows, version, task),
        None => Ok(List::new(alloc)),
    }
}

// The task with this id is to reach its goal, where it is there; as a list.
fn raising<R: Rows>(
    alloc: Global,
    rows: &R,
    version: Version,
    id: Id,
) -> Result<List<Change>, NoMemory>
    ensures { let t = R.tables rows.now in
        IfOk result (λ changes. changes ≡ put_found (raised version) (row_at task_id id t.tasks)) }
{
    match rows.task(id) {
        Some(task) => list_of(
            alloc,
            Change::PutTask(wanted(alloc, task, version, task.goal)?),
        ),
        None => Ok(List::new(alloc)),
    }
}

// The task that has waited is to reach its goal.
#[tactic(auto, using(crate::proofs::Steps::raising_makes))]
fn raise<R: Rows>(
    alloc: Global,
    rows: &R,
    version: Version,
    id: Id,
) -> Result<List<Change>, NoMemory>
    requires { IsUsable (R.tables rows.now) }
    ensures { let t = R.tables rows.now in IfOk result (λ changes. Makes t changes (after_raise version t id)) }
{
    raising(alloc, rows, version, id)
}

/// The changes that a duty of the supervisor makes as the entry with this number. Whether it is due isn't asked: what
/// isn't there is left out.
pub fn changes<R: Rows>(
    alloc: Global,
    rows: &R,
    version: Version,
    duty: Duty,
) -> Result<List<Change>, NoMemory>
    requires usable { IsUsable (R.tables rows.now) }
    requires own { role_of duty ≡ role.Restart }
    ensures { let t = R.tables rows.now in
        IfOk result (λ changes. Makes t changes (after_duty version t duty)) }
{
    match duty {
        Duty::Restart(task) => restart(alloc, rows, version, task),
        Duty::Raise(task) => raise(alloc, rows, version, task),
        _ => Ok(List::new(alloc)),
    }
}
