// The first duties about one task whose service is gone.
ghost use Rattle.std.specs.Prelude.{◌≡◌, IfOk, true};
ghost use Rattle.swarm_objects.specs.Bounds.{is_near_task};
ghost use Rattle.swarm_plain.specs.Plain.{tables_of};
ghost use Rattle.swarm_objects.specs.Usable.{IsUsable};

use std::alloc::Global;
use std::test::Fail;
use swarm_objects::{
    Change, Desired, Duty, List, NoMemory, Note, Place, Settings, Shared, Task, TaskState,
    Template, list_of,
};
use swarm_plain::Plain;

// A task with id 1.
pub fn task(alloc: Global, state: TaskState, desired: Desired) -> Result<Task, NoMemory>
    ensures id { IfOk result (λ task. task.id ≡ 1) }
    ensures near { IfOk result (λ task. is_near_task task ≡ true) }
{
    Ok(Task {
        id: 1,
        version: 1,
        service: 7,
        place: Place::Slot(1),
        iteration: 0,
        template: Shared::new(alloc, Template::usual(alloc))?,
        born: 1,
        goal: Desired::Running,
        node: None,
        state,
        since: 0,
        desired,
        created: 0,
        raise_at: 0,
        addresses: List::new(alloc),
        note: Note::Empty,
        closed: None,
    })
}

// The world with this task alone.
#[tactic(auto, using(crate::proofs::Lone::usable_one))]
fn world(alloc: Global, task: Task) -> Result<Plain, NoMemory>
    requires id { task.id ≡ 1 }
    requires near { is_near_task task ≡ true }
    ensures { IfOk result (λ plain. IsUsable (tables_of plain)) }
{
    let tasks = list_of(alloc, task)?;
    Ok(Plain {
        alloc,
        entries: 1,
        clock: 0,
        next_id: 2,
        nodes: List::new(alloc),
        services: List::new(alloc),
        tasks,
        networks: List::new(alloc),
        attempts: List::new(alloc),
        sessions: List::new(alloc),
        settings: Settings::usual(),
        sent: List::new(alloc),
        agents: List::new(alloc),
        watchers: List::new(alloc),
        events: List::new(alloc),
        halted: false,
    })
}

// What is first to be done about it, by the reaper, the loop on replicated services and the scheduler.
fn firsts(
    alloc: Global,
    state: TaskState,
    desired: Desired,
) -> Result<(Option<Duty>, Option<Duty>, Option<Duty>), NoMemory> {
    let plain = world(alloc, task(alloc, state, desired)?)?;
    let reaper = swarm_upkeep::least_reaper(&plain);
    let replicated = swarm_replicated::least(&plain);
    let scheduler = swarm_sched::least(&plain);
    drop(plain);
    Ok((reaper, replicated, scheduler))
}

fn all_others_rest(plain: &Plain) -> bool
    requires { IsUsable (tables_of plain.now) }
{
    swarm_upkeep::least_enforcer(plain).is_none()
        && swarm_restart::least(plain).is_none()
        && swarm_update::least(plain).is_none()
        && swarm_global::least(plain).is_none()
        && swarm_jobs::least(plain).is_none()
        && swarm_alloc::least(plain).is_none()
}

// Whether no other loop has anything to do.
fn others_rest(alloc: Global, state: TaskState, desired: Desired) -> Result<bool, NoMemory> {
    let plain = world(alloc, task(alloc, state, desired)?)?;
    let rest = all_others_rest(&plain);
    drop(plain);
    Ok(rest)
}

#[test]
fn a_task_without_its_service_goes(rt: HostRuntime) -> Result<(), Fail> {
    let alloc = rt.alloc();
    assert_eq!(rt;
        firsts(alloc, TaskState::Pending, Desired::Running)?,
        (None, Some(Duty::Gone(1)), Some(Duty::Explain(1)))
    );
    assert_eq!(rt;
        firsts(alloc, TaskState::Pending, Desired::Remove)?,
        (Some(Duty::Delete(1)), None, Some(Duty::Drop(1)))
    );
    assert!(rt; others_rest(alloc, TaskState::Pending, Desired::Remove)?);
    Ok(())
}

// Whether the one change of a duty drops the task.
fn is_drop_of(changes: &Result<List<Change>, NoMemory>, id: u64) -> Result<bool, NoMemory> {
    let Ok(changes) = changes else {
        return Err(NoMemory);
    };
    match changes.as_slice() {
        [Change::DropTask(task)] => Ok(*task == id),
        _ => Ok(false),
    }
}

fn is_deleted(alloc: Global) -> Result<bool, NoMemory> {
    let plain = world(alloc, task(alloc, TaskState::Pending, Desired::Remove)?)?;
    let changes = swarm_upkeep::changes(alloc, &plain, 2, Duty::Delete(1));
    drop(plain);
    let is_dropped = is_drop_of(&changes, 1);
    drop(changes);
    is_dropped
}

#[test]
fn a_deleted_task_is_dropped(rt: HostRuntime) -> Result<(), Fail> {
    assert!(rt; is_deleted(rt.alloc())?);
    Ok(())
}
