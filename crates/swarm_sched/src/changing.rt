// What the duties change.
ghost use Rattle.std.specs.Prelude.{◌≡◌, IfOk};
ghost use Rattle.swarm_objects.specs.Changes.{placed};
ghost use Rattle.swarm_objects.specs.Kinds.{role_of};
ghost use Rattle.swarm_objects.specs.Loops.Scheduler.{after_explain, after_place, explained};
ghost use Rattle.swarm_objects.specs.Rows.{row_at, task_id};
ghost use Rattle.swarm_objects.specs.declared.loops.Role.TheVariants as role;
ghost use Rattle.swarm_objects.specs.ChangeLists.{Makes, put_found};
ghost use Rattle.swarm_objects.specs.Effects.{after_duty};
ghost use Rattle.swarm_objects.specs.Usable.{IsUsable};

use std::alloc::Global;
use swarm_filters::counts;
use swarm_objects::effects::noted;
use swarm_objects::states::set_state;
use swarm_objects::{
    Change, Duplicate, Duty, Id, List, Ms, NoMemory, Note, Rows, Task, TaskState, Version, list_of,
};

// The task, ASSIGNED to the node at this time, with an empty note.
fn placed(alloc: Global, task: &Task, version: Version, now: Ms, node: Id) -> Result<Task, NoMemory>
    ensures { IfOk result (λ row. row ≡ placed version now node task.now) }
{
    let mut row = task.duplicate(alloc)?;
    row.version = version;
    row.state = TaskState::Assigned;
    row.since = now;
    row.node = Some(node);
    row.note = Note::Empty;
    Ok(row)
}

// The task with this id goes to the node, where it is there; as a list.
fn placement<R: Rows>(
    alloc: Global,
    rows: &R,
    version: Version,
    id: Id,
    node: Id,
) -> Result<List<Change>, NoMemory>
    ensures { let t = R.tables rows.now in
        IfOk result (λ changes. changes ≡ put_found (placed version t.clock node) (row_at task_id id t.tasks)) }
{
    match rows.task(id) {
        Some(task) => list_of(
            alloc,
            Change::PutTask(placed(alloc, task, version, rows.now(), node)?),
        ),
        None => Ok(List::new(alloc)),
    }
}

// The task goes to the node.
#[tactic(auto, using(crate::proofs::Scheduling::placement_makes))]
fn place<R: Rows>(
    alloc: Global,
    rows: &R,
    version: Version,
    id: Id,
    node: Id,
) -> Result<List<Change>, NoMemory>
    requires { IsUsable (R.tables rows.now) }
    ensures { let t = R.tables rows.now in
        IfOk result (λ changes. Makes t changes (after_place version t id node)) }
{
    placement(alloc, rows, version, id, node)
}

// The note of the task with this id says why it has no node, where it is there; as a list.
fn explanation<R: Rows>(
    alloc: Global,
    rows: &R,
    version: Version,
    id: Id,
) -> Result<List<Change>, NoMemory>
    requires { IsUsable (R.tables rows.now) }
    ensures { let t = R.tables rows.now in
        IfOk result (λ changes. changes ≡ put_found (explained version t) (row_at task_id id t.tasks)) }
{
    match rows.task(id) {
        Some(task) => {
            let note = Note::Filters(counts(rows, task));
            list_of(alloc, Change::PutTask(noted(alloc, task, version, note)?))
        }
        None => Ok(List::new(alloc)),
    }
}

// The task's note says why it has no node.
#[tactic(auto, using(crate::proofs::Scheduling::explanation_makes))]
fn explain<R: Rows>(
    alloc: Global,
    rows: &R,
    version: Version,
    id: Id,
) -> Result<List<Change>, NoMemory>
    requires { IsUsable (R.tables rows.now) }
    ensures { let t = R.tables rows.now in
        IfOk result (λ changes. Makes t changes (after_explain version t id)) }
{
    explanation(alloc, rows, version, id)
}

/// The changes that a duty of the scheduler makes as the entry with this number. Whether it is due isn't asked: what
/// isn't there is left out.
pub fn changes<R: Rows>(
    alloc: Global,
    rows: &R,
    version: Version,
    duty: Duty,
) -> Result<List<Change>, NoMemory>
    requires usable { IsUsable (R.tables rows.now) }
    requires own { role_of duty ≡ role.Scheduler }
    ensures { let t = R.tables rows.now in
        IfOk result (λ changes. Makes t changes (after_duty version t duty)) }
{
    match duty {
        Duty::Drop(task) => set_state(alloc, rows, version, task, TaskState::Shutdown),
        Duty::Place(task, node) => place(alloc, rows, version, task, node),
        Duty::Explain(task) => explain(alloc, rows, version, task),
        _ => Ok(List::new(alloc)),
    }
}
