// The scheduler: its duties, and the doing of them.
ghost use Rattle.std.specs.Prelude.{◌≡◌, IfOk, None, option_to_list};
ghost use Rattle.std.specs.List.{list_any};
ghost use Rattle.plain_placement.specs.Inside.Scheduling.{is_scheduled};
ghost use Rattle.swarm_objects.specs.Changes.{change_task, in_state, noted, placed, with_tables};
ghost use Rattle.swarm_objects.specs.Duties.{effect_by, is_due};
ghost use Rattle.swarm_objects.specs.Kinds.{same_duty};
ghost use Rattle.swarm_objects.specs.Loops.Scheduler.{is_to_drop, is_to_place, placing, schedule, scheduler};
ghost use Rattle.swarm_objects.specs.Rows.{change_row, task_id};
ghost use Rattle.swarm_plain.specs.Entries.{HasOrder};
ghost use Rattle.swarm_plain.specs.Plain.{tables_of, world_of};

use crate::allocator::set_note;
use crate::best_node::best_node;
use crate::filters::refusal_counts;
use swarm_objects::{Duty, Id, List, Ms, NoMemory, Note, Rows, Task, TaskState, Version, add};
use swarm_plain::Plain;
use swarm_sched::{is_to_drop, is_to_place};

// The note of a task that no node admits is to say why, unless it does.
fn explanation(plain: &Plain, task: &Task) -> Option<Duty>
    ensures { option_to_list result ≡ placing (world_of plain.now).tables task.now None }
{
    if Note::Filters(refusal_counts(plain, task)) == task.note {
        None
    } else {
        Some(Duty::Explain(task.id))
    }
}

// What there is to do about the task.
fn schedule(plain: &Plain, task: &Task) -> Option<Duty>
    ensures { option_to_list result ≡ schedule (world_of plain.now).tables task.now }
{
    if is_to_drop(task) {
        return Some(Duty::Drop(task.id));
    }
    if !is_to_place(task) {
        return None;
    }
    match best_node(plain, task) {
        Some(node) => Some(Duty::Place(task.id, node.id)),
        None => explanation(plain, task),
    }
}

/// The tasks that are to be dropped or placed, or whose notes are to say why they are not.
pub fn scheduler_duties(plain: &Plain) -> Result<List<Duty>, NoMemory>
    ensures { IfOk result (λ duties. duties ≡ scheduler (world_of plain.now).tables) }
{
    let mut duties = List::new(plain.alloc);
    for task in plain.tasks.as_slice() {
        if let Some(duty) = schedule(plain, task) {
            add(&mut duties, duty)?;
        }
    }
    Ok(duties)
}

// The duty is to drop the task.
fn is_drop(due: Option<Duty>, task: Id) -> bool
    ensures { result ≡ list_any (same_duty (Duty.Drop task)) (option_to_list due) }
{
    match due {
        Some(Duty::Drop(id)) => id == task,
        _ => false,
    }
}

// The task is this one, and is to be dropped.
fn is_dropped(plain: &Plain, id: Id, task: &Task) -> bool
    ensures { result ≡ is_scheduled (world_of plain.now).tables id (Duty.Drop id) task.now }
{
    task.id == id && is_drop(schedule(plain, task), id)
}

// One with this id is to be dropped.
fn is_one_dropped(plain: &Plain, id: Id) -> bool
    ensures { let t = (world_of plain.now).tables in result ≡ list_any (is_scheduled t id (Duty.Drop id)) t.tasks }
{
    plain
        .tasks
        .as_slice()
        .iter()
        .any(|task| is_dropped(plain, id, task))
}

/// The task is to be dropped.
pub fn is_drop_due(plain: &Plain, task: Id) -> bool
    ensures { result ≡ is_due (world_of plain.now) (Duty.Drop task) }
{
    is_one_dropped(plain, task)
}

// The duty is to place the task on the node.
fn is_place(due: Option<Duty>, task: Id, node: Id) -> bool
    ensures { result ≡ list_any (same_duty (Duty.Place task node)) (option_to_list due) }
{
    match due {
        Some(Duty::Place(id, best)) => id == task && best == node,
        _ => false,
    }
}

// The task is this one, and goes to the node.
fn goes_to(plain: &Plain, id: Id, node: Id, task: &Task) -> bool
    ensures { result ≡ is_scheduled (world_of plain.now).tables id (Duty.Place id node) task.now }
{
    task.id == id && is_place(schedule(plain, task), id, node)
}

// One with this id goes to the node.
fn one_goes_to(plain: &Plain, id: Id, node: Id) -> bool
    ensures { let t = (world_of plain.now).tables in
        result ≡ list_any (is_scheduled t id (Duty.Place id node)) t.tasks }
{
    plain
        .tasks
        .as_slice()
        .iter()
        .any(|task| goes_to(plain, id, node, task))
}

/// The task is to go to the node.
pub fn is_place_due(plain: &Plain, task: Id, node: Id) -> bool
    ensures { result ≡ is_due (world_of plain.now) (Duty.Place task node) }
{
    one_goes_to(plain, task, node)
}

// The duty is to say why no node admits the task.
fn is_explain(due: Option<Duty>, task: Id) -> bool
    ensures { result ≡ list_any (same_duty (Duty.Explain task)) (option_to_list due) }
{
    match due {
        Some(Duty::Explain(id)) => id == task,
        _ => false,
    }
}

// The task is this one, and its note is to say why no node admits it.
fn is_explained(plain: &Plain, id: Id, task: &Task) -> bool
    ensures { result ≡ is_scheduled (world_of plain.now).tables id (Duty.Explain id) task.now }
{
    task.id == id && is_explain(schedule(plain, task), id)
}

// The note of one with this id is to say so.
fn is_one_explained(plain: &Plain, id: Id) -> bool
    ensures { let t = (world_of plain.now).tables in result ≡ list_any (is_scheduled t id (Duty.Explain id)) t.tasks }
{
    plain
        .tasks
        .as_slice()
        .iter()
        .any(|task| is_explained(plain, id, task))
}

/// The task's note is to say why no node admits it.
pub fn is_explain_due(plain: &Plain, task: Id) -> bool
    ensures { result ≡ is_due (world_of plain.now) (Duty.Explain task) }
{
    is_one_explained(plain, task)
}

// The task with this id is SHUTDOWN now.
fn shut_down(tasks: &mut [Task], version: Version, now: Ms, id: Id)
    ensures { tasks.new ≡ change_row task_id id (in_state version now TaskState.Shutdown) tasks.old }
{
    for task in tasks.iter_mut() {
        if task.id == id {
            task.version = version;
            task.state = TaskState::Shutdown;
            task.since = now;
        }
    }
}

// The task with this id is ASSIGNED to the node now, and its note is empty.
fn place(tasks: &mut [Task], version: Version, now: Ms, id: Id, node: Id)
    ensures { tasks.new ≡ change_row task_id id (placed version now node) tasks.old }
{
    for task in tasks.iter_mut() {
        if task.id == id {
            task.version = version;
            task.state = TaskState::Assigned;
            task.since = now;
            task.node = Some(node);
            task.note = Note::Empty;
        }
    }
}

/// The task is SHUTDOWN without having had a node.
pub fn drop_task(plain: &mut Plain, version: Version, task: Id)
    ensures { world_of plain.new ≡ effect_by version (world_of plain.old) (Duty.Drop task) }
{
    shut_down(plain.tasks.as_mut_slice(), version, plain.clock, task);
}

/// The task goes to the node.
pub fn place_task(plain: &mut Plain, version: Version, task: Id, node: Id)
    ensures { world_of plain.new ≡ effect_by version (world_of plain.old) (Duty.Place task node) }
{
    place(plain.tasks.as_mut_slice(), version, plain.clock, task, node);
}

// The task's note is this one now.
fn note_task(plain: &mut Plain, version: Version, note_now: Note, task: Id)
    ensures { let w = world_of plain.old in
        world_of plain.new ≡ with_tables w (change_task task (noted version note_now) w.tables) }
{
    set_note(plain.tasks.as_mut_slice(), version, note_now, task);
}

/// The task's note says why it has no node.
pub fn explain_task(plain: &mut Plain, version: Version, task: Id)
    requires { HasOrder (tables_of plain.old) }
    ensures { world_of plain.new ≡ effect_by version (world_of plain.old) (Duty.Explain task) }
{
    if let Some(waiting) = plain.task(task) {
        let counts = refusal_counts(plain, waiting);
        note_task(plain, version, Note::Filters(counts), task);
    }
}
