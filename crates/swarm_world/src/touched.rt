// The nodes that changes of rows touch: they are told something else of a task, and their agents may get a duty. It is
// asked before the changes are made, with the rows as they are.
ghost use Rattle.std.specs.Prelude.{IsTrue, Some};
ghost use Rattle.swarm_objects.specs.Rows.{row_at, task_id};
ghost use Rattle.swarm_spans.specs.Spans.{IsWider};
ghost use Rattle.swarm_world.specs.Inside.Records.{tables_of};
ghost use Rattle.swarm_world.specs.Inside.Touches.{AreTouched, HasNodeOf, IsToldAlike, TouchesAllTold, TouchesTold};

use crate::agent_spans::AgentSpans;
use crate::records::Records;
use swarm_objects::{Change, Id, Rows, Task};
use swarm_spans::Span;

// The node to which the task is assigned.
#[tactic(auto, using(crate::proofs::ToldNodes::node_steps))]
fn add_node_of(task: &Task, span: &mut Span)
    ensures wider { IsWider span.new span.old }
    ensures has { HasNodeOf span.new (Some task.now) }
{
    if task.is_below_assigned() {
        return;
    }
    if let Some(node) = task.node {
        span.add(node);
    }
}

// The node to which the task with this id is assigned so far.
#[tactic(auto, using(crate::proofs::ToldNodes::former_steps))]
fn add_former(records: &Records, id: Id, span: &mut Span)
    ensures wider { IsWider span.new span.old }
    ensures has { HasNodeOf span.new (row_at task_id id (tables_of records.now).tasks) }
{
    if let Some(old) = records.task(id) {
        add_node_of(old, span);
    }
}

// Each node is told the same of both.
#[tactic(auto, using(crate::proofs::ToldAlike::told_alike))]
fn is_told_alike(task: &Task, old: &Task) -> bool
    ensures { IsTrue result → IsToldAlike task.now (Some old.now) }
{
    task.id == old.id
        && task.is_below_assigned() == old.is_below_assigned()
        && task.node == old.node
        && task.desired == old.desired
        && task.template.workload == old.template.workload
}

// Each node is told the same of the task as of the row that it replaces: so it is mostly, since a task goes through
// many states and notes.
#[tactic(auto, using(crate::proofs::ToldAlike::row_alike))]
fn stays_told(records: &Records, task: &Task) -> bool
    ensures { IsTrue result → IsToldAlike task.now (row_at task_id task.now.id (tables_of records.now).tasks) }
{
    match records.task(task.id) {
        Some(old) => is_told_alike(task, old),
        None => false,
    }
}

// What one change touches.
#[tactic(auto, using(crate::proofs::ToldNodes::change_steps))]
fn touch_by(records: &Records, change: &Change, span: &mut Span)
    ensures wider { IsWider span.new span.old }
    ensures touches { TouchesTold (tables_of records.now) span.new change.now }
{
    match change {
        Change::PutTask(task) if stays_told(records, task) => {}
        Change::PutTask(task) => {
            add_node_of(task, span);
            add_former(records, task.id, span);
        }
        Change::DropTask(id) => add_former(records, *id, span),
        Change::PutNode(_) | Change::PutService(_) | Change::Keep(_) => {}
    }
}

// What all changes touch.
#[tactic(auto, using(crate::proofs::ToldNodes::all_steps))]
fn touched_nodes(records: &Records, changes: &[Change]) -> Span
    ensures { TouchesAllTold (tables_of records.now) result changes.now }
{
    let mut span = Span::empty();
    let mut left = changes;
    while let Some((change, others)) = left.split_first() {
        touch_by(records, change, &mut span);
        left = others;
    }
    span
}

/// What the changes touch of the agents' loop.
#[tactic(auto, using(crate::proofs::ToldNodes::join_steps))]
pub fn touch_agents(records: &Records, changes: &[Change], spans: &mut AgentSpans)
    ensures { AreTouched (tables_of records.now) spans.old spans.new changes.now }
{
    let nodes = touched_nodes(records, changes);
    spans.duties.join(nodes);
    spans.tells.join(nodes);
}
