// Tasks that wait for something which changes of other rows may give: these touch all that wait, or those at a place.
ghost use Rattle.std.specs.Prelude.{◌≡◌, ◌&&◌, not, true};
ghost use Rattle.std.specs.List.{list_any};
ghost use Rattle.swarm_objects.specs.Usable.{IsUsable};
ghost use Rattle.swarm_objects.specs.declared.rows.Change.TheVariants as change;
ghost use Rattle.swarm_spans.specs.Blocked.{
  TouchesAllBlocked,
  TouchesBlocked,
  TouchesPlace,
  still_blocks,
  turns_node,
};
ghost use Rattle.swarm_spans.specs.Lines.{blocks};
ghost use Rattle.swarm_spans.specs.Moved.{moves};
ghost use Rattle.swarm_spans.specs.Spans.{IsWider};

use crate::adding::add_waiting_beside;
use crate::span::Span;
use swarm_objects::{Change, Id, Node, Rows, Task};

// It is to stop, from ASSIGNED to RUNNING.
fn blocks(task: &Task) -> bool
    ensures { result ≡ blocks task.now }
{
    task.is_unwanted() && !(task.has_ended() || task.is_below_assigned())
}

// It blocks the same place, and has the same node.
fn still_blocks(old: &Task, new: &Task) -> bool
    ensures { result ≡ still_blocks old.now new.now }
{
    blocks(new) && new.service == old.service && new.place == old.place && new.node == old.node
}

// It blocked its place, and the other one, which takes its place in the rows, doesn't any more.
fn unblocks(old: &Task, new: &Task) -> bool
    ensures { result ≡ (blocks old.now && not (still_blocks old.now new.now)) }
{
    blocks(old) && !still_blocks(old, new)
}

// The tasks that wait for the place of the former task.
#[tactic(auto, using(crate::proofs::Blocked::place_steps))]
fn touch_by_task<R: Rows>(rows: &R, task: &Task, span: &mut Span)
    requires { IsUsable (R.tables rows.now) }
    ensures wider { IsWider span.new span.old }
    ensures touches { TouchesPlace (R.tables rows.now) span.new (change.PutTask task.now) }
{
    if let Some(old) = rows.task(task.id) {
        if unblocks(old, task) {
            add_waiting_beside(rows, old, span);
        }
    }
}

// The tasks that wait for the place of the task that goes.
#[tactic(auto, using(crate::proofs::Blocked::place_steps))]
fn touch_by_drop<R: Rows>(rows: &R, id: Id, span: &mut Span)
    requires { IsUsable (R.tables rows.now) }
    ensures wider { IsWider span.new span.old }
    ensures touches { TouchesPlace (R.tables rows.now) span.new (change.DropTask id) }
{
    if let Some(old) = rows.task(id) {
        if blocks(old) {
            add_waiting_beside(rows, old, span);
        }
    }
}

// The node that is put is as valid as it wasn't.
fn turns_node<R: Rows>(rows: &R, node: &Node) -> bool
    ensures { result ≡ turns_node (R.tables rows.now) (change.PutNode node.now) }
{
    match rows.node(node.id) {
        Some(old) => old.is_valid_node() != node.is_valid_node(),
        None => false,
    }
}

// All that wait, where it is.
#[tactic(auto, using(crate::proofs::Blocked::node_steps))]
fn touch_by_node<R: Rows>(rows: &R, node: &Node, waiting: &Span, span: &mut Span)
    ensures wider { IsWider span.new span.old }
    ensures touches { TouchesBlocked (R.tables rows.now) waiting.now span.new (change.PutNode node.now) }
{
    if turns_node(rows, node) {
        span.join(*waiting);
    }
}

// What one change touches.
#[tactic(auto, using(crate::proofs::Blocked::change_steps))]
fn touch_by<R: Rows>(rows: &R, change: &Change, waiting: &Span, span: &mut Span)
    requires { IsUsable (R.tables rows.now) }
    ensures wider { IsWider span.new span.old }
    ensures touches { TouchesBlocked (R.tables rows.now) waiting.now span.new change.now }
{
    match change {
        Change::PutTask(task) => touch_by_task(rows, task, span),
        Change::PutNode(node) => touch_by_node(rows, node, waiting, span),
        Change::DropTask(id) => touch_by_drop(rows, *id, span),
        Change::PutService(_) | Change::Keep(_) => {}
    }
}

/// What the changes touch of the tasks to raise by what they do to others: those that wait for a place which a task
/// blocked, and all that wait where a node is as valid as it wasn't.
#[tactic(auto, using(crate::proofs::Blocked::all_steps))]
pub fn touch_blocked<R: Rows>(rows: &R, changes: &[Change], waiting: &Span, span: &mut Span)
    requires { IsUsable (R.tables rows.now) }
    ensures wider { IsWider span.new span.old }
    ensures touches { TouchesAllBlocked (R.tables rows.now) waiting.now span.new changes.now }
{
    if waiting.is_over() {
        return;
    }
    let mut left = changes;
    while let Some((change, others)) = left.split_first() {
        touch_by(rows, change, waiting, span);
        left = others;
    }
}

// The task that is put is placed, or was.
fn moves_by_task<R: Rows>(rows: &R, task: &Task) -> bool
    ensures { result ≡ moves (R.tables rows.now) (change.PutTask task.now) }
{
    task.is_placed() || rows.task(task.id).is_some_and(Task::is_placed)
}

// The change may move where tasks go.
fn moves<R: Rows>(rows: &R, change: &Change) -> bool
    ensures { result ≡ moves (R.tables rows.now) change.now }
{
    match change {
        Change::PutNode(_) => true,
        Change::PutTask(task) => moves_by_task(rows, task),
        Change::DropTask(id) => rows.task(*id).is_some_and(Task::is_placed),
        Change::PutService(_) | Change::Keep(_) => false,
    }
}

// One of the changes may.
fn any_moves<R: Rows>(rows: &R, changes: &[Change]) -> bool
    ensures { result ≡ list_any (moves (R.tables rows.now)) changes.now }
{
    changes.iter().any(|change| moves(rows, change))
}

/// What the changes touch of the tasks to place by what they do to others: all of those that wait, or none.
#[tactic(auto, using(crate::proofs::Grown::waiting_steps))]
pub fn touch_moved<R: Rows>(rows: &R, changes: &[Change], waiting: &Span, span: &mut Span)
    ensures wider { IsWider span.new span.old }
    ensures touches { list_any (moves (R.tables rows.now)) changes.now ≡ true → IsWider span.new waiting.now }
{
    if !waiting.is_over() && any_moves(rows, changes) {
        span.join(*waiting);
    }
}
