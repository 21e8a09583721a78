// Spans that get the tasks of a service, beside another one or on a node.
ghost use Rattle.std.specs.Prelude.{◌≡◌, true};
ghost use Rattle.swarm_objects.specs.Nodes.Words.{is_down};
ghost use Rattle.swarm_objects.specs.Rows.{node_id};
ghost use Rattle.swarm_objects.specs.Usable.{IsUsable};
ghost use Rattle.swarm_spans.specs.Blocked.{AddsToWait};
ghost use Rattle.swarm_spans.specs.Spans.{Covers, IsWider};
ghost use Rattle.swarm_spans.specs.Timed.{is_down_node};
ghost use Rattle.swarm_spans.specs.Touched.{HasTasksOf, HasTasksOn, HasTasksOnDown, HasWaitingBeside};

use crate::next::next_node_in;
use crate::span::Span;
use swarm_objects::walks::{tasks_at, tasks_of, tasks_on};
use swarm_objects::{Id, Node, Rows, Task};

/// Each task of the service too.
#[tactic(auto, using(crate::proofs::Grown::adding_steps))]
pub fn add_tasks_of<R: Rows>(rows: &R, service: Id, span: &mut Span)
    requires { IsUsable (R.tables rows.now) }
    ensures wider { IsWider span.new span.old }
    ensures all { HasTasksOf service (R.tables rows.now) span.new }
{
    for task in tasks_of(rows, service) {
        span.add(task.id);
    }
}

// The task too, where it is to wait.
#[tactic(auto, using(crate::proofs::Blocked::to_wait_steps))]
fn add_to_wait(task: &Task, span: &mut Span)
    ensures wider { IsWider span.new span.old }
    ensures has { AddsToWait task.now span.new }
{
    if task.is_to_wait() {
        span.add(task.id);
    }
}

/// Each task to wait beside this one too.
#[tactic(auto, using(crate::proofs::Blocked::beside_steps))]
pub fn add_waiting_beside<R: Rows>(rows: &R, one: &Task, span: &mut Span)
    requires { IsUsable (R.tables rows.now) }
    ensures wider { IsWider span.new span.old }
    ensures all { HasWaitingBeside one.now (R.tables rows.now) span.new }
{
    for task in tasks_at(rows, one.service, one.place) {
        add_to_wait(task, span);
    }
}

/// Each task on the node too.
#[tactic(auto, using(crate::proofs::Grown::adding_steps))]
pub fn add_tasks_on<R: Rows>(rows: &R, node: Id, span: &mut Span)
    requires { IsUsable (R.tables rows.now) }
    ensures wider { IsWider span.new span.old }
    ensures all { HasTasksOn node (R.tables rows.now) span.new }
{
    for task in tasks_on(rows, node) {
        span.add(task.id);
    }
}

// Each task on the node too, where it is DOWN.
#[tactic(auto, using(crate::proofs::Grown::wider_itself))]
fn add_tasks_where_down<R: Rows>(rows: &R, node: &Node, span: &mut Span)
    requires { IsUsable (R.tables rows.now) }
    ensures wider { IsWider span.new span.old }
    ensures all { is_down node.now.state ≡ true → HasTasksOn node.now.id (R.tables rows.now) span.new }
{
    if node.is_down() {
        add_tasks_on(rows, node.id, span);
    }
}

/// Each task on a node that is DOWN. Each such node is in the span.
#[tactic(auto, using(crate::proofs::DownNodes::on_down_steps))]
pub fn tasks_on_down<R: Rows>(rows: &R, downs: &Span) -> Span
    requires usable { IsUsable (R.tables rows.now) }
    requires downs { Covers node_id is_down_node downs.now (R.tables rows.now).nodes }
    ensures { HasTasksOnDown (R.tables rows.now) result }
{
    let mut span = Span::empty();
    let mut left = *downs;
    while let Some(node) = next_node_in(rows, &left) {
        add_tasks_where_down(rows, node, &mut span);
        left.pass(node.id);
    }
    span
}
