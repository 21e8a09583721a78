// What a list of changes touches of a line over tasks: asked before the changes are made, with the rows as they are.
ghost use Rattle.std.specs.Prelude.{◌≡◌, Bool, IsTrue};
ghost use Rattle.swarm_objects.specs.Usable.{IsUsable};
ghost use Rattle.swarm_objects.specs.declared.nodes.Node.{Node as NodeRow};
ghost use Rattle.swarm_objects.specs.declared.services.Service.{Service as ServiceRow};
ghost use Rattle.swarm_objects.specs.declared.tasks.Task.{Task as TaskRow};
ghost use Rattle.swarm_spans.specs.Spans.{IsWider};
ghost use Rattle.swarm_spans.specs.Touched.{
  Touches,
  TouchesAll,
  TouchesAllReady,
  TouchesNode,
  TouchesReady,
  TouchesService,
  TouchesTask,
};

use crate::adding::{add_tasks_of, add_tasks_on};
use crate::span::Span;
use swarm_objects::{Change, Node, Rows, Service, Task};

/// What a line reads of a task itself.
pub trait TaskReads {
    /// Whether the task may have a duty, by what it is itself.
    ghost may: { TaskRow → Bool };

    /// The line can't tell the tasks apart, the former one and the one that takes its place.
    ghost Alike: { TaskRow → TaskRow → Type 0 };

    /// Whether the task may have a duty.
    fn may(task: &Task) -> bool
        ensures { result ≡ may task.now };

    /// Whether it is known that the line can't tell the task from the former one. False costs a try.
    fn is_alike(old: &Task, new: &Task) -> bool
        ensures { IsTrue result → Alike old.now new.now };
}

/// What a line reads of a task's service.
pub trait ServiceReads {
    /// The line can't tell the services apart, the former one and the one that takes its place.
    ghost Alike: { ServiceRow → ServiceRow → Type 0 };

    /// Whether it is known that the line can't tell them apart.
    fn is_alike(old: &Service, new: &Service) -> bool
        ensures { IsTrue result → Alike old.now new.now };
}

/// What a line reads of a task's node.
pub trait NodeReads {
    /// The line can't tell the nodes apart, the former one and the one that takes its place.
    ghost Alike: { NodeRow → NodeRow → Type 0 };

    /// Whether it is known that the line can't tell them apart.
    fn is_alike(old: &Node, new: &Node) -> bool
        ensures { IsTrue result → Alike old.now new.now };
}

// The task that is put, where it may have a duty and isn't like the former one.
#[tactic(auto, using(crate::proofs::Touches::task_steps))]
fn touch_task<T: TaskReads, R: Rows>(rows: &R, task: &Task, span: &mut Span)
    requires { IsUsable (R.tables rows.now) }
    ensures wider { IsWider span.new span.old }
    ensures touches { TouchesTask T.may T.Alike (R.tables rows.now) span.new task.now }
{
    if !T::may(task) {
        return;
    }
    if let Some(old) = rows.task(task.id) {
        if T::is_alike(old, task) {
            return;
        }
    }
    span.add(task.id);
}

// The tasks of the service that is put, where it isn't like the former one.
#[tactic(auto, using(crate::proofs::Touches::service_steps))]
fn touch_service<S: ServiceReads, R: Rows>(rows: &R, service: &Service, span: &mut Span)
    requires { IsUsable (R.tables rows.now) }
    ensures wider { IsWider span.new span.old }
    ensures touches { TouchesService S.Alike (R.tables rows.now) span.new service.now }
{
    if let Some(old) = rows.service(service.id) {
        if !S::is_alike(old, service) {
            add_tasks_of(rows, service.id, span);
        }
    }
}

// The tasks on the node that is put, where it isn't like the former one.
#[tactic(auto, using(crate::proofs::Touches::node_steps))]
fn touch_node<N: NodeReads, R: Rows>(rows: &R, node: &Node, span: &mut Span)
    requires { IsUsable (R.tables rows.now) }
    ensures wider { IsWider span.new span.old }
    ensures touches { TouchesNode N.Alike (R.tables rows.now) span.new node.now }
{
    if let Some(old) = rows.node(node.id) {
        if !N::is_alike(old, node) {
            add_tasks_on(rows, node.id, span);
        }
    }
}

// What one change touches.
#[tactic(auto, using(crate::proofs::Touches::change_steps))]
fn touch_by<T: TaskReads, S: ServiceReads, N: NodeReads, R: Rows>(
    rows: &R,
    change: &Change,
    span: &mut Span,
)
    requires { IsUsable (R.tables rows.now) }
    ensures wider { IsWider span.new span.old }
    ensures touches { Touches T.may T.Alike S.Alike N.Alike (R.tables rows.now) span.new change.now }
{
    match change {
        Change::PutTask(task) => touch_task::<T, R>(rows, task, span),
        Change::PutService(service) => touch_service::<S, R>(rows, service, span),
        Change::PutNode(node) => touch_node::<N, R>(rows, node, span),
        Change::DropTask(_) | Change::Keep(_) => {}
    }
}

/// What the changes touch of a line over tasks that reads this of a task, of its service and of its node.
#[tactic(auto, using(crate::proofs::Touches::all_steps))]
pub fn touch_tasks<T: TaskReads, S: ServiceReads, N: NodeReads, R: Rows>(
    rows: &R,
    changes: &[Change],
    span: &mut Span,
)
    requires { IsUsable (R.tables rows.now) }
    ensures wider { IsWider span.new span.old }
    ensures touches { TouchesAll T.may T.Alike S.Alike N.Alike (R.tables rows.now) span.new changes.now }
{
    let mut left = changes;
    while let Some((change, others)) = left.split_first() {
        touch_by::<T, S, N, R>(rows, change, span);
        left = others;
    }
}

// What one change touches of the nodes whose session is over.
#[tactic(auto, using(crate::proofs::Touches::ready_steps))]
fn touch_ready(change: &Change, span: &mut Span)
    ensures wider { IsWider span.new span.old }
    ensures touches { TouchesReady span.new change.now }
{
    match change {
        Change::PutNode(node) => {
            if node.is_ready() {
                span.add(node.id);
            }
        }
        Change::PutTask(_) | Change::PutService(_) | Change::DropTask(_) | Change::Keep(_) => {}
    }
}

/// What the changes touch of the line over nodes whose session is over. What begins, lengthens or ends a session adds
/// its node too.
#[tactic(auto, using(crate::proofs::Touches::all_ready_steps))]
pub fn touch_nodes(changes: &[Change], span: &mut Span)
    ensures wider { IsWider span.new span.old }
    ensures touches { TouchesAllReady span.new changes.now }
{
    let mut left = changes;
    while let Some((change, others)) = left.split_first() {
        touch_ready(change, span);
        left = others;
    }
}
