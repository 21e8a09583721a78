// The first duty of a line, by its span: one loop for the lines over each table.
ghost use Rattle.std.specs.Prelude.{◌≡◌, flat_map, List};
ghost use Rattle.swarm_objects.specs.Rows.{first_of};
ghost use Rattle.swarm_objects.specs.Usable.{IsUsable};
ghost use Rattle.swarm_objects.specs.World.{Tables};
ghost use Rattle.swarm_objects.specs.declared.duties.Duty.{Duty as DutyRow};
ghost use Rattle.swarm_objects.specs.declared.nodes.Node.{Node as NodeRow};
ghost use Rattle.swarm_objects.specs.declared.services.Service.{Service as ServiceRow};
ghost use Rattle.swarm_objects.specs.declared.tasks.Task.{Task as TaskRow};
ghost use Rattle.swarm_spans.specs.Spans.{CoversNodes, CoversServices, CoversTasks, HasDutyOf};

use crate::next::{next_node_in, next_service_in, next_task_in};
use crate::span::Span;
use swarm_objects::{Duty, Node, Rows, Service, Task};

/// A line of duties over the tasks: a part of a loop's list that goes task by task, by rising id.
pub trait TaskLine {
    /// What there is to do for a task, in order.
    ghost duties: { Tables → TaskRow → List DutyRow };

    /// The first of a task's duties.
    fn duty<R: Rows>(rows: &R, task: &Task) -> Option<Duty>
        requires { IsUsable (R.tables rows.now) }
        ensures { result ≡ first_of (duties (R.tables rows.now) task.now) };
}

/// A line of duties over the services.
pub trait ServiceLine {
    /// What there is to do for a service, in order.
    ghost duties: { Tables → ServiceRow → List DutyRow };

    /// The first of a service's duties.
    fn duty<R: Rows>(rows: &R, service: &Service) -> Option<Duty>
        requires { IsUsable (R.tables rows.now) }
        ensures { result ≡ first_of (duties (R.tables rows.now) service.now) };
}

/// A line of duties over the nodes.
pub trait NodeLine {
    /// What there is to do for a node, in order.
    ghost duties: { Tables → NodeRow → List DutyRow };

    /// The first of a node's duties.
    fn duty<R: Rows>(rows: &R, node: &Node) -> Option<Duty>
        requires { IsUsable (R.tables rows.now) }
        ensures { result ≡ first_of (duties (R.tables rows.now) node.now) };
}

/// The first duty of a line over the tasks, by its span. Rows before it, which have none, leave the span.
#[tactic(auto, using(crate::proofs::Firsts::tasks))]
pub fn first_of_tasks<L: TaskLine, R: Rows>(rows: &R, span: &mut Span) -> Option<Duty>
    requires usable { IsUsable (R.tables rows.now) }
    requires covers { CoversTasks L.duties (R.tables rows.now) span.old }
    ensures first { let t = R.tables rows.now in result ≡ first_of (flat_map (L.duties t) t.tasks) }
    ensures covers { CoversTasks L.duties (R.tables rows.now) span.new }
{
    if span.is_over() {
        return None;
    }
    while let Some(task) = next_task_in(rows, span) {
        if let Some(duty) = L::duty(rows, task) {
            return Some(duty);
        }
        span.pass(task.id);
    }
    *span = Span::empty();
    None
}

/// The first duty of a line over the services, by its span.
#[tactic(auto, using(crate::proofs::Firsts::services))]
pub fn first_of_services<L: ServiceLine, R: Rows>(rows: &R, span: &mut Span) -> Option<Duty>
    requires usable { IsUsable (R.tables rows.now) }
    requires covers { CoversServices L.duties (R.tables rows.now) span.old }
    ensures first { let t = R.tables rows.now in result ≡ first_of (flat_map (L.duties t) t.services) }
    ensures covers { CoversServices L.duties (R.tables rows.now) span.new }
{
    if span.is_over() {
        return None;
    }
    while let Some(service) = next_service_in(rows, span) {
        if let Some(duty) = L::duty(rows, service) {
            return Some(duty);
        }
        span.pass(service.id);
    }
    *span = Span::empty();
    None
}

/// The first duty of a line over the nodes, by its span.
#[tactic(auto, using(crate::proofs::Firsts::nodes))]
pub fn first_of_nodes<L: NodeLine, R: Rows>(rows: &R, span: &mut Span) -> Option<Duty>
    requires usable { IsUsable (R.tables rows.now) }
    requires covers { CoversNodes L.duties (R.tables rows.now) span.old }
    ensures first { let t = R.tables rows.now in result ≡ first_of (flat_map (L.duties t) t.nodes) }
    ensures covers { CoversNodes L.duties (R.tables rows.now) span.new }
{
    if span.is_over() {
        return None;
    }
    while let Some(node) = next_node_in(rows, span) {
        if let Some(duty) = L::duty(rows, node) {
            return Some(duty);
        }
        span.pass(node.id);
    }
    *span = Span::empty();
    None
}

// With the task, where it has a duty of the line.
#[tactic(auto, using(crate::proofs::Narrowing::duty_steps))]
fn with_task<L: TaskLine, R: Rows>(rows: &R, task: &Task, span: Span) -> Span
    requires { IsUsable (R.tables rows.now) }
    ensures { HasDutyOf (L.duties (R.tables rows.now)) task.now span result }
{
    let mut wide = span;
    if L::duty(rows, task).is_some() {
        wide.add(task.id);
    }
    wide
}

/// The span from the first task in this one that has a duty of the line to the last. All tasks in the span are asked.
pub fn narrowed<L: TaskLine, R: Rows>(rows: &R, span: Span) -> Span
    requires usable { IsUsable (R.tables rows.now) }
    requires covers { CoversTasks L.duties (R.tables rows.now) span }
    ensures { CoversTasks L.duties (R.tables rows.now) result }
{
    let mut narrow = Span::empty();
    let mut left = span;
    while let Some(task) = next_task_in(rows, &left) {
        narrow = with_task::<L, R>(rows, task, narrow);
        left.pass(task.id);
    }
    narrow
}
