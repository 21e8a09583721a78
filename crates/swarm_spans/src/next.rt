// The first row in a span.
ghost use Rattle.std.specs.Prelude.{◌≡◌, find};
ghost use Rattle.std.specs.Option.{option_copied};
ghost use Rattle.swarm_objects.specs.Usable.{IsUsable};
ghost use Rattle.swarm_spans.specs.Spans.{is_in};

use crate::span::Span;
use swarm_objects::{Node, Rows, Service, Task};

/// The first task in the span.
#[tactic(auto, using(crate::proofs::Nexts::tasks))]
pub fn next_task_in<'a, R: Rows>(rows: &'a R, span: &Span) -> Option<&'a Task>
    requires { IsUsable (R.tables rows.now) }
    ensures { option_copied result ≡ find (λ x. is_in span.now x.id) (R.tables rows.now).tasks }
{
    let mut after = span.after;
    while after < span.high {
        let Some(task) = rows.next_task(span.skip(after)) else {
            return None;
        };
        if span.has(task.id) {
            return Some(task);
        }
        after = task.id;
    }
    None
}

/// The first service in the span.
#[tactic(auto, using(crate::proofs::Nexts::services))]
pub fn next_service_in<'a, R: Rows>(rows: &'a R, span: &Span) -> Option<&'a Service>
    requires { IsUsable (R.tables rows.now) }
    ensures { option_copied result ≡ find (λ x. is_in span.now x.id) (R.tables rows.now).services }
{
    let mut after = span.after;
    while after < span.high {
        let Some(service) = rows.next_service(span.skip(after)) else {
            return None;
        };
        if span.has(service.id) {
            return Some(service);
        }
        after = service.id;
    }
    None
}

/// The first node in the span.
#[tactic(auto, using(crate::proofs::Nexts::nodes))]
pub fn next_node_in<'a, R: Rows>(rows: &'a R, span: &Span) -> Option<&'a Node>
    requires { IsUsable (R.tables rows.now) }
    ensures { option_copied result ≡ find (λ x. is_in span.now x.id) (R.tables rows.now).nodes }
{
    let mut after = span.after;
    while after < span.high {
        let Some(node) = rows.next_node(span.skip(after)) else {
            return None;
        };
        if span.has(node.id) {
            return Some(node);
        }
        after = node.id;
    }
    None
}
