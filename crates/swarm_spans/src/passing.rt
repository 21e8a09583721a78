// Spans of the rows that pass a test by what they are themselves: widened by rows that are put, and narrowed to those
// that still pass.
ghost use Rattle.std.specs.Prelude.{◌≡◌, ◌<◌, Bool, true};
ghost use Rattle.swarm_model.specs.Settle.{is_paused_status};
ghost use Rattle.swarm_objects.specs.Rows.{node_id, service_id};
ghost use Rattle.swarm_objects.specs.Usable.{IsUsable};
ghost use Rattle.swarm_objects.specs.declared.nodes.Node.{Node as NodeRow};
ghost use Rattle.swarm_spans.specs.Spans.{Covers, is_in, IsWider};
ghost use Rattle.swarm_spans.specs.Timed.{AddsEach, AddsNode, AddsService, has_paused_run, is_unfinished};

use crate::next::{next_node_in, next_service_in};
use crate::service_touches::has_open_run;
use crate::span::Span;
use swarm_objects::{Change, Node, Rows, RunStatus, Service};

/// A test of nodes.
pub trait NodeTest {
    /// Whether a node passes.
    ghost test: { NodeRow → Bool };

    /// Whether the node passes.
    fn passes(node: &Node) -> bool
        ensures { result ≡ test node.now };
}

/// Nodes that are DOWN.
pub struct Downs;

impl NodeTest for Downs {
    ghost use Rattle.swarm_spans.specs.Timed.{is_down_node};

    ghost test = { is_down_node };

    fn passes(node: &Node) -> bool {
        node.is_down()
    }
}

/// Remote nodes.
pub struct Remotes;

impl NodeTest for Remotes {
    ghost use Rattle.swarm_model.specs.Settle.{is_remote};

    ghost test = { is_remote };

    fn passes(node: &Node) -> bool {
        node.remote
    }
}

fn is_paused_status(status: RunStatus) -> bool
    ensures { result ≡ is_paused_status status }
{
    matches!(status, RunStatus::Paused | RunStatus::RollbackPaused)
}

// The service's update is paused.
fn has_paused_run(service: &Service) -> bool
    ensures { result ≡ has_paused_run service.now }
{
    match &service.run {
        Some(run) => is_paused_status(run.status),
        None => false,
    }
}

// The service's update is under way or paused.
fn is_unfinished(service: &Service) -> bool
    ensures { result ≡ is_unfinished service.now }
{
    has_open_run(service) || has_paused_run(service)
}

// The node too, where it passes.
#[tactic(auto, using(crate::proofs::Timing::passing_steps))]
fn add_node<T: NodeTest>(node: &Node, span: &mut Span)
    ensures wider { IsWider span.new span.old }
    ensures own { 0 < node.now.id → T.test node.now ≡ true → is_in span.new node.now.id ≡ true }
{
    if T::passes(node) {
        span.add(node.id);
    }
}

// The service too, where its update is unfinished.
#[tactic(auto, using(crate::proofs::Timing::passing_steps))]
fn add_service(service: &Service, span: &mut Span)
    ensures wider { IsWider span.new span.old }
    ensures own { 0 < service.now.id → is_unfinished service.now ≡ true → is_in span.new service.now.id ≡ true }
{
    if is_unfinished(service) {
        span.add(service.id);
    }
}

// A node that the change puts.
#[tactic(auto, using(crate::proofs::Timing::node_steps))]
fn add_put_node<T: NodeTest>(change: &Change, span: &mut Span)
    ensures wider { IsWider span.new span.old }
    ensures adds { AddsNode T.test change.now span.new }
{
    match change {
        Change::PutNode(node) => add_node::<T>(node, span),
        Change::PutTask(_) | Change::PutService(_) | Change::DropTask(_) | Change::Keep(_) => {}
    }
}

// A service that the change puts.
#[tactic(auto, using(crate::proofs::Timing::service_steps))]
fn add_put_service(change: &Change, span: &mut Span)
    ensures wider { IsWider span.new span.old }
    ensures adds { AddsService change.now span.new }
{
    match change {
        Change::PutService(service) => add_service(service, span),
        Change::PutTask(_) | Change::PutNode(_) | Change::DropTask(_) | Change::Keep(_) => {}
    }
}

/// Each node too that the changes put and that passes.
pub fn add_put_nodes<T: NodeTest>(changes: &[Change], span: &mut Span)
    ensures wider { IsWider span.new span.old }
    ensures adds { AddsEach (AddsNode T.test) changes.now span.new }
{
    let mut left = changes;
    while let Some((change, others)) = left.split_first() {
        add_put_node::<T>(change, span);
        left = others;
    }
}

/// Each service too that the changes put with an update that is unfinished.
pub fn add_put_services(changes: &[Change], span: &mut Span)
    ensures wider { IsWider span.new span.old }
    ensures adds { AddsEach AddsService changes.now span.new }
{
    let mut left = changes;
    while let Some((change, others)) = left.split_first() {
        add_put_service(change, span);
        left = others;
    }
}

/// Those nodes of the span alone that pass. All nodes in it are asked.
pub fn narrow_nodes<T: NodeTest, R: Rows>(rows: &R, span: &mut Span)
    requires usable { IsUsable (R.tables rows.now) }
    requires covers { Covers node_id T.test span.old (R.tables rows.now).nodes }
    ensures { Covers node_id T.test span.new (R.tables rows.now).nodes }
{
    if span.is_over() {
        return;
    }
    let mut narrow = Span::empty();
    let mut left = *span;
    while let Some(node) = next_node_in(rows, &left) {
        add_node::<T>(node, &mut narrow);
        left.pass(node.id);
    }
    *span = narrow;
}

/// Those services of the span alone whose update is unfinished. All services in it are asked.
pub fn narrow_services<R: Rows>(rows: &R, span: &mut Span)
    requires usable { IsUsable (R.tables rows.now) }
    requires covers { Covers service_id is_unfinished span.old (R.tables rows.now).services }
    ensures { Covers service_id is_unfinished span.new (R.tables rows.now).services }
{
    if span.is_over() {
        return;
    }
    let mut narrow = Span::empty();
    let mut left = *span;
    while let Some(service) = next_service_in(rows, &left) {
        add_service(service, &mut narrow);
        left.pass(service.id);
    }
    *span = narrow;
}
