// The spans of the lines over services, and what changes touch of them.
ghost use Rattle.std.specs.Prelude.{◌≡◌};
ghost use Rattle.std.specs.List.{list_any};
ghost use Rattle.swarm_objects.specs.ChangeLists.{apply_changes};
ghost use Rattle.swarm_objects.specs.Rows.{service_id};
ghost use Rattle.swarm_objects.specs.Usable.{IsUsable};
ghost use Rattle.swarm_objects.specs.World.{Tables};
ghost use Rattle.swarm_spans.specs.Services.Touches.{
  AreCovered,
  Joins,
  JoinsForNodes,
  NewServicesLaw,
  ServiceNodesLaw,
  ServicePutLaw,
  ServiceTimeLaw,
  puts_node,
};
ghost use Rattle.swarm_spans.specs.Spans.{Covers};
ghost use Rattle.swarm_spans.specs.Timed.{is_unfinished};

use crate::service_ports::{add_numbered, add_ports_of};
use crate::service_touches::{Places, Updates, add_shifted};
use crate::service_trims::{add_remains, add_tasks_of};
use crate::span::Span;
use swarm_objects::{Change, Id, Rows};

/// A span for each line over services, and for the line over old tasks.
#[derive(Clone, Copy, Drop)]
pub struct ServiceSpans {
    pub downs: Span,
    pub creates: Span,
    pub leaves: Span,
    pub comes: Span,
    pub job_creates: Span,
    pub ports: Span,
    pub updates: Span,
    pub trims: Span,
}

// A node is put.
fn puts_node(change: &Change) -> bool
    ensures { result ≡ puts_node change.now }
{
    matches!(change, Change::PutNode(_))
}

fn put_nodes(changes: &[Change]) -> bool
    ensures { result ≡ list_any puts_node changes.now }
{
    changes.iter().any(puts_node)
}

// With the numbers of the other, which mostly has none.
#[tactic(auto, using(crate::proofs::Services::Spans::widen_steps))]
fn widen(span: &mut Span, more: &Span)
    ensures { Joins span.new span.old more.now }
{
    if !more.is_over() {
        span.join(*more);
    }
}

// The same, for a line that reads nodes: a node that is put may concern every service.
#[tactic(auto, using(crate::proofs::Services::Spans::node_steps))]
fn widen_for_nodes(changes: &[Change], span: &mut Span, more: &Span)
    ensures { JoinsForNodes changes.now span.new span.old more.now }
{
    if put_nodes(changes) {
        *span = Span::full();
    } else {
        widen(span, more);
    }
}

impl ServiceSpans {
    /// Every row may have a duty: after a call, or where settings, networks or the set of rows changed otherwise than
    /// by changes of the loops.
    #[tactic(auto, using(crate::proofs::Services::Spans::all_full))]
    pub fn full() -> ServiceSpans
        ensures covers { (t : Tables) → IsUsable t → AreCovered t result }
    {
        ServiceSpans {
            downs: Span::full(),
            creates: Span::full(),
            leaves: Span::full(),
            comes: Span::full(),
            job_creates: Span::full(),
            ports: Span::full(),
            updates: Span::full(),
            trims: Span::full(),
        }
    }

    /// With what these changes touch: asked before they are made. The spans then cover the rows as they are, and as the
    /// changes make them.
    pub fn touch<R: Rows>(&mut self, rows: &R, changes: &[Change])
        requires usable { IsUsable (R.tables rows.now) }
        requires covers { AreCovered (R.tables rows.now) self.old }
        ensures stays { AreCovered (R.tables rows.now) self.new }
        ensures goes_on { let u = apply_changes (R.tables rows.now) changes.now in IsUsable u → AreCovered u self.new }
    {
        let mut moved = Span::empty();
        add_shifted::<Places, R>(rows, changes, &mut moved);
        widen(&mut self.downs, &moved);
        widen(&mut self.creates, &moved);
        widen_for_nodes(changes, &mut self.leaves, &moved);
        widen_for_nodes(changes, &mut self.comes, &moved);
        widen(&mut self.job_creates, &moved);
        add_numbered(rows, changes, &mut self.ports);
        add_shifted::<Updates, R>(rows, changes, &mut self.updates);
        add_remains(rows, changes, &mut self.trims);
    }

    /// With what a service's row concerns that is put anew, whatever is in it: asked before it is put. That is the
    /// service, its past tasks, and the ports of every other one where a number may get free.
    pub fn touch_service<R: Rows>(&mut self, rows: &R, service: Id)
        requires { IsUsable (R.tables rows.now) }
        ensures stays { let t = R.tables rows.now in AreCovered t self.old → AreCovered t self.new }
        ensures goes_on { ServicePutLaw service (R.tables rows.now) self.old self.new }
    {
        self.downs.add(service);
        self.creates.add(service);
        self.leaves.add(service);
        self.comes.add(service);
        self.job_creates.add(service);
        add_ports_of(rows, service, &mut self.ports);
        self.updates.add(service);
        add_tasks_of(rows, service, &mut self.trims);
    }

    /// With what may have a duty as time goes by, and nothing else changes: updates that are under way, which wait for
    /// the ends of delays and monitors. The span has those that are paused, too.
    pub fn touch_time(&mut self, updates: &Span)
        ensures goes_on { (t : Tables) → IsUsable t → Covers service_id is_unfinished updates.now t.services
            → ServiceTimeLaw t self.old self.new }
    {
        widen(&mut self.updates, updates);
    }

    /// With services that come from this id on, and nothing else changes. Their ports may leave others fewer numbers.
    pub fn touch_new_services(&mut self, first: Id)
        ensures goes_on { NewServicesLaw first self.old self.new }
    {
        let new = Span::onwards(first);
        widen(&mut self.downs, &new);
        widen(&mut self.creates, &new);
        widen(&mut self.leaves, &new);
        widen(&mut self.comes, &new);
        widen(&mut self.job_creates, &new);
        self.ports = Span::full();
        widen(&mut self.updates, &new);
    }

    /// With what may have a duty as nodes come, and nothing else changes: global services, which go by the nodes.
    pub fn touch_new_nodes(&mut self)
        ensures goes_on { ServiceNodesLaw self.old self.new }
    {
        let every = Span::full();
        self.leaves = every;
        self.comes = every;
    }
}
