// What a list of changes touches of the line over services with ports to be numbered.
ghost use Rattle.std.specs.List.{list_all};
ghost use Rattle.std.specs.Prelude.{◌≡◌, IsTrue, []};
ghost use Rattle.swarm_objects.specs.ChangeLists.{apply_changes};
ghost use Rattle.swarm_objects.specs.Services.Ports.{holds_port, ports_of};
ghost use Rattle.swarm_objects.specs.Usable.{IsUsable};
ghost use Rattle.swarm_spans.specs.Services.Numbers.{HoldsNone, KeepsNumbers, frees_number, holds_all, holds_number};
ghost use Rattle.swarm_spans.specs.Services.Steps.{HasForPorts};
ghost use Rattle.swarm_spans.specs.Services.Touches.{HasPorts, HasRenumbered};
ghost use Rattle.swarm_spans.specs.Spans.{IsWider};

use crate::span::Span;
use swarm_objects::ports::holds_port;
use swarm_objects::{Change, Id, Port, PortNumber, Rows, Service, ServiceSpec};

// The service holds the number, if there is one.
fn holds_number(service: &Service, udp: bool, number: Option<u16>) -> bool
    ensures { result ≡ holds_number service.now udp number }
{
    match number {
        Some(number) => holds_port(udp, number, service),
        None => true,
    }
}

// It holds each number that these ports name.
fn holds_named(service: &Service, ports: &[Port]) -> bool
    ensures { result ≡ list_all (λ p. holds_number service.now p.udp p.number) ports.now }
{
    ports
        .iter()
        .all(|port| holds_number(service, port.udp, port.number))
}

fn holds_previous(service: &Service, previous: &Option<ServiceSpec>) -> bool
    ensures { result ≡ list_all (λ p. holds_number service.now p.udp p.number) (ports_of previous.now) }
{
    match previous {
        Some(spec) => holds_named(service, spec.ports.as_slice()),
        None => true,
    }
}

// It holds each of the numbers that were given.
fn holds_given(service: &Service, numbers: &[PortNumber]) -> bool
    ensures { result ≡ list_all (λ n. holds_port n.udp n.number service.now) numbers.now }
{
    numbers
        .iter()
        .all(|given| holds_port(given.udp, given.number, service))
}

// It holds each number that the other one holds.
fn holds_all(service: &Service, other: &Service) -> bool
    ensures { result ≡ holds_all service.now other.now }
{
    holds_named(service, other.spec.ports.as_slice())
        && holds_previous(service, &other.previous)
        && holds_given(service, other.numbers.as_slice())
}

// A number that the service held is none of the new row's.
fn frees_number<R: Rows>(rows: &R, new: &Service) -> bool
    ensures { result ≡ frees_number (R.tables rows.now) new.now }
{
    match rows.service(new.id) {
        Some(old) => !holds_all(new, old),
        None => false,
    }
}

// What one change touches. A number that gets free may go to any service. Where none does, no other service than this
// one has a duty that it hadn't before: of the numbers that are held there are only more.
#[tactic(auto, using(crate::proofs::Services::Numbers::change_steps))]
fn touch_ports<R: Rows>(rows: &R, change: &Change, span: &mut Span)
    ensures wider { IsWider span.new span.old }
    ensures has { HasPorts (R.tables rows.now) change.now span.new }
{
    match change {
        Change::PutService(new) if frees_number(rows, new) => span.join(Span::full()),
        Change::PutService(new) => span.add(new.id),
        _ => {}
    }
}

/// The services that these changes put, and every service where one of them sets a port number free. It is asked before
/// the changes are made.
#[tactic(auto, using(crate::proofs::Services::Numbers::all_steps))]
pub fn add_numbered<R: Rows>(rows: &R, changes: &[Change], span: &mut Span)
    requires { IsUsable (R.tables rows.now) }
    ensures wider { IsWider span.new span.old }
    ensures has { let t = R.tables rows.now in
        IsUsable (apply_changes t changes.now) → HasForPorts span.new t (apply_changes t changes.now) }
{
    let mut left = changes;
    while let Some((change, others)) = left.split_first() {
        touch_ports(rows, change, span);
        left = others;
    }
}

// It is known that the previous specification, if there is one, names no port.
fn names_none(previous: &Option<ServiceSpec>) -> bool
    ensures { IsTrue result → ports_of previous.now ≡ [] }
{
    match previous {
        Some(spec) => spec.ports.as_slice().is_empty(),
        None => true,
    }
}

// It is known that the service holds no number: it names no port, and none was given.
#[tactic(auto, using(crate::proofs::Services::Numbers::none_steps))]
fn holds_none(service: &Service) -> bool
    ensures { IsTrue result → HoldsNone service.now }
{
    if !service.spec.ports.as_slice().is_empty() {
        return false;
    }
    if !names_none(&service.previous) {
        return false;
    }
    service.numbers.as_slice().is_empty()
}

// It is known that no row of this service sets a number free.
#[tactic(auto, using(crate::proofs::Services::Numbers::none_steps))]
fn frees_none<R: Rows>(rows: &R, service: Id) -> bool
    ensures { IsTrue result → KeepsNumbers (R.tables rows.now) service }
{
    match rows.service(service) {
        Some(old) => holds_none(old),
        None => true,
    }
}

/// The service, whose row is put anew, and every other one where a number may get free by that.
#[tactic(auto, using(crate::proofs::Services::Numbers::anew_steps))]
pub fn add_ports_of<R: Rows>(rows: &R, service: Id, span: &mut Span)
    ensures wider { IsWider span.new span.old }
    ensures has { HasRenumbered (R.tables rows.now) service span.new }
{
    if frees_none(rows, service) {
        span.add(service);
    } else {
        span.join(Span::full());
    }
}
