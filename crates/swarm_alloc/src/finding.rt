// The allocator's first duty: numbers for open ports, addresses for tasks, and why there are none.
ghost use Rattle.std.specs.Prelude.{◌≡◌, ◌&&◌, flat_map, not};
ghost use Rattle.std.specs.List.{list_all, list_any};
ghost use Rattle.swarm_alloc.specs.Allocating.{gets_number};
ghost use Rattle.swarm_objects.specs.Loops.Allocator.{allocator, exhausted, exhausted_for, exhausted_network, exhausted_port, gets_address, has_free_address, has_free_port, has_numbered_ports, is_fresh, port_duties, same_note, wants_note};
ghost use Rattle.swarm_objects.specs.Loops.Words.{duty_where};
ghost use Rattle.swarm_objects.specs.Rows.{first_of};
ghost use Rattle.swarm_objects.specs.Services.Ports.{is_unnumbered};
ghost use Rattle.swarm_objects.specs.Services.Words.{is_service_and};
ghost use Rattle.swarm_objects.specs.Usable.{IsUsable};

use crate::free_numbers::{has_free_address, has_free_port};
use crate::ports::is_unnumbered;
use swarm_objects::walks::{services, tasks};
use swarm_objects::{Duty, Id, Note, Port, Rows, Service, Task};

// The port can get a number.
fn gets_number<R: Rows>(rows: &R, service: &Service, port: Port) -> bool
    requires { IsUsable (R.tables rows.now) }
    ensures { result ≡ gets_number (R.tables rows.now) service.now port }
{
    is_unnumbered(service, port) && has_free_port(rows, port.udp)
}

// A port of the service has none.
fn has_unnumbered_port(service: &Service) -> bool
    ensures { result ≡ list_any (is_unnumbered service.now) service.now.spec.ports }
{
    service
        .spec
        .ports
        .as_slice()
        .iter()
        .any(|port| is_unnumbered(service, *port))
}

pub fn has_numbered_ports(service: &Service) -> bool
    ensures { result ≡ has_numbered_ports service.now }
{
    !has_unnumbered_port(service)
}

// The task is NEW, wanted, and its service is there.
fn is_fresh<R: Rows>(rows: &R, task: &Task) -> bool
    requires { IsUsable (R.tables rows.now) }
    ensures { result ≡ is_fresh (R.tables rows.now) task.now }
{
    task.state.is_new() && task.is_wanted() && task.has_service(rows)
}

// Each port of the task's service has a number.
fn has_numbered_service<R: Rows>(rows: &R, task: &Task) -> bool
    requires { IsUsable (R.tables rows.now) }
    ensures { result ≡ is_service_and (R.tables rows.now) has_numbered_ports task.now }
{
    match rows.service(task.service) {
        Some(service) => has_numbered_ports(service),
        None => false,
    }
}

fn has_free_addresses<R: Rows>(rows: &R, networks: &[Id]) -> bool
    requires { IsUsable (R.tables rows.now) }
    ensures { result ≡ list_all (has_free_address (R.tables rows.now)) networks.now }
{
    networks
        .iter()
        .all(|network| has_free_address(rows, *network))
}

/// The task can get its addresses.
pub fn gets_address<R: Rows>(rows: &R, task: &Task) -> bool
    requires { IsUsable (R.tables rows.now) }
    ensures { result ≡ gets_address (R.tables rows.now) task.now }
{
    is_fresh(rows, task)
        && has_numbered_service(rows, task)
        && has_free_addresses(rows, task.template.networks.as_slice())
}

// The port has no number, and its protocol none that is free.
fn is_exhausted<R: Rows>(rows: &R, service: &Service, port: Port) -> bool
    requires { IsUsable (R.tables rows.now) }
    ensures { result ≡ (is_unnumbered service.now port && not (has_free_port (R.tables rows.now) port.udp)) }
{
    is_unnumbered(service, port) && !has_free_port(rows, port.udp)
}

// The first port without a number whose protocol has none that is free.
fn exhausted_port<R: Rows>(rows: &R, service: &Service) -> Option<Port>
    requires { IsUsable (R.tables rows.now) }
    ensures { result ≡ exhausted_port (R.tables rows.now) service.now }
{
    for port in service.spec.ports.as_slice() {
        if is_exhausted(rows, service, *port) {
            return Some(*port);
        }
    }
    None
}

// The first of the task's networks that has no free address.
fn exhausted_network<R: Rows>(rows: &R, task: &Task) -> Option<Id>
    requires { IsUsable (R.tables rows.now) }
    ensures { result ≡ exhausted_network (R.tables rows.now) task.now }
{
    for network in task.template.networks.as_slice() {
        if !has_free_address(rows, *network) {
            return Some(*network);
        }
    }
    None
}

// The first thing of which none is free.
fn exhausted<R: Rows>(rows: &R, task: &Task, service: &Service) -> Option<Note>
    requires { IsUsable (R.tables rows.now) }
    ensures { result ≡ exhausted (R.tables rows.now) task.now service.now }
{
    if let Some(port) = exhausted_port(rows, service) {
        return Some(Note::NoPort(port.udp));
    }
    match exhausted_network(rows, task) {
        Some(network) => Some(Note::NoAddress(network)),
        None => None,
    }
}

/// What the task waits for: the first port of its service, or else the first of its networks, for which none is free.
pub fn exhausted_for<R: Rows>(rows: &R, task: &Task) -> Option<Note>
    requires { IsUsable (R.tables rows.now) }
    ensures { result ≡ exhausted_for (R.tables rows.now) task.now }
{
    match rows.service(task.service) {
        Some(service) => exhausted(rows, task, service),
        None => None,
    }
}

/// The two notes are equal.
pub fn same_note(one: Note, two: Note) -> bool
    ensures { result ≡ same_note one two }
{
    match (one, two) {
        (Note::Empty, Note::Empty) => true,
        (Note::Filters(one), Note::Filters(two)) => one == two,
        (Note::NoPort(one), Note::NoPort(two)) => one == two,
        (Note::NoAddress(one), Note::NoAddress(two)) => one == two,
        _ => false,
    }
}

/// The task can get no address, for another reason than its note says.
pub fn wants_note<R: Rows>(rows: &R, task: &Task) -> bool
    requires { IsUsable (R.tables rows.now) }
    ensures { result ≡ wants_note (R.tables rows.now) task.now }
{
    if !is_fresh(rows, task) {
        return false;
    }
    match exhausted_for(rows, task) {
        Some(note) => !same_note(note, task.note),
        None => false,
    }
}

/// The first port of the service that can get a number.
pub fn port_of<R: Rows>(rows: &R, service: &Service) -> Option<Duty>
    requires { IsUsable (R.tables rows.now) }
    ensures { result ≡ first_of (port_duties (R.tables rows.now) service.now) }
{
    for port in service.spec.ports.as_slice() {
        if gets_number(rows, service, *port) {
            return Some(Duty::Port(service.id, port.target, port.udp));
        }
    }
    None
}

// The first of those of all services.
fn first_port<R: Rows>(rows: &R) -> Option<Duty>
    requires { IsUsable (R.tables rows.now) }
    ensures { let t = R.tables rows.now in result ≡ first_of (flat_map (port_duties t) t.services) }
{
    for service in services(rows) {
        if let Some(duty) = port_of(rows, service) {
            return Some(duty);
        }
    }
    None
}

// The first task that can get its addresses.
fn first_address<R: Rows>(rows: &R) -> Option<Duty>
    requires { IsUsable (R.tables rows.now) }
    ensures { let t = R.tables rows.now in
        result ≡ first_of (duty_where (gets_address t) (λ x. Duty.Address x.id) t.tasks) }
{
    for task in tasks(rows) {
        if gets_address(rows, task) {
            return Some(Duty::Address(task.id));
        }
    }
    None
}

// The first task that is to get a note.
fn first_note<R: Rows>(rows: &R) -> Option<Duty>
    requires { IsUsable (R.tables rows.now) }
    ensures { let t = R.tables rows.now in
        result ≡ first_of (duty_where (wants_note t) (λ x. Duty.Note x.id) t.tasks) }
{
    for task in tasks(rows) {
        if wants_note(rows, task) {
            return Some(Duty::Note(task.id));
        }
    }
    None
}

/// The allocator's first duty.
#[tactic(auto, using(crate::proofs::Steps::first_steps))]
pub fn least<R: Rows>(rows: &R) -> Option<Duty>
    requires { IsUsable (R.tables rows.now) }
    ensures { result ≡ first_of (allocator (R.tables rows.now)) }
{
    if let Some(duty) = first_port(rows) {
        return Some(duty);
    }
    if let Some(duty) = first_address(rows) {
        return Some(duty);
    }
    first_note(rows)
}
