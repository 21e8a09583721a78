// The ports' numbers that are held: a flag for each one that may be given, set by one pass over the services.
ghost use Rattle.std.specs.Prelude.{◌≡◌, ◌==◌};
ghost use Rattle.std.specs.List.{list_any};
ghost use Rattle.swarm_alloc.specs.HeldPorts.{AreHeld, Notes};
ghost use Rattle.swarm_objects.specs.Services.Ports.{has_port_number, holds_port, is_numbered, ports_of};
ghost use Rattle.swarm_objects.specs.Usable.{IsUsable};

use crate::ports::{FIRST_PORT, LAST_PORT};
use swarm_objects::walks::services;
use swarm_objects::{Port, PortNumber, Rows, Service, ServiceSpec};

/// How many numbers there are to give.
pub const PORTS: usize = (LAST_PORT - FIRST_PORT) as usize + 1;

// The number is held, if it is one to give.
#[tactic(auto, using(crate::proofs::HeldPorts::none_noted))]
fn note(held: &mut [bool], number: u16)
    ensures { Notes (λ n. number == n) held.old held.new }
{
    if number < FIRST_PORT {
        return;
    }
    let place = usize::from(number - FIRST_PORT);
    if place < held.len() {
        held[place] = true;
    }
}

#[tactic(auto, using(crate::proofs::HeldPorts::none_noted))]
fn note_port(held: &mut [bool], udp: bool, port: Port)
    ensures { Notes (λ n. has_port_number udp n port) held.old held.new }
{
    if port.udp == udp {
        if let Some(number) = port.number {
            note(held, number);
        }
    }
}

fn note_ports(held: &mut [bool], udp: bool, ports: &[Port])
    ensures { Notes (λ n. list_any (has_port_number udp n) ports.now) held.old held.new }
{
    for port in ports {
        note_port(held, udp, *port);
    }
}

// Those of the specification that was there before the last change.
#[tactic(auto, using(crate::proofs::HeldPorts::none_noted))]
fn note_previous(held: &mut [bool], udp: bool, previous: &Option<ServiceSpec>)
    ensures { Notes (λ n. list_any (has_port_number udp n) (ports_of previous.now)) held.old held.new }
{
    if let Some(spec) = previous {
        note_ports(held, udp, spec.ports.as_slice());
    }
}

#[tactic(auto, using(crate::proofs::HeldPorts::none_noted))]
fn note_given(held: &mut [bool], udp: bool, given: PortNumber)
    ensures { Notes (λ n. is_numbered udp n given) held.old held.new }
{
    if given.udp == udp {
        note(held, given.number);
    }
}

fn note_numbers(held: &mut [bool], udp: bool, numbers: &[PortNumber])
    ensures { Notes (λ n. list_any (is_numbered udp n) numbers.now) held.old held.new }
{
    for given in numbers {
        note_given(held, udp, *given);
    }
}

// All that the service holds.
#[tactic(auto, using(crate::proofs::HeldPorts::notes_three))]
fn note_service(held: &mut [bool], udp: bool, service: &Service)
    ensures { Notes (λ n. holds_port udp n service.now) held.old held.new }
{
    note_ports(held, udp, service.spec.ports.as_slice());
    note_previous(held, udp, &service.previous);
    note_numbers(held, udp, service.numbers.as_slice());
}

/// For each number of the protocol that may be given, from the first on, whether a service holds it.
pub fn held_ports<R: Rows>(rows: &R, udp: bool) -> [bool; PORTS]
    requires { IsUsable (R.tables rows.now) }
    ensures { AreHeld udp (R.tables rows.now).services result }
{
    let mut held = [false; PORTS];
    for service in services(rows) {
        note_service(&mut held, udp, service);
    }
    held
}
