// The numbers of ports.
ghost use Rattle.std.specs.Prelude.{◌≡◌};
ghost use Rattle.std.specs.List.{list_any};
ghost use Rattle.swarm_objects.specs.Services.Ports.{gives_number, is_unnumbered};

use swarm_objects::ports::gives_number;
use swarm_objects::{Port, PortNumber, Service};

/// The numbers that open ingress ports are given.
pub const FIRST_PORT: u16 = 30_000;

pub const LAST_PORT: u16 = 32_767;

fn was_given(numbers: &[PortNumber], port: Port) -> bool
    ensures { result ≡ list_any (gives_number port) numbers.now }
{
    numbers.iter().any(|given| gives_number(port, *given))
}

/// The ingress port has no number, and was given none.
pub fn is_unnumbered(service: &Service, port: Port) -> bool
    ensures { result ≡ is_unnumbered service.now port }
{
    port.number.is_none() && !was_given(service.numbers.as_slice(), port)
}
