// Who uses a network.
ghost use Rattle.std.specs.Prelude.{◌≡◌};
ghost use Rattle.std.specs.List.{list_any};
ghost use Rattle.swarm_objects.specs.NetworkUse.{names_network, service_uses, task_uses};
ghost use Rattle.swarm_objects.specs.Same.{same_number};

use swarm_objects::{Id, Service, ServiceSpec, Task};

// The network is one of these.
fn is_among(network: Id, networks: &[Id]) -> bool
    ensures { result ≡ list_any (same_number network) networks.now }
{
    networks.iter().any(|id| network == *id)
}

// The specification names the network.
fn names_network(network: Id, spec: &ServiceSpec) -> bool
    ensures { result ≡ names_network network spec.now }
{
    is_among(network, spec.template.networks.as_slice())
}

/// The service is on the network, or was before its last change.
pub fn service_uses(network: Id, service: &Service) -> bool
    ensures { result ≡ service_uses network service.now }
{
    if names_network(network, &service.spec) {
        return true;
    }
    match &service.previous {
        Some(previous) => names_network(network, previous),
        None => false,
    }
}

/// The task is on the network, and isn't over.
pub fn task_uses(network: Id, task: &Task) -> bool
    ensures { result ≡ task_uses network task.now }
{
    task.is_not_over() && is_among(network, task.template.networks.as_slice())
}
