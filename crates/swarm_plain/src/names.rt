// Rows by name: the first that has it.
ghost use Rattle.std.specs.Prelude.{◌≡◌};
ghost use Rattle.std.specs.Option.{option_copied, option_map};
ghost use Rattle.swarm_model.specs.Calls.Refusals.{network_name, node_name, row_named, service_name};
ghost use Rattle.swarm_objects.specs.Rows.{network_id, node_id, service_id};

use swarm_objects::{Id, Name, Network, Node, Service};

// The first node with this name.
pub(crate) fn node_named<'a>(nodes: &'a [Node], name: &Name) -> Option<&'a Node>
    ensures { option_copied result ≡ row_named node_name name.now nodes.now }
{
    nodes
        .iter()
        .find(|node| node.name.as_str() == name.as_str())
}

// The first service with this name.
pub(crate) fn service_named<'a>(services: &'a [Service], name: &Name) -> Option<&'a Service>
    ensures { option_copied result ≡ row_named service_name name.now services.now }
{
    services
        .iter()
        .find(|service| service.name.as_str() == name.as_str())
}

// The first network with this name.
pub(crate) fn network_named<'a>(networks: &'a [Network], name: &Name) -> Option<&'a Network>
    ensures { option_copied result ≡ row_named network_name name.now networks.now }
{
    networks
        .iter()
        .find(|network| network.name.as_str() == name.as_str())
}

// The id of the first node with this name.
pub(crate) fn node_id(nodes: &[Node], name: &Name) -> Option<Id>
    ensures { result ≡ option_map node_id (row_named node_name name.now nodes.now) }
{
    match node_named(nodes, name) {
        Some(node) => Some(node.id),
        None => None,
    }
}

// The id of the first service with this name.
pub(crate) fn service_id(services: &[Service], name: &Name) -> Option<Id>
    ensures { result ≡ option_map service_id (row_named service_name name.now services.now) }
{
    match service_named(services, name) {
        Some(service) => Some(service.id),
        None => None,
    }
}

// The id of the first network with this name.
pub(crate) fn network_id(networks: &[Network], name: &Name) -> Option<Id>
    ensures { result ≡ option_map network_id (row_named network_name name.now networks.now) }
{
    match network_named(networks, name) {
        Some(network) => Some(network.id),
        None => None,
    }
}
