// Whether the store has the rows of the plain world.
use swarm_objects::{Network, Node, Same, Service, Task};
use swarm_plain::Plain;
use swarm_store::Store;

fn has_same_nodes(nodes: &[Node], store: &Store) -> bool {
    let mut last = 0;
    for node in nodes {
        match store.next_node(last) {
            Some(row) if row.same(node) => last = node.id,
            _ => return false,
        }
    }
    store.next_node(last).is_none()
}

fn has_same_services(services: &[Service], store: &Store) -> bool {
    let mut last = 0;
    for service in services {
        match store.next_service(last) {
            Some(row) if row.same(service) => last = service.id,
            _ => return false,
        }
    }
    store.next_service(last).is_none()
}

fn has_same_tasks(tasks: &[Task], store: &Store) -> bool {
    let mut last = 0;
    for task in tasks {
        match store.next_task(last) {
            Some(row) if row.same(task) => last = task.id,
            _ => return false,
        }
    }
    store.next_task(last).is_none()
}

fn has_same_networks(networks: &[Network], store: &Store) -> bool {
    let mut last = 0;
    for network in networks {
        match store.next_network(last) {
            Some(row) if row.same(network) => last = network.id,
            _ => return false,
        }
    }
    store.next_network(last).is_none()
}

/// Whether clock, next id, settings and rows are equal.
pub(crate) fn has_same_rows(plain: &Plain, store: &Store) -> bool {
    plain.clock == store.now()
        && plain.next_id == store.next_id()
        && plain.settings == store.settings()
        && has_same_nodes(plain.nodes.as_slice(), store)
        && has_same_services(plain.services.as_slice(), store)
        && has_same_tasks(plain.tasks.as_slice(), store)
        && has_same_networks(plain.networks.as_slice(), store)
}
