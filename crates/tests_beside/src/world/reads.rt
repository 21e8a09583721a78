// Whether the one world reads as the plain one: all reads of rows.
use swarm_objects::{Network, Node, Rows, Same, Service, Task, TaskKey};
use swarm_plain::Plain;
use swarm_world::World;

fn is_same<T: Same>(one: Option<&T>, other: Option<&T>) -> bool {
    match (one, other) {
        (Some(row), Some(same)) => row.same(same),
        (None, None) => true,
        _ => false,
    }
}

fn is_row<T: Same>(row: &T, found: Option<&T>) -> bool {
    match found {
        Some(same) => row.same(same),
        None => false,
    }
}

fn is_node_same(plain: &Plain, world: &World, node: &Node) -> bool {
    let id = node.id;
    is_row(node, world.node(id))
        && is_same(plain.next_task_on(id, 0), world.next_task_on(id, 0))
        && plain.session_live(id) == world.session_live(id)
}

fn is_service_same(plain: &Plain, world: &World, service: &Service) -> bool {
    let id = service.id;
    is_row(service, world.service(id))
        && is_same(plain.next_task_of(id, 0), world.next_task_of(id, 0))
}

// The world's list of ids for the key has the task.
fn is_listed(world: &World, key: TaskKey, task: &Task) -> bool {
    match world.ids_with(key) {
        Some(ids) => ids.iter().any(|id| *id == task.id),
        None => false,
    }
}

// It stands in the lists of its service, its place and its node.
fn is_found(world: &World, task: &Task) -> bool {
    let is_on_node = match task.node {
        Some(node) => is_listed(world, TaskKey::Node(node), task),
        None => true,
    };
    is_on_node
        && is_listed(world, TaskKey::Service(task.service), task)
        && is_listed(world, TaskKey::Place(task.service, task.place), task)
}

fn is_task_same(plain: &Plain, world: &World, task: &Task) -> bool {
    let (id, service, place, version) = (task.id, task.service, task.place, task.born);
    is_row(task, world.task(id))
        && is_found(world, task)
        && is_same(
            plain.next_task_of(service, id),
            world.next_task_of(service, id),
        )
        && is_same(
            plain.next_task_at(service, place, 0),
            world.next_task_at(service, place, 0),
        )
        && plain.attempts(service, place, version, 0) == world.attempts(service, place, version, 0)
}

fn has_same_nodes(plain: &Plain, world: &World) -> bool {
    let mut last = 0;
    for node in plain.nodes.as_slice() {
        if !is_row(node, world.next_node(last)) || !is_node_same(plain, world, node) {
            return false;
        }
        last = node.id;
    }
    world.next_node(last).is_none()
}

fn has_same_services(plain: &Plain, world: &World) -> bool {
    let mut last = 0;
    for service in plain.services.as_slice() {
        if !is_row(service, world.next_service(last)) || !is_service_same(plain, world, service) {
            return false;
        }
        last = service.id;
    }
    world.next_service(last).is_none()
}

fn has_same_tasks(plain: &Plain, world: &World) -> bool {
    let mut last = 0;
    for task in plain.tasks.as_slice() {
        if !is_row(task, world.next_task(last)) || !is_task_same(plain, world, task) {
            return false;
        }
        last = task.id;
    }
    world.next_task(last).is_none()
}

fn is_network_same(world: &World, last: u64, network: &Network) -> bool {
    is_row(network, world.next_network(last)) && is_row(network, world.network(network.id))
}

fn has_same_networks(plain: &Plain, world: &World) -> bool {
    let mut last = 0;
    for network in plain.networks.as_slice() {
        if !is_network_same(world, last, network) {
            return false;
        }
        last = network.id;
    }
    world.next_network(last).is_none()
}

/// Whether all reads give the same.
pub(crate) fn reads_alike(plain: &Plain, world: &World) -> bool {
    plain.now() == world.now()
        && plain.next_id() == world.next_id()
        && plain.settings() == world.settings()
        && has_same_nodes(plain, world)
        && has_same_services(plain, world)
        && has_same_tasks(plain, world)
        && has_same_networks(plain, world)
}
