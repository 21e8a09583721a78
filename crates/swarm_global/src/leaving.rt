// Nodes that global services leave.
ghost use Rattle.std.specs.Prelude.{◌≡◌, flat_map};
ghost use Rattle.swarm_objects.specs.Loops.Global.{is_to_leave, leave_duties, may_stay};
ghost use Rattle.swarm_objects.specs.Rows.{first_of, is_row_and, node_id};
ghost use Rattle.swarm_objects.specs.Usable.{IsUsable};

use role_words::{is_held_place, place_numbers};
use swarm_filters::meets_all;
use swarm_objects::walks::services;
use swarm_objects::{Duty, Id, Mode, Node, Rows, Service};

// A task of the service may stay on the node.
fn may_stay(service: &Service, node: &Node) -> bool
    ensures { result ≡ may_stay service.now node.now }
{
    node.is_valid_node() && meets_all(service.spec.template.constraints.as_slice(), node)
}

/// A task of the service may stay on the node with this id.
pub fn may_stay_on<R: Rows>(rows: &R, service: &Service, node: Id) -> bool
    ensures { result ≡ is_row_and node_id (may_stay service.now) (R.tables rows.now).nodes node }
{
    match rows.node(node) {
        Some(node) => may_stay(service, node),
        None => false,
    }
}

// The service's place is held, though it may not stay there.
fn is_to_leave<R: Rows>(rows: &R, service: &Service, node: Id) -> bool
    requires { IsUsable (R.tables rows.now) }
    ensures { result ≡ is_to_leave (R.tables rows.now) service.now node }
{
    is_held_place(rows, service, node) && !may_stay_on(rows, service, node)
}

/// The first node that the service leaves.
pub fn leave_of<R: Rows>(rows: &R, service: &Service) -> Option<Duty>
    requires { IsUsable (R.tables rows.now) }
    ensures { result ≡ first_of (leave_duties (R.tables rows.now) service.now service.now.spec.mode) }
{
    let Mode::Global = service.spec.mode else {
        return None;
    };
    for node in place_numbers(rows, service) {
        if is_to_leave(rows, service, node) {
            return Some(Duty::Leave(service.id, node));
        }
    }
    None
}

/// The first node that a service leaves.
pub fn first_leave<R: Rows>(rows: &R) -> Option<Duty>
    requires { IsUsable (R.tables rows.now) }
    ensures { let t = R.tables rows.now in
        result ≡ first_of (flat_map (λ s. leave_duties t s s.spec.mode) t.services) }
{
    for service in services(rows) {
        if let Some(duty) = leave_of(rows, service) {
            return Some(duty);
        }
    }
    None
}
