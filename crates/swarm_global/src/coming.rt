// Nodes that global services come to.
ghost use Rattle.std.specs.Prelude.{◌≡◌, flat_map};
ghost use Rattle.swarm_objects.specs.Loops.Global.{come_duties, is_missing, wants_here};
ghost use Rattle.swarm_objects.specs.Rows.{first_of};
ghost use Rattle.swarm_objects.specs.Usable.{IsUsable};

use role_words::is_held_place;
use swarm_filters::meets_all;
use swarm_objects::walks::{nodes, services};
use swarm_objects::{Duty, Mode, Node, Rows, Service};

/// The node is to have a task of the service.
pub fn wants_here(service: &Service, node: &Node) -> bool
    ensures { result ≡ wants_here service.now node.now }
{
    node.is_ready()
        && node.is_active()
        && meets_all(service.spec.template.constraints.as_slice(), node)
}

// The node is to have a task of the service, and its place isn't held.
fn is_missing<R: Rows>(rows: &R, service: &Service, node: &Node) -> bool
    requires { IsUsable (R.tables rows.now) }
    ensures { result ≡ is_missing (R.tables rows.now) service.now node.now }
{
    wants_here(service, node) && !is_held_place(rows, service, node.id)
}

/// The first node that the service comes to.
pub fn come_of<R: Rows>(rows: &R, service: &Service) -> Option<Duty>
    requires { IsUsable (R.tables rows.now) }
    ensures { result ≡ first_of (come_duties (R.tables rows.now) service.now service.now.spec.mode) }
{
    let Mode::Global = service.spec.mode else {
        return None;
    };
    for node in nodes(rows) {
        if is_missing(rows, service, node) {
            return Some(Duty::GlobalCreate(service.id, node.id));
        }
    }
    None
}

/// The first node that a service comes to.
pub fn first_come<R: Rows>(rows: &R) -> Option<Duty>
    requires { IsUsable (R.tables rows.now) }
    ensures { let t = R.tables rows.now in
        result ≡ first_of (flat_map (λ s. come_duties t s s.spec.mode) t.services) }
{
    for service in services(rows) {
        if let Some(duty) = come_of(rows, service) {
            return Some(duty);
        }
    }
    None
}
