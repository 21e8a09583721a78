// The six filters.
ghost use Rattle.std.specs.Prelude.{◌≡◌, ◌+◌, nat_le};
ghost use Rattle.std.specs.List.{list_any};
ghost use Rattle.swarm_objects.specs.Nodes.Filters.{has_free_host_ports, has_resources, is_below_most, is_platform, is_supported, passes, takes_tasks};
ghost use Rattle.swarm_objects.specs.Nodes.Holdings.{is_host_port_used, tasks_placed_on};
ghost use Rattle.swarm_objects.specs.Rules.Services.{is_host_clash};
ghost use Rattle.swarm_objects.specs.Usable.{IsUsable};

use crate::matching::meets_all;
use swarm_objects::loads::Loads;
use swarm_objects::placed::{here, tasks_placed_on};
use swarm_objects::ports::is_host_clash;
use swarm_objects::{Id, Node, Platform, Port, Rows, Task};

/// The node is READY and ACTIVE, and its session is live.
pub fn takes_tasks<R: Rows>(rows: &R, node: &Node) -> bool
    ensures { result ≡ takes_tasks (R.tables rows.now) node.now }
{
    node.is_ready() && node.is_active() && rows.session_live(node.id)
}

/// So much more than what is reserved is still within the whole.
pub fn fits(reserved: u128, more: u64, whole: u64) -> bool
    ensures { result ≡ nat_le (reserved + more) whole }
{
    reserved.saturating_add(u128::from(more)) <= u128::from(whole)
}

fn has_resources<L: Loads>(loads: &L, task: &Task, node: &Node) -> bool
    ensures { result ≡ has_resources (L.tables loads.now) task.now node.now }
{
    fits(loads.cpu(node.id), task.template.cpu, node.cpu)
        && fits(loads.mem(node.id), task.template.mem, node.mem)
}

fn is_platform(node: &Node, platform: &Platform) -> bool
    ensures { result ≡ is_platform node.now platform.now }
{
    platform.os.as_str() == node.os.as_str() && platform.arch.as_str() == node.arch.as_str()
}

// One of the platforms is the node's.
fn has_platform(platforms: &[Platform], node: &Node) -> bool
    ensures { result ≡ list_any (is_platform node.now) platforms.now }
{
    platforms.iter().any(|platform| is_platform(node, platform))
}

/// No platform is named, or one is the node's.
#[tactic(auto, using(swarm_objects::proofs::Supported::one_named))]
pub fn is_supported(platforms: &[Platform], node: &Node) -> bool
    ensures { result ≡ is_supported platforms.now node.now }
{
    platforms.is_empty() || has_platform(platforms, node)
}

/// One of the ports has the protocol and number of this one.
pub fn has_host_clash(port: &Port, others: &[Port]) -> bool
    ensures { result ≡ list_any (is_host_clash port.now) others.now }
{
    others.iter().any(|other| is_host_clash(port, other))
}

// A task that is placed on the node has this host port.
fn is_host_port_used<R: Rows>(rows: &R, node: Id, port: &Port) -> bool
    requires { IsUsable (R.tables rows.now) }
    ensures { result ≡ is_host_port_used (tasks_placed_on (R.tables rows.now) node) port.now }
{
    tasks_placed_on(rows, node).any(|task| has_host_clash(
        port,
        task.template.host_ports.as_slice(),
    ))
}

// A task that is placed on the node has one of these host ports.
fn is_one_used<R: Rows>(rows: &R, node: Id, ports: &[Port]) -> bool
    requires { IsUsable (R.tables rows.now) }
    ensures { result ≡ list_any (is_host_port_used (tasks_placed_on (R.tables rows.now) node)) ports.now }
{
    for port in ports {
        if is_host_port_used(rows, node, port) {
            return true;
        }
    }
    false
}

fn has_free_host_ports<R: Rows>(rows: &R, task: &Task, node: &Node) -> bool
    requires { IsUsable (R.tables rows.now) }
    ensures { result ≡ has_free_host_ports (R.tables rows.now) task.now node.now }
{
    !is_one_used(rows, node.id, task.template.host_ports.as_slice())
}

// There is no maximum, or fewer of the service's tasks are on the node.
fn is_below_most<R: Rows>(rows: &R, task: &Task, node: &Node) -> bool
    requires { IsUsable (R.tables rows.now) }
    ensures { result ≡ is_below_most (R.tables rows.now) task.now node.now }
{
    let most = task.template.max_replicas;
    most == 0 || here(rows, node.id, task.service) < most
}

/// The filter with this number admits the task to the node.
pub fn passes<R: Rows, L: Loads>(rows: &R, loads: &L, task: &Task, node: &Node, filter: u32) -> bool
    requires usable { IsUsable (R.tables rows.now) }
    requires same { L.tables loads.now ≡ R.tables rows.now }
    ensures { result ≡ passes (R.tables rows.now) task.now node.now filter }
{
    match filter {
        0 => takes_tasks(rows, node),
        1 => has_resources(loads, task, node),
        2 => meets_all(task.template.constraints.as_slice(), node),
        3 => is_supported(task.template.platforms.as_slice(), node),
        4 => has_free_host_ports(rows, task, node),
        _ => is_below_most(rows, task, node),
    }
}
