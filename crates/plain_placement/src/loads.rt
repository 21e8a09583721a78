// What nodes hold, gathered in one pass over the tasks.
ghost use Rattle.std.specs.Prelude.{◌≡◌, ◌+◌, ◌<◌, ◌≤◌, ◌^◌, ◌&&◌, cond, true};
ghost use Rattle.plain_placement.specs.Inside.Loads.{IsLoad, IsLoadIfOpen, has_room_by, suits};
ghost use Rattle.swarm_objects.specs.Nodes.Holdings.{is_placed_on};
ghost use Rattle.swarm_objects.specs.Tasks.Words.{is_live, is_of};
ghost use Rattle.swarm_plain.specs.Plain.{world_of};

use crate::filters::{has_free_host_ports, is_placed_on};
use swarm_filters::{fits, is_supported, is_tested_on, meets_all, takes_tasks};
use swarm_objects::{Id, Node, Task};
use swarm_plain::Plain;

/// What the tasks from ASSIGNED to RUNNING on a node hold, as far as the placing of a service's task asks.
#[derive(Clone, Copy)]
pub struct NodeLoad {
    /// The processors that they reserve.
    pub cpu: u128,
    /// The memory that they reserve.
    pub mem: u128,
    /// How many are live and of the service.
    pub here: u64,
    /// How many are live.
    pub live: u64,
}

// Yes is 1, and no is 0.
fn one_if(yes: bool) -> u64
    ensures { result ≡ cond yes 1 0 }
{
    if yes { 1 } else { 0 }
}

// The number, which is one of 64 bits.
fn wide(number: u64) -> u128
    ensures value { result ≡ number }
    ensures small { result < 2 ^ 64 }
{
    u128::from(number)
}

// The load with what the task adds to it, where it is on the node.
fn with_task(load: NodeLoad, node: Id, service: Id, task: &Task) -> NodeLoad
    requires cpu { load.cpu + 2 ^ 64 < 2 ^ 128 }
    requires mem { load.mem + 2 ^ 64 < 2 ^ 128 }
    requires here { load.here + 1 < 2 ^ 64 }
    requires live { load.live + 1 < 2 ^ 64 }
    ensures cpu { result.cpu ≡ load.cpu + cond (is_placed_on node task.now) task.now.template.cpu 0 }
    ensures mem { result.mem ≡ load.mem + cond (is_placed_on node task.now) task.now.template.mem 0 }
    ensures here { let x = task.now in
        result.here ≡ load.here + cond (is_of service x && is_live x && is_placed_on node x) 1 0 }
    ensures live { let x = task.now in result.live ≡ load.live + cond (is_live x && is_placed_on node x) 1 0 }
    ensures small_cpu { result.cpu ≤ load.cpu + 2 ^ 64 }
    ensures small_mem { result.mem ≤ load.mem + 2 ^ 64 }
    ensures few_here { result.here ≤ load.here + 1 }
    ensures few_live { result.live ≤ load.live + 1 }
{
    if !is_placed_on(task, node) {
        return load;
    }
    let live = task.is_live();
    NodeLoad {
        cpu: load.cpu + wide(task.template.cpu),
        mem: load.mem + wide(task.template.mem),
        here: load.here + one_if(task.is_of(service) && live),
        live: load.live + one_if(live),
    }
}

// What the tasks on the node hold.
fn node_load(plain: &Plain, node: Id, service: Id) -> NodeLoad
    ensures { IsLoad (world_of plain.now).tables node service result }
{
    let mut load = NodeLoad {
        cpu: 0,
        mem: 0,
        here: 0,
        live: 0,
    };
    for task in plain.tasks.as_slice() {
        load = with_task(load, node, service, task);
    }
    load
}

// What can be said without the node's load lets the task come to it.
fn suits(plain: &Plain, task: &Task, node: &Node) -> bool
    ensures { result ≡ suits (world_of plain.now).tables task.now node.now }
{
    is_tested_on(task.place, node.id)
        && takes_tasks(plain, node)
        && meets_all(task.template.constraints.as_slice(), node)
        && is_supported(task.template.platforms.as_slice(), node)
        && has_free_host_ports(plain, task, node)
}

// The node has room for the task beside its load.
fn has_room(task: &Task, node: &Node, load: NodeLoad) -> bool
    ensures { result ≡ has_room_by task.now node.now load }
{
    let most = task.template.max_replicas;
    fits(load.cpu, task.template.cpu, node.cpu)
        && fits(load.mem, task.template.mem, node.mem)
        && (most == 0 || load.here < most)
}

// What the node holds, where it has room beside that.
fn load_if_roomy(plain: &Plain, task: &Task, node: &Node) -> Option<NodeLoad>
    requires { suits (world_of plain.now).tables task.now node.now ≡ true }
    ensures { IsLoadIfOpen (world_of plain.now).tables task.now node.now result }
{
    let load = node_load(plain, node.id, task.service);
    if has_room(task, node, load) {
        Some(load)
    } else {
        None
    }
}

/// What the node holds, where it is tested and admits the task.
pub fn load_if_open(plain: &Plain, task: &Task, node: &Node) -> Option<NodeLoad>
    ensures { IsLoadIfOpen (world_of plain.now).tables task.now node.now result }
{
    if suits(plain, task, node) {
        load_if_roomy(plain, task, node)
    } else {
        None
    }
}
