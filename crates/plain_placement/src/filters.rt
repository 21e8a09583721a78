// Which nodes admit a task, and which filter refuses it the others.
ghost use Rattle.std.specs.Prelude.{◌≡◌, ◌+◌, count_by, find, not, ℕ};
ghost use Rattle.std.specs.List.{list_any};
ghost use Rattle.plain_placement.specs.Inside.Filtering.{is_counted};
ghost use Rattle.swarm_objects.specs.Nodes.Filters.{has_free_host_ports, has_resources, here, is_below_most, is_supported, is_tested_on, passes, refusal_counts, refused_by, takes_tasks};
ghost use Rattle.swarm_objects.specs.Nodes.Holdings.{is_host_port_used, is_placed_on, reserved_cpu, reserved_mem, tasks_placed_on};
ghost use Rattle.swarm_objects.specs.Nodes.Words.{meets_all};
ghost use Rattle.swarm_plain.specs.Plain.{world_of};

use swarm_filters::{fits, has_host_clash, is_supported, is_tested_on, meets_all, takes_tasks};
use swarm_objects::{Id, Node, Port, Rows, Task};
use swarm_plain::Plain;

/// The task is from ASSIGNED to RUNNING on the node.
pub fn is_placed_on(task: &Task, node: Id) -> bool
    ensures { result ≡ is_placed_on node task.now }
{
    task.is_placed() && task.is_on(node)
}

// What the tasks that are placed on the node reserve of its processors.
fn reserved_cpu(plain: &Plain, node: Id) -> u128
    ensures { result ≡ reserved_cpu (world_of plain.now).tables node }
{
    let mut sum = 0;
    for task in plain.tasks.as_slice() {
        if is_placed_on(task, node) {
            sum += u128::from(task.template.cpu);
        }
    }
    sum
}

// What they reserve of its memory.
fn reserved_mem(plain: &Plain, node: Id) -> u128
    ensures { result ≡ reserved_mem (world_of plain.now).tables node }
{
    let mut sum = 0;
    for task in plain.tasks.as_slice() {
        if is_placed_on(task, node) {
            sum += u128::from(task.template.mem);
        }
    }
    sum
}

fn has_resources(plain: &Plain, task: &Task, node: &Node) -> bool
    ensures { result ≡ has_resources (world_of plain.now).tables task.now node.now }
{
    fits(reserved_cpu(plain, node.id), task.template.cpu, node.cpu)
        && fits(reserved_mem(plain, node.id), task.template.mem, node.mem)
}

// A task that is placed on the node has this host port.
fn is_host_port_used(plain: &Plain, node: Id, port: &Port) -> bool
    ensures { result ≡ is_host_port_used (tasks_placed_on (world_of plain.now).tables node) port.now }
{
    plain
        .tasks
        .as_slice()
        .iter()
        .filter(|task| is_placed_on(task, node))
        .any(|task| has_host_clash(port, task.template.host_ports.as_slice()))
}

// A task that is placed on the node has one of these host ports.
fn is_one_used(plain: &Plain, node: Id, ports: &[Port]) -> bool
    ensures { let placed = tasks_placed_on (world_of plain.now).tables node in
        result ≡ list_any (is_host_port_used placed) ports.now }
{
    ports
        .iter()
        .any(|port| is_host_port_used(plain, node, port))
}

/// No task that is placed on the node has one of the task's host ports.
pub fn has_free_host_ports(plain: &Plain, task: &Task, node: &Node) -> bool
    ensures { result ≡ has_free_host_ports (world_of plain.now).tables task.now node.now }
{
    !is_one_used(plain, node.id, task.template.host_ports.as_slice())
}

/// The service's live tasks from ASSIGNED to RUNNING on the node.
pub fn here(plain: &Plain, node: Id, service: Id) -> usize
    ensures { result ≡ here (world_of plain.now).tables node service }
{
    plain
        .tasks
        .as_slice()
        .iter()
        .filter(|task| task.is_of(service) && task.is_live() && is_placed_on(task, node))
        .count()
}

// There is no maximum, or fewer of the service's tasks are on the node.
fn is_below_most(plain: &Plain, task: &Task, node: &Node) -> bool
    ensures { result ≡ is_below_most (world_of plain.now).tables task.now node.now }
{
    let most = task.template.max_replicas;
    most == 0 || (here(plain, node.id, task.service) as u64) < most
}

// The filter with this number admits the task to the node.
fn passes(plain: &Plain, task: &Task, node: &Node, filter: u64) -> bool
    ensures { result ≡ passes (world_of plain.now).tables task.now node.now filter }
{
    match filter {
        0 => takes_tasks(plain, node),
        1 => has_resources(plain, task, node),
        2 => meets_all(task.template.constraints.as_slice(), node),
        3 => is_supported(task.template.platforms.as_slice(), node),
        4 => has_free_host_ports(plain, task, node),
        _ => is_below_most(plain, task, node),
    }
}

// The number of the first of these filters that refuses the task the node.
fn first_refusing(plain: &Plain, task: &Task, node: &Node, filters: &[u64]) -> Option<u64>
    ensures { let refuses = λ (k : ℕ). not (passes (world_of plain.now).tables task.now node.now k) in
        result ≡ find refuses filters.now }
{
    filters
        .iter()
        .copied()
        .find(|&filter| !passes(plain, task, node, filter))
}

// The number of the first filter that refuses the task the node.
fn refused_by(plain: &Plain, task: &Task, node: &Node) -> Option<u64>
    ensures { result ≡ refused_by (world_of plain.now).tables task.now node.now }
{
    first_refusing(plain, task, node, &[0, 1, 2, 3, 4, 5])
}

// The node is tested, and the filter with this number refuses it the task.
#[tactic(auto, unfolding(crate::specs::Inside::Filtering::is_counted))]
fn is_counted(plain: &Plain, task: &Task, filter: u64, node: &Node) -> bool
    ensures { result ≡ is_counted (world_of plain.now).tables task.now filter node.now }
{
    is_tested_on(task.place, node.id) && refused_by(plain, task, node) == Some(filter)
}

// How many of the tested nodes the filter with this number refuses the task.
fn refusals(plain: &Plain, task: &Task, filter: u64) -> u64
    ensures { let t = (world_of plain.now).tables in result ≡ count_by (is_counted t task.now filter) t.nodes }
{
    plain
        .nodes
        .as_slice()
        .iter()
        .filter(|node| is_counted(plain, task, filter, node))
        .count() as u64
}

/// For each filter, in order, how many of the tested nodes it refuses the task.
pub fn refusal_counts(plain: &Plain, task: &Task) -> [u64; 6]
    ensures { result ≡ refusal_counts (world_of plain.now).tables task.now }
{
    [
        refusals(plain, task, 0),
        refusals(plain, task, 1),
        refusals(plain, task, 2),
        refusals(plain, task, 3),
        refusals(plain, task, 4),
        refusals(plain, task, 5),
    ]
}
