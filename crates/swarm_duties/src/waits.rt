// What a world without duties waits for, by the least time: tasks to be raised, executors, sessions, remote nodes.
ghost use Rattle.std.specs.Prelude.{◌≡◌, flat_map, not, true};
ghost use Rattle.std.specs.List.{list_all};
ghost use Rattle.std.specs.Option.{option_copied};
ghost use Rattle.swarm_model.specs.Settle.{deadline_of, executor_wait, is_silent, node_deadline, remote_wait, session_wait};
ghost use Rattle.swarm_model.specs.Settle.{start_wait, wait_cmp};
ghost use Rattle.swarm_objects.specs.Bounds.{is_near_agent, is_near_executor};
ghost use Rattle.swarm_objects.specs.Loops.Agents.{is_mode_on};
ghost use Rattle.swarm_objects.specs.Rows.{agent_node, is_row_and, least_by, row_at};
ghost use Rattle.swarm_plain.specs.Plain.{tables_of, world_of};

use swarm_agent::phase_time;
use swarm_objects::{Cause, Id, Ms, Node, NodeAgent, Task};
use swarm_plain::Plain;
use swarm_settle::{Wait, is_awaited_there, is_on, start_wait, wait_till};

// Tasks that wait to be raised.

/// The least of the best wait so far and those for tasks to be raised.
pub fn start_waits(plain: &Plain, best: Option<Wait>) -> Option<Wait>
    ensures { result ≡ least_by wait_cmp best (flat_map (start_wait (tables_of plain.now)) plain.now.tasks) }
{
    let mut least = best;
    for task in plain.tasks.as_slice() {
        least = start_wait(plain, least, task);
    }
    least
}

// Executors.

fn executor_wait(best: Option<Wait>, agent: &NodeAgent) -> Option<Wait>
    requires { list_all is_near_executor agent.now.executors ≡ true }
    ensures { result ≡ least_by wait_cmp best (executor_wait agent.now) }
{
    if !is_on(agent.mode) {
        return best;
    }
    let mut least = best;
    for executor in agent.executors.as_slice() {
        least = wait_till(least, Cause::Executor, executor.task, phase_time(executor));
    }
    least
}

/// The least of the best wait so far and those for the phases of executors.
pub fn executor_waits(plain: &Plain, best: Option<Wait>) -> Option<Wait>
    requires { list_all is_near_agent plain.now.agents ≡ true }
    ensures { result ≡ least_by wait_cmp best (flat_map executor_wait plain.now.agents) }
{
    let mut least = best;
    for agent in plain.agents.as_slice() {
        least = executor_wait(least, agent);
    }
    least
}

// Sessions.

// The end of the node's session on record.
fn deadline_of(plain: &Plain, node: Id) -> Option<Ms>
    ensures { result ≡ deadline_of (tables_of plain.now) node }
{
    match plain
        .sessions
        .as_slice()
        .iter()
        .find(|row| row.node == node)
    {
        Some(row) => Some(row.session.deadline),
        None => None,
    }
}

// The agent of the node, where that is inside.
fn agent_of(plain: &Plain, node: Id) -> Option<&NodeAgent>
    ensures { option_copied result ≡ row_at agent_node node plain.now.agents }
{
    plain
        .agents
        .as_slice()
        .iter()
        .find(|agent| agent.node == node)
}

// The node's agent is inside, and isn't on.
fn has_agent_off(plain: &Plain, node: Id) -> bool
    ensures { result ≡ is_row_and agent_node (λ a. not (is_mode_on a.mode)) plain.now.agents node }
{
    match agent_of(plain, node) {
        Some(agent) => !is_on(agent.mode),
        None => false,
    }
}

// The READY node's agent isn't on.
fn is_silent(plain: &Plain, node: &Node) -> bool
    ensures { result ≡ is_silent (world_of plain.now) node.now }
{
    node.is_ready() && !node.remote && has_agent_off(plain, node.id)
}

fn session_wait(plain: &Plain, best: Option<Wait>, node: &Node) -> Option<Wait>
    ensures { result ≡ least_by wait_cmp best (session_wait (world_of plain.now) node.now) }
{
    if is_silent(plain, node) {
        wait_till(best, Cause::Session, node.id, deadline_of(plain, node.id))
    } else {
        best
    }
}

/// The least of the best wait so far and those for the sessions of nodes whose agents are silent.
pub fn session_waits(plain: &Plain, best: Option<Wait>) -> Option<Wait>
    ensures { result ≡ least_by wait_cmp best (flat_map (session_wait (world_of plain.now)) plain.now.nodes) }
{
    let mut least = best;
    for node in plain.nodes.as_slice() {
        least = session_wait(plain, least, node);
    }
    least
}

// Remote nodes.

// The end of the session of the task's node.
fn node_deadline(plain: &Plain, task: &Task) -> Option<Ms>
    ensures { result ≡ node_deadline (tables_of plain.now) task.now }
{
    match task.node {
        Some(id) => deadline_of(plain, id),
        None => None,
    }
}

fn remote_wait(plain: &Plain, best: Option<Wait>, task: &Task) -> Option<Wait>
    ensures { result ≡ least_by wait_cmp best (remote_wait (tables_of plain.now) task.now) }
{
    if is_awaited_there(plain, task) {
        wait_till(best, Cause::Remote, task.id, node_deadline(plain, task))
    } else {
        best
    }
}

/// The least of the best wait so far and those for reports of remote nodes.
pub fn remote_waits(plain: &Plain, best: Option<Wait>) -> Option<Wait>
    ensures { result ≡ least_by wait_cmp best (flat_map (remote_wait (tables_of plain.now)) plain.now.tasks) }
{
    let mut least = best;
    for task in plain.tasks.as_slice() {
        least = remote_wait(plain, least, task);
    }
    least
}
