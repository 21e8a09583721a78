// What is waited for beside updates: tasks to be raised, executors, sessions, remote nodes.
ghost use Rattle.std.specs.Prelude.{◌≡◌, ◌&&◌, ◌++◌, IfSome, IsTrue, filter, flat_map, nat_lt, not, ℕ};
ghost use Rattle.swarm_agent.specs.Agent.{at_node};
ghost use Rattle.swarm_agent.specs.Times.{seen_agent};
ghost use Rattle.swarm_model.specs.Settle.{
  deadline_of,
  executor_wait,
  has_live_session,
  is_awaited_there,
  is_behind,
  is_remote,
  is_silent,
  node_deadline,
  remote_wait,
  session_wait,
  start_wait,
  wait_cmp,
};
ghost use Rattle.swarm_objects.specs.Loops.Agents.{is_mode_on};
ghost use Rattle.swarm_objects.specs.Nodes.Words.{is_node_and};
ghost use Rattle.swarm_objects.specs.Rows.{agent_node, is_row_and, least_by, node_id};
ghost use Rattle.swarm_objects.specs.Tasks.Words.{is_live, is_on, is_to_wait};
ghost use Rattle.swarm_objects.specs.Usable.{IsUsable};
ghost use Rattle.swarm_settle.specs.Asked.{AreAgentsAsked};
ghost use Rattle.swarm_settle.specs.ByAgent.{session_waits_of, waits_at};
ghost use Rattle.swarm_settle.specs.ByNode.{remote_waits_on};
ghost use Rattle.swarm_settle.specs.Phases.{EndsBefore, kept};
ghost use Rattle.swarm_settle.specs.Standing.{AgreeOnLive, with_sessions, world_with};
ghost use Rattle.swarm_spans.specs.Lines.{to_wait};
ghost use Rattle.swarm_spans.specs.Spans.{Covers, CoversTasks};

use crate::next_agents::next_agent_in;
use crate::wait::{Wait, wait_till};
use swarm_agent::theorems::times_that_no_step_looks_at;
use swarm_agent::{Agent, Agents};
use swarm_objects::walks::tasks_on;
use swarm_objects::{AgentMode, Cause, Desired, Id, Ms, Node, Rows, Task, TaskState, rank};
use swarm_sessions::Sessions;
use swarm_spans::{Span, next_node_in, next_task_in};

// Tasks that wait to be raised.

// A live task waits, and its time hasn't come.
fn waits_to_start<R: Rows>(rows: &R, task: &Task) -> bool
    ensures { result ≡ (is_live task.now && is_to_wait task.now && nat_lt (R.tables rows.now).clock task.now.raise_at) }
{
    task.is_live() && task.is_to_wait() && rows.now() < task.raise_at
}

/// The least of the best wait so far and the task's, where it waits to be raised.
pub fn start_wait<R: Rows>(rows: &R, best: Option<Wait>, task: &Task) -> Option<Wait>
    ensures { result ≡ least_by wait_cmp best (start_wait (R.tables rows.now) task.now) }
{
    if waits_to_start(rows, task) {
        wait_till(best, Cause::Start, task.id, Some(task.raise_at))
    } else {
        best
    }
}

/// The least of the best wait so far and those for tasks to be raised, of which each is in the span.
pub fn start_waits<R: Rows>(rows: &R, asked: Span, best: Option<Wait>) -> Option<Wait>
    requires usable { IsUsable (R.tables rows.now) }
    requires asked { CoversTasks to_wait (R.tables rows.now) asked }
    ensures { let t = R.tables rows.now in result ≡ least_by wait_cmp best (flat_map (start_wait t) t.tasks) }
{
    let mut least = best;
    let mut left = asked;
    while let Some(task) = next_task_in(rows, &left) {
        least = start_wait(rows, least, task);
        left.pass(task.id);
    }
    least
}

// Executors.

/// The agent is on.
pub fn is_on(mode: AgentMode) -> bool
    ensures { result ≡ is_mode_on mode }
{
    mode == AgentMode::On
}

fn is_agent_on(agent: &Agent) -> bool
    ensures { result ≡ is_mode_on agent.now.mode }
{
    is_on(agent.mode())
}

// The phase, where there is one and it comes before the best wait so far.
fn keep_phase(best: Option<Wait>, phase: Option<(Ms, Id)>) -> Option<Wait>
    ensures { result ≡ kept best phase }
{
    match phase {
        Some((time, task)) => wait_till(best, Cause::Executor, task, Some(time)),
        None => best,
    }
}

// The best wait so far ends before this time.
fn ends_before(best: &Option<Wait>, time: Ms) -> bool
    ensures { IsTrue result → EndsBefore best.now time }
{
    match best {
        Some(wait) => wait.time < time,
        None => false,
    }
}

// The least of the best wait so far and those for the phases of the agent's executors, which aren't gone over where
// none is to come or none ends as soon.
fn agent_wait(best: Option<Wait>, agent: &Agent) -> Option<Wait>
    ensures { (node : ℕ) → result ≡ least_by wait_cmp best (executor_wait (seen_agent (at_node node agent.now))) }
{
    times_that_no_step_looks_at();
    if !is_agent_on(agent) {
        return best;
    }
    let wake = agent.first_wake();
    if wake == Ms::MAX {
        return best;
    }
    if ends_before(&best, wake) {
        return best;
    }
    keep_phase(best, agent.pending())
}

// Sessions.

// The end of the node's session on record.
fn deadline_of<R: Rows>(rows: &R, sessions: &Sessions, node: Id) -> Option<Ms>
    ensures { result ≡ deadline_of (with_sessions (R.tables rows.now) sessions.now) node }
{
    match sessions.get(node) {
        Some(session) => Some(session.deadline),
        None => None,
    }
}

// The node's agent is inside, and isn't on.
fn has_agent_off(agents: &Agents, node: Id) -> bool
    ensures { result ≡ is_row_and agent_node (λ a. not (is_mode_on a.mode)) agents.now node }
{
    match agents.get(node) {
        Some(agent) => !is_agent_on(agent),
        None => false,
    }
}

// The READY node's agent isn't on.
fn is_silent<R: Rows>(rows: &R, sessions: &Sessions, agents: &Agents, node: &Node) -> bool
    ensures { result ≡ is_silent (world_with (R.tables rows.now) sessions.now agents.now) node.now }
{
    node.is_ready() && !node.remote && has_agent_off(agents, node.id)
}

fn session_wait<R: Rows>(
    rows: &R,
    sessions: &Sessions,
    agents: &Agents,
    best: Option<Wait>,
    node: &Node,
) -> Option<Wait>
    ensures { let w = world_with (R.tables rows.now) sessions.now agents.now in
        result ≡ least_by wait_cmp best (session_wait w node.now) }
{
    if is_silent(rows, sessions, agents, node) {
        wait_till(
            best,
            Cause::Session,
            node.id,
            deadline_of(rows, sessions, node.id),
        )
    } else {
        best
    }
}

// The same of the agent's node, where the agent isn't on: else its session isn't waited for.
fn agent_session<R: Rows>(
    rows: &R,
    sessions: &Sessions,
    agents: &Agents,
    best: Option<Wait>,
    id: Id,
    agent: &Agent,
) -> Option<Wait>
    ensures { let w = world_with (R.tables rows.now) sessions.now agents.now in
        result ≡ least_by wait_cmp best (session_waits_of w (seen_agent (at_node id agent.now))) }
{
    if is_agent_on(agent) {
        return best;
    }
    match rows.node(id) {
        Some(node) => session_wait(rows, sessions, agents, best, node),
        None => best,
    }
}

// Executors and sessions, agent by agent.

// The least of the best wait so far and what is waited for at the agent's node.
fn waits_at<R: Rows>(
    rows: &R,
    sessions: &Sessions,
    agents: &Agents,
    best: Option<Wait>,
    id: Id,
    agent: &Agent,
) -> Option<Wait>
    ensures { let w = world_with (R.tables rows.now) sessions.now agents.now in
        result ≡ least_by wait_cmp best (waits_at w (seen_agent (at_node id agent.now))) }
{
    let executed = agent_wait(best, agent);
    agent_session(rows, sessions, agents, executed, id, agent)
}

// The same of all agents.
fn waits_at_all<R: Rows>(
    rows: &R,
    sessions: &Sessions,
    agents: &Agents,
    best: Option<Wait>,
) -> Option<Wait>
    ensures { let w = world_with (R.tables rows.now) sessions.now agents.now in
        result ≡ least_by wait_cmp best (flat_map (waits_at w) agents.now) }
{
    let mut least = best;
    for (id, agent) in agents.iter() {
        least = waits_at(rows, sessions, agents, least, *id, agent);
    }
    least
}

// The same, where each agent that may be waited for is in the span.
fn waits_at_some<R: Rows>(
    rows: &R,
    sessions: &Sessions,
    agents: &Agents,
    asked: Span,
    best: Option<Wait>,
) -> Option<Wait>
    requires { AreAgentsAsked agents.now asked }
    ensures { let w = world_with (R.tables rows.now) sessions.now agents.now in
        result ≡ least_by wait_cmp best (flat_map (waits_at w) agents.now) }
{
    let mut least = best;
    let mut left = asked;
    while let Some((id, agent)) = next_agent_in(agents, &left) {
        least = waits_at(rows, sessions, agents, least, *id, agent);
        left.pass(*id);
    }
    least
}

/// The least of the best wait so far, those for the phases of executors, and those for the sessions of nodes whose
/// agents are silent. Of agents those alone are asked that are in the span, where there is one.
pub fn agent_waits<R: Rows>(
    rows: &R,
    sessions: &Sessions,
    agents: &Agents,
    asked: Option<Span>,
    best: Option<Wait>,
) -> Option<Wait>
    requires usable { IsUsable (R.tables rows.now) }
    requires asked { IfSome asked (AreAgentsAsked agents.now) }
    ensures { let t = R.tables rows.now in let w = world_with t sessions.now agents.now in
        result ≡ least_by wait_cmp best (flat_map executor_wait agents.now ++ flat_map (session_wait w) t.nodes) }
{
    match asked {
        Some(span) => waits_at_some(rows, sessions, agents, span, best),
        None => waits_at_all(rows, sessions, agents, best),
    }
}

// Remote nodes.

// The state that a remote node has still to report, given what is wanted.
fn is_behind(state: TaskState, desired: Desired) -> bool
    ensures { result ≡ is_behind state desired }
{
    match desired {
        Desired::Ready => rank(state) < rank(TaskState::Ready),
        Desired::Running | Desired::Complete => rank(state) < rank(TaskState::Running),
        Desired::Shutdown | Desired::Remove => true,
    }
}

// The task's node is remote.
fn is_on_remote<R: Rows>(rows: &R, task: &Task) -> bool
    ensures { result ≡ is_node_and (R.tables rows.now) is_remote task.now }
{
    match task.node {
        Some(id) => match rows.node(id) {
            Some(node) => node.remote,
            None => false,
        },
        None => false,
    }
}

// The task's node has a live session.
fn has_live_session<R: Rows>(rows: &R, task: &Task) -> bool
    ensures { result ≡ has_live_session (R.tables rows.now) task.now }
{
    match task.node {
        Some(id) => rows.session_live(id),
        None => false,
    }
}

/// The task's remote node has still to report it.
pub fn is_awaited_there<R: Rows>(rows: &R, task: &Task) -> bool
    ensures { result ≡ is_awaited_there (R.tables rows.now) task.now }
{
    task.is_placed()
        && is_on_remote(rows, task)
        && has_live_session(rows, task)
        && is_behind(task.state, task.desired)
}

// The end of the session of the task's node.
fn node_deadline<R: Rows>(rows: &R, sessions: &Sessions, task: &Task) -> Option<Ms>
    ensures { result ≡ node_deadline (with_sessions (R.tables rows.now) sessions.now) task.now }
{
    match task.node {
        Some(id) => deadline_of(rows, sessions, id),
        None => None,
    }
}

#[tactic(auto, using(crate::proofs::Standing::awaited))]
fn remote_wait<R: Rows>(
    rows: &R,
    sessions: &Sessions,
    best: Option<Wait>,
    task: &Task,
) -> Option<Wait>
    requires { AgreeOnLive (R.tables rows.now) sessions.now }
    ensures { let t = with_sessions (R.tables rows.now) sessions.now in
        result ≡ least_by wait_cmp best (remote_wait t task.now) }
{
    if is_awaited_there(rows, task) {
        wait_till(
            best,
            Cause::Remote,
            task.id,
            node_deadline(rows, sessions, task),
        )
    } else {
        best
    }
}

// The least of the best wait so far and those for the reports of the node's tasks.
fn reports_on<R: Rows>(rows: &R, sessions: &Sessions, best: Option<Wait>, node: Id) -> Option<Wait>
    requires usable { IsUsable (R.tables rows.now) }
    requires live { AgreeOnLive (R.tables rows.now) sessions.now }
    ensures { let t = with_sessions (R.tables rows.now) sessions.now in
        result ≡ least_by wait_cmp best (flat_map (remote_wait t) (filter (is_on node) t.tasks)) }
{
    let mut least = best;
    for task in tasks_on(rows, node) {
        least = remote_wait(rows, sessions, least, task);
    }
    least
}

// The same, where the node is remote.
fn remote_waits_on<R: Rows>(
    rows: &R,
    sessions: &Sessions,
    best: Option<Wait>,
    node: &Node,
) -> Option<Wait>
    requires usable { IsUsable (R.tables rows.now) }
    requires live { AgreeOnLive (R.tables rows.now) sessions.now }
    ensures { let t = with_sessions (R.tables rows.now) sessions.now in
        result ≡ least_by wait_cmp best (remote_waits_on t node.now) }
{
    if node.remote {
        reports_on(rows, sessions, best, node.id)
    } else {
        best
    }
}

/// The least of the best wait so far and those for reports of remote nodes, of which each is in the span. Tasks of other
/// nodes aren't looked at.
pub fn remote_waits<R: Rows>(
    rows: &R,
    sessions: &Sessions,
    asked: Span,
    best: Option<Wait>,
) -> Option<Wait>
    requires usable { IsUsable (R.tables rows.now) }
    requires live { AgreeOnLive (R.tables rows.now) sessions.now }
    requires asked { Covers node_id is_remote asked (R.tables rows.now).nodes }
    ensures { let t = with_sessions (R.tables rows.now) sessions.now in
        result ≡ least_by wait_cmp best (flat_map (remote_wait t) t.tasks) }
{
    let mut least = best;
    let mut left = asked;
    while let Some(node) = next_node_in(rows, &left) {
        least = remote_waits_on(rows, sessions, least, node);
        left.pass(node.id);
    }
    least
}
