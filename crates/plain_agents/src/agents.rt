// The agents' duties, the test of each, and what each does.
ghost use Rattle.std.specs.Prelude.{◌≡◌, ◌==◌, ◌++◌, ◌<◌, IfOk, OnOk, OnErr, is_some, option_to_list, true};
ghost use Rattle.std.specs.List.{list_all, list_any, position};
ghost use Rattle.std.specs.Option.{option_copied};
ghost use Rattle.plain_agents.specs.OneAgent.{beats, finished, forgets, has_executor, is_active, pulls, registers, reports, steps, takes_in, with_executors};
ghost use Rattle.swarm_objects.specs.Agents.Messages.{change_executor, message_for};
ghost use Rattle.swarm_objects.specs.Bounds.{IsSmall, far_end, is_near_agent, is_near_executor};
ghost use Rattle.swarm_objects.specs.Changes.{with_tables};
ghost use Rattle.swarm_objects.specs.Duties.{is_due};
ghost use Rattle.swarm_objects.specs.Loops.Agents.{after_apply, after_beat, after_exec, after_forget, after_pull, after_register, after_report, agent_duties, agents, begun, change_agent, duties_on, executor_at, has_step, inbox_duties, is_beat_due, is_forgotten, is_mode_on, is_news, received, report_duties, session_duties, stepped, told, wants_report};
ghost use Rattle.swarm_objects.specs.Loops.Words.{duty_where};
ghost use Rattle.swarm_objects.specs.Nodes.Sessions.{ready_node, session_of};
ghost use Rattle.swarm_objects.specs.Rows.{RisesFrom, agent_node, change_row, drop_row, executor_task, is_some_and};
ghost use Rattle.swarm_objects.specs.Rows.{node_id, row_at, session_node};
ghost use Rattle.swarm_objects.specs.Sound.{IsOrderedBeside};
ghost use Rattle.swarm_plain.specs.Entries.{HasOrder};
ghost use Rattle.swarm_plain.specs.Plain.{tables_of, world_of};

use crate::executors::{applied, executor_of};
use crate::news::has_message;
use swarm_agent::{has_passed, has_step, is_forgotten, is_news, make_step};
use swarm_objects::{
    AgentMode, Duty, Executor, Id, List, Message, Ms, NoMemory, Node, NodeAgent, NodeSession,
    NodeState, Rows, Version, add, drop_row, put_in_order,
};
use swarm_plain::Plain;
use swarm_plain::remote::raise_task;

// The words of the conditions.

fn is_on(agent: &NodeAgent) -> bool
    ensures { result ≡ is_mode_on agent.now.mode }
{
    agent.mode == AgentMode::On
}

// The session's last beat is a heartbeat period ago.
fn is_beat_old(plain: &Plain, row: &NodeSession) -> bool
    ensures { result ≡ is_beat_due (tables_of plain.now) row.now }
{
    has_passed(plain.clock, row.session.beat, plain.settings.heartbeat)
}

fn session_of(sessions: &[NodeSession], node: Id) -> Option<&NodeSession>
    ensures { option_copied result ≡ row_at session_node node sessions.now }
{
    sessions.iter().find(|row| row.node == node)
}

// The last beat of the node's session is a heartbeat period ago.
fn wants_beat(plain: &Plain, node: Id) -> bool
    ensures { let t = tables_of plain.now in
        result ≡ is_some_and (is_beat_due t) (session_of t node) }
{
    match session_of(plain.sessions.as_slice(), node) {
        Some(row) => is_beat_old(plain, row),
        None => false,
    }
}

// It has news of a task that is there. The task is looked up last.
fn wants_report(plain: &Plain, executor: &Executor) -> bool
    ensures { result ≡ wants_report (tables_of plain.now) executor.now }
{
    !executor.gone
        && is_news(executor.state, executor.reported)
        && plain.task(executor.task).is_some()
}

// All duties.

// The agent registers, or its session has a beat.
fn session_duty(plain: &Plain, agent: &NodeAgent, live: bool) -> Option<Duty>
    ensures { option_to_list result ≡ session_duties (world_of plain.now) agent.now live }
{
    if !live {
        return Some(Duty::Register(agent.node));
    }
    if wants_beat(plain, agent.node) {
        return Some(Duty::Beat(agent.node));
    }
    None
}

// The message in the inbox is applied; where there is none and one is there, it is pulled.
fn inbox_duty(plain: &Plain, agent: &NodeAgent, live: bool) -> Option<Duty>
    requires { HasOrder (tables_of plain.now) }
    ensures { let a = agent.now in option_to_list result ≡ inbox_duties (world_of plain.now) a live a.inbox }
{
    if agent.inbox.is_some() {
        return Some(Duty::Apply(agent.node));
    }
    if live && has_message(plain, agent.node) {
        return Some(Duty::Pull(agent.node));
    }
    None
}

// Puts the duty last, where there is one.
fn add_duty(duties: &mut List<Duty>, duty: Option<Duty>) -> Result<(), NoMemory>
    ensures { OnOk result (duties.new ≡ duties.old ++ option_to_list duty) }
{
    match duty {
        Some(duty) => add(duties, duty),
        None => Ok(()),
    }
}

fn add_steps(duties: &mut List<Duty>, clock: Ms, agent: &NodeAgent) -> Result<(), NoMemory>
    ensures { OnOk result (duties.new
        ≡ duties.old ++ duty_where (has_step clock) (λ e. Duty.Exec agent.now.node e.task) agent.now.executors) }
{
    for executor in agent.executors.as_slice() {
        if has_step(clock, executor) {
            add(duties, Duty::Exec(agent.node, executor.task))?;
        }
    }
    Ok(())
}

fn add_reports(duties: &mut List<Duty>, plain: &Plain, agent: &NodeAgent) -> Result<(), NoMemory>
    ensures { OnOk result (duties.new ≡ duties.old ++ report_duties (world_of plain.now) agent.now true) }
{
    for executor in agent.executors.as_slice() {
        if wants_report(plain, executor) {
            add(duties, Duty::Report(agent.node, executor.task))?;
        }
    }
    Ok(())
}

fn add_forgotten(duties: &mut List<Duty>, agent: &NodeAgent) -> Result<(), NoMemory>
    ensures { OnOk result (duties.new
        ≡ duties.old ++ duty_where is_forgotten (λ e. Duty.Forget agent.now.node e.task) agent.now.executors) }
{
    for executor in agent.executors.as_slice() {
        if is_forgotten(executor) {
            add(duties, Duty::Forget(agent.node, executor.task))?;
        }
    }
    Ok(())
}

// The duties of an agent that is on, whose session is live or isn't.
fn add_duties_on(
    duties: &mut List<Duty>,
    plain: &Plain,
    agent: &NodeAgent,
    live: bool,
) -> Result<(), NoMemory>
    requires { HasOrder (tables_of plain.now) }
    ensures { OnOk result (duties.new ≡ duties.old ++ duties_on (world_of plain.now) agent.now live) }
{
    add_duty(duties, session_duty(plain, agent, live))?;
    add_duty(duties, inbox_duty(plain, agent, live))?;
    add_steps(duties, plain.clock, agent)?;
    if live {
        add_reports(duties, plain, agent)?;
    }
    add_forgotten(duties, agent)
}

fn add_agent_duties(
    duties: &mut List<Duty>,
    plain: &Plain,
    agent: &NodeAgent,
) -> Result<(), NoMemory>
    requires { HasOrder (tables_of plain.now) }
    ensures { OnOk result (duties.new ≡ duties.old ++ agent_duties (world_of plain.now) agent.now) }
{
    if !is_on(agent) {
        return Ok(());
    }
    add_duties_on(duties, plain, agent, plain.session_live(agent.node))
}

/// What the agents have to do, agent by agent.
pub fn agents_duties(plain: &Plain) -> Result<List<Duty>, NoMemory>
    requires { HasOrder (tables_of plain.now) }
    ensures { IfOk result (λ duties. duties ≡ agents (world_of plain.now)) }
{
    let mut duties = List::new(plain.alloc);
    for agent in plain.agents.as_slice() {
        add_agent_duties(&mut duties, plain, agent)?;
    }
    Ok(duties)
}

// The test of one duty.

// The agent of this node is on.
fn is_active(agent: &NodeAgent, node: Id) -> bool
    ensures { result ≡ is_active node agent.now }
{
    agent.node == node && is_on(agent)
}

fn registers(plain: &Plain, node: Id, agent: &NodeAgent) -> bool
    ensures { result ≡ registers (tables_of plain.now) node agent.now }
{
    is_active(agent, node) && !plain.session_live(agent.node)
}

// The node has an agent that registers.
fn one_registers(plain: &Plain, node: Id) -> bool
    ensures { result ≡ list_any (registers (tables_of plain.now) node) plain.now.agents }
{
    plain
        .agents
        .as_slice()
        .iter()
        .any(|agent| registers(plain, node, agent))
}

/// The node's agent is to register.
pub fn is_register_due(plain: &Plain, node: Id) -> bool
    ensures { result ≡ is_due (world_of plain.now) (Duty.Register node) }
{
    one_registers(plain, node)
}

fn beats(plain: &Plain, node: Id, agent: &NodeAgent) -> bool
    ensures { result ≡ beats (tables_of plain.now) node agent.now }
{
    is_active(agent, node) && plain.session_live(agent.node) && wants_beat(plain, agent.node)
}

// The node has an agent whose session gets a beat.
fn one_beats(plain: &Plain, node: Id) -> bool
    ensures { result ≡ list_any (beats (tables_of plain.now) node) plain.now.agents }
{
    plain
        .agents
        .as_slice()
        .iter()
        .any(|agent| beats(plain, node, agent))
}

/// The session of the node's agent is to have a beat.
pub fn is_beat_due(plain: &Plain, node: Id) -> bool
    ensures { result ≡ is_due (world_of plain.now) (Duty.Beat node) }
{
    one_beats(plain, node)
}

fn takes_in(node: Id, agent: &NodeAgent) -> bool
    ensures { result ≡ takes_in node agent.now }
{
    is_active(agent, node) && agent.inbox.is_some()
}

// The node has an agent that applies the message in its inbox.
fn one_takes_in(plain: &Plain, node: Id) -> bool
    ensures { result ≡ list_any (takes_in node) plain.now.agents }
{
    plain
        .agents
        .as_slice()
        .iter()
        .any(|agent| takes_in(node, agent))
}

/// The node's agent is to apply the message in its inbox.
pub fn is_apply_due(plain: &Plain, node: Id) -> bool
    ensures { result ≡ is_due (world_of plain.now) (Duty.Apply node) }
{
    one_takes_in(plain, node)
}

fn pulls(plain: &Plain, node: Id, agent: &NodeAgent) -> bool
    requires { HasOrder (tables_of plain.now) }
    ensures { result ≡ pulls (world_of plain.now) node agent.now }
{
    is_active(agent, node)
        && agent.inbox.is_none()
        && plain.session_live(agent.node)
        && has_message(plain, agent.node)
}

// The node has an agent that pulls.
fn one_pulls(plain: &Plain, node: Id) -> bool
    requires { HasOrder (tables_of plain.now) }
    ensures { result ≡ list_any (pulls (world_of plain.now) node) plain.now.agents }
{
    for agent in plain.agents.as_slice() {
        if pulls(plain, node, agent) {
            return true;
        }
    }
    false
}

/// The node's agent is to pull a message.
pub fn is_pull_due(plain: &Plain, node: Id) -> bool
    requires { HasOrder (tables_of plain.now) }
    ensures { result ≡ is_due (world_of plain.now) (Duty.Pull node) }
{
    one_pulls(plain, node)
}

// The executor of the task has a step to make.
fn has_step_of(clock: Ms, task: Id, executors: &[Executor]) -> bool
    ensures { result ≡ has_executor (has_step clock) task executors.now }
{
    executors.iter().any(|executor| executor.task == task && has_step(clock, executor))
}

fn steps(clock: Ms, node: Id, task: Id, agent: &NodeAgent) -> bool
    ensures { result ≡ steps clock node task agent.now }
{
    is_active(agent, node) && has_step_of(clock, task, agent.executors.as_slice())
}

// The node has an agent whose executor of the task makes a step.
fn one_steps(plain: &Plain, node: Id, task: Id) -> bool
    ensures { result ≡ list_any (steps plain.now.clock node task) plain.now.agents }
{
    plain
        .agents
        .as_slice()
        .iter()
        .any(|agent| steps(plain.clock, node, task, agent))
}

/// The executor of the task is to make a step.
pub fn is_exec_due(plain: &Plain, node: Id, task: Id) -> bool
    ensures { result ≡ is_due (world_of plain.now) (Duty.Exec node task) }
{
    one_steps(plain, node, task)
}

// The executor of the task has a state to report.
fn has_report_of(plain: &Plain, task: Id, executors: &[Executor]) -> bool
    ensures { result ≡ has_executor (wants_report (tables_of plain.now)) task executors.now }
{
    executors.iter().any(|executor| executor.task == task && wants_report(plain, executor))
}

fn reports(plain: &Plain, node: Id, task: Id, agent: &NodeAgent) -> bool
    ensures { result ≡ reports (tables_of plain.now) node task agent.now }
{
    is_active(agent, node)
        && plain.session_live(agent.node)
        && has_report_of(plain, task, agent.executors.as_slice())
}

// The node has an agent that reports the task.
fn one_reports(plain: &Plain, node: Id, task: Id) -> bool
    ensures { result ≡ list_any (reports (tables_of plain.now) node task) plain.now.agents }
{
    plain
        .agents
        .as_slice()
        .iter()
        .any(|agent| reports(plain, node, task, agent))
}

/// The node's agent is to report the task.
pub fn is_report_due(plain: &Plain, node: Id, task: Id) -> bool
    ensures { result ≡ is_due (world_of plain.now) (Duty.Report node task) }
{
    one_reports(plain, node, task)
}

// The executor of the task is gone and has ended.
fn has_forgotten(task: Id, executors: &[Executor]) -> bool
    ensures { result ≡ has_executor is_forgotten task executors.now }
{
    executors
        .iter()
        .any(|executor| executor.task == task && is_forgotten(executor))
}

fn forgets(node: Id, task: Id, agent: &NodeAgent) -> bool
    ensures { result ≡ forgets node task agent.now }
{
    is_active(agent, node) && has_forgotten(task, agent.executors.as_slice())
}

// The node has an agent that forgets the task.
fn one_forgets(plain: &Plain, node: Id, task: Id) -> bool
    ensures { result ≡ list_any (forgets node task) plain.now.agents }
{
    plain
        .agents
        .as_slice()
        .iter()
        .any(|agent| forgets(node, task, agent))
}

/// The node's agent is to forget the task.
pub fn is_forget_due(plain: &Plain, node: Id, task: Id) -> bool
    ensures { result ≡ is_due (world_of plain.now) (Duty.Forget node task) }
{
    one_forgets(plain, node, task)
}

// The effects.

// The node is READY.
fn set_ready(nodes: &mut [Node], version: Version, node: Id)
    ensures { nodes.new ≡ change_row node_id node (ready_node version) nodes.old }
{
    for row in nodes.iter_mut() {
        if row.id == node {
            row.version = version;
            row.state = NodeState::Ready;
        }
    }
}

// The node's agent begins anew.
fn begin(agents: &mut [NodeAgent], node: Id)
    ensures { agents.new ≡ change_row agent_node node begun agents.old }
{
    for agent in agents.iter_mut() {
        if agent.node == node {
            agent.inbox = None;
            agent.applied = 0;
        }
    }
}

/// The node's agent begins a session.
pub fn register(plain: &mut Plain, version: Version, node: Id) -> Result<(), NoMemory>
    requires { IsSmall (world_of plain.old) }
    ensures ok { OnOk result (world_of plain.new ≡ after_register version (world_of plain.old) node) }
    ensures err { OnErr result (world_of plain.new ≡ world_of plain.old) }
{
    let session = plain.new_session(node);
    put_in_order(&mut plain.sessions, session)?;
    plain.next_id += 1;
    set_ready(plain.nodes.as_mut_slice(), version, node);
    drop_row(&mut plain.sent, node);
    begin(plain.agents.as_mut_slice(), node);
    Ok(())
}

/// The session of the node's agent has a beat.
pub fn beat(plain: &mut Plain, node: Id)
    requires { IsSmall (world_of plain.old) }
    ensures { let w = world_of plain.old in world_of plain.new ≡ with_tables w (after_beat w.tables node) }
{
    plain.beat(node);
}

fn agent_of(agents: &[NodeAgent], node: Id) -> Option<&NodeAgent>
    ensures { option_copied result ≡ row_at agent_node node agents.now }
{
    agents.iter().find(|agent| agent.node == node)
}

// Where the node's agent stands.
fn agent_index(agents: &[NodeAgent], node: Id) -> Option<usize>
    ensures { result ≡ position (λ a. agent_node a == node) agents.now }
{
    agents.iter().position(|agent| agent.node == node)
}

// The node's agent has applied the message with this number, and has these executors.
fn finish(agents: &mut [NodeAgent], node: Id, applied: u64, executors: List<Executor>)
    requires { RisesFrom agent_node 0 agents.old }
    ensures { agents.new ≡ change_row agent_node node (finished applied executors) agents.old }
{
    let Some(index) = agent_index(agents, node) else {
        return;
    };
    let agent = &mut agents[index];
    agent.inbox = None;
    agent.applied = applied;
    agent.executors = executors;
}

// The same in the world.
fn finish_at(plain: &mut Plain, node: Id, applied: u64, executors: List<Executor>)
    requires { RisesFrom agent_node 0 plain.old.agents }
    ensures { world_of plain.new ≡ change_agent node (finished applied executors) (world_of plain.old) }
{
    finish(plain.agents.as_mut_slice(), node, applied, executors);
}

/// The node's agent applies the message in its inbox. Want of memory changes nothing.
pub fn apply(plain: &mut Plain, node: Id) -> Result<(), NoMemory>
    requires { IsOrderedBeside (world_of plain.old) }
    ensures ok { OnOk result (world_of plain.new ≡ after_apply (world_of plain.old) node) }
    ensures err { OnErr result (world_of plain.new ≡ world_of plain.old) }
{
    match agent_of(plain.agents.as_slice(), node) {
        Some(agent) => match &agent.inbox {
            Some(message) => {
                let number = message.results_in;
                let executors = applied(plain.alloc, plain.clock, message, &agent.executors)?;
                finish_at(plain, node, number, executors);
                Ok(())
            }
            None => Ok(()),
        },
        None => Ok(()),
    }
}

// The message is in the inbox of the node's agent.
fn receive(agents: &mut [NodeAgent], node: Id, message: Message)
    requires { RisesFrom agent_node 0 agents.old }
    ensures { agents.new ≡ change_row agent_node node (received message) agents.old }
{
    let Some(index) = agent_index(agents, node) else {
        return;
    };
    agents[index].inbox = Some(message);
}

/// The node's agent pulls the message that is there for it. Want of memory changes nothing.
pub fn pull(plain: &mut Plain, node: Id) -> Result<(), NoMemory>
    requires small { IsSmall (world_of plain.old) }
    requires order { IsOrderedBeside (world_of plain.old) }
    ensures ok { let w = world_of plain.old in
        OnOk result (world_of plain.new ≡ after_pull w node (message_for w node)) }
    ensures err { OnErr result (world_of plain.new ≡ world_of plain.old) }
{
    let Some(message) = plain.message_for(node)? else {
        return Ok(());
    };
    plain.send(node, &message)?;
    receive(plain.agents.as_mut_slice(), node, message);
    Ok(())
}

// The executor of the task makes the step that is due.
fn step_executor(executors: &mut [Executor], clock: Ms, task: Id)
    requires near { list_all is_near_executor executors.old ≡ true }
    requires clock { clock < far_end }
    ensures { executors.new ≡ change_executor task (stepped clock) executors.old }
{
    for executor in executors.iter_mut() {
        if executor.task == task {
            make_step(executor, clock);
        }
    }
}

// So it does at the node's agent.
fn step_at(agents: &mut [NodeAgent], clock: Ms, node: Id, task: Id)
    requires near { list_all is_near_agent agents.old ≡ true }
    requires clock { clock < far_end }
    ensures { let change = change_executor task (stepped clock) in
        agents.new ≡ change_row agent_node node (with_executors change) agents.old }
{
    for agent in agents.iter_mut() {
        if agent.node == node {
            step_executor(agent.executors.as_mut_slice(), clock, task);
        }
    }
}

/// The executor of the task makes a step.
pub fn exec(plain: &mut Plain, node: Id, task: Id)
    requires { IsSmall (world_of plain.old) }
    ensures { world_of plain.new ≡ after_exec (world_of plain.old) node task }
{
    step_at(plain.agents.as_mut_slice(), plain.clock, node, task);
}

// The executor of the task at the node's agent.
fn executor_at(plain: &Plain, node: Id, task: Id) -> Option<Executor>
    ensures { result ≡ executor_at (world_of plain.now) node task }
{
    let agent = agent_of(plain.agents.as_slice(), node)?;
    executor_of(agent.executors.as_slice(), task).copied()
}

// The executor of the task was reported.
fn tell(executors: &mut [Executor], task: Id)
    ensures { executors.new ≡ change_executor task told executors.old }
{
    for executor in executors.iter_mut() {
        if executor.task == task {
            executor.reported = Some(executor.state);
        }
    }
}

// So it was at the node's agent.
fn tell_at(agents: &mut [NodeAgent], node: Id, task: Id)
    ensures { agents.new ≡ change_row agent_node node (with_executors (change_executor task told)) agents.old }
{
    for agent in agents.iter_mut() {
        if agent.node == node {
            tell(agent.executors.as_mut_slice(), task);
        }
    }
}

/// The node's agent reports the state of its executor of the task.
pub fn report(plain: &mut Plain, version: Version, node: Id, task: Id)
    ensures { world_of plain.new ≡ after_report version (world_of plain.old) node task }
{
    if let Some(executor) = executor_at(plain, node, task) {
        let clock = plain.clock;
        raise_task(
            plain.tasks.as_mut_slice(),
            version,
            clock,
            executor.task,
            executor.state,
        );
    }
    tell_at(plain.agents.as_mut_slice(), node, task);
}

// The node's agent forgets the task.
fn forget_at(agents: &mut [NodeAgent], node: Id, task: Id)
    ensures { agents.new ≡ change_row agent_node node (with_executors (drop_row executor_task task)) agents.old }
{
    for agent in agents.iter_mut() {
        if agent.node == node {
            drop_row(&mut agent.executors, task);
        }
    }
}

/// The node's agent forgets the task.
pub fn forget(plain: &mut Plain, node: Id, task: Id)
    ensures { world_of plain.new ≡ after_forget (world_of plain.old) node task }
{
    forget_at(plain.agents.as_mut_slice(), node, task);
}
