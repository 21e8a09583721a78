// Each answer of each call, asked for once.
ghost use Rattle.std.specs.List.{list_all};
ghost use Rattle.std.specs.Prelude.{◌≡◌, ◌<◌, IfOk, true};
ghost use Rattle.swarm_objects.specs.Bounds.{far_end, is_near_change};

use std::alloc::Global;
use std::test::Fail;
use swarm_agent::{Agent, Agents, ApplyFault};
use swarm_objects::{
    AgentMode, AssignChange, Assigned, Desired, End, Id, Message, Ms, NoMemory, TaskState,
    Workload, list_of,
};

// A task and the state of it that is due to be reported.
type News = Option<(Id, TaskState)>;

// It prepares for 1 ms, starts for 1 ms, stops for 5 ms, and exits with 1 after 10 ms.
const SHORT: Workload = Workload {
    prepare: 1,
    start: 1,
    stop: 5,
    end: End::Exit(10, 1),
};

fn update(task: Id, desired: Desired) -> AssignChange
    ensures { is_near_change result ≡ true }
{
    AssignChange::Update(Assigned {
        task,
        desired,
        workload: SHORT,
    })
}

// A message with one change.
fn message(
    alloc: Global,
    complete: bool,
    applies_to: u64,
    change: AssignChange,
) -> Result<Message, NoMemory>
    requires number { applies_to < far_end }
    requires near { is_near_change change ≡ true }
    ensures { IfOk result (λ m. list_all is_near_change m.changes ≡ true) }
{
    Ok(Message {
        complete,
        applies_to,
        results_in: applies_to + 1,
        changes: list_of(alloc, change)?,
    })
}

// The agent receives a message with this change, where its inbox is empty.
fn send(
    alloc: Global,
    agent: &mut Agent,
    complete: bool,
    applies_to: u64,
    change: AssignChange,
) -> Result<(), NoMemory>
    requires number { applies_to < far_end }
    requires near { is_near_change change ≡ true }
{
    if !agent.has_message() {
        agent.receive(message(alloc, complete, applies_to, change)?);
    }
    Ok(())
}

// It does so, and applies it.
fn hear(
    alloc: Global,
    agent: &mut Agent,
    complete: bool,
    applies_to: u64,
    change: AssignChange,
) -> Result<(), ApplyFault>
    requires number { applies_to < far_end }
    requires near { is_near_change change ≡ true }
{
    send(alloc, agent, complete, applies_to, change)?;
    agent.apply()
}

// The message that it has is applied now.
fn again(agent: &mut Agent) -> bool {
    if agent.has_message() {
        return agent.apply().is_ok();
    }
    false
}

// The step that is due is made, and its task given.
fn step(agent: &mut Agent, now: Ms) -> Option<Id>
    requires { now < far_end }
{
    match agent.step_due_after(0, now) {
        Some(task) => {
            agent.exec(task, now);
            Some(task)
        }
        None => None,
    }
}

// What is due is reported, and given.
fn report(agent: &mut Agent) -> News {
    match agent.report_due(0) {
        Some(news) => {
            agent.reported(news.0);
            Some(news)
        }
        None => None,
    }
}

// What is due is forgotten, and given.
fn forget(agent: &mut Agent) -> Option<Id> {
    match agent.forget_due() {
        Some(task) => {
            agent.forget(task);
            Some(task)
        }
        None => None,
    }
}

// The agent, a new one, is told to run task 4.
fn with_task(alloc: Global, agent: &mut Agent) -> Result<(), ApplyFault> {
    agent.register(3);
    hear(alloc, agent, true, 0, update(4, Desired::Running))
}

// It is, and runs it since 2.
fn with_running(alloc: Global, agent: &mut Agent) -> Result<(), ApplyFault> {
    with_task(alloc, agent)?;
    step(agent, 0);
    step(agent, 1);
    step(agent, 1);
    step(agent, 2);
    Ok(())
}

fn is_stale(fault: Result<(), ApplyFault>, applied: u64) -> bool {
    match fault {
        Err(ApplyFault::Stale(number)) => number == applied,
        Err(ApplyFault::NoMemory) | Ok(()) => false,
    }
}

// Whether it refused such a message as stale, and has it still.
fn hear_early(alloc: Global, agent: &mut Agent) -> [bool; 2] {
    let heard = hear(alloc, agent, false, 2, update(4, Desired::Running));
    [is_stale(heard, 0), agent.has_message()]
}

#[test]
fn changes_for_a_new_agent_are_stale(rt: HostRuntime) {
    let mut agent = Agent::new(rt.alloc());
    let told = hear_early(rt.alloc(), &mut agent);
    drop(agent);
    assert_eq!(rt; told, [true; 2]);
}

fn hear_later(alloc: Global, agent: &mut Agent) -> Result<bool, ApplyFault> {
    with_task(alloc, agent)?;
    let heard = hear(alloc, agent, false, 5, update(4, Desired::Shutdown));
    Ok(is_stale(heard, 1))
}

#[test]
fn changes_after_others_are_stale(rt: HostRuntime) -> Result<(), Fail> {
    let mut agent = Agent::new(rt.alloc());
    let told = hear_later(rt.alloc(), &mut agent);
    drop(agent);
    assert!(rt; told?);
    Ok(())
}

fn fail_late(alloc: Global, agent: &mut Agent) -> Result<([Option<Id>; 2], News), ApplyFault> {
    with_running(alloc, agent)?;
    let steps = [step(agent, 11), step(agent, 12)];
    Ok((steps, agent.report_due(0)))
}

#[test]
fn failed_after_its_time(rt: HostRuntime) -> Result<(), Fail> {
    let mut agent = Agent::new(rt.alloc());
    let told = fail_late(rt.alloc(), &mut agent);
    drop(agent);
    assert_eq!(rt; told?, ([None, Some(4)], Some((4, TaskState::Failed))));
    Ok(())
}

// What is due above task 4, at all, and once that is reported, and what states tasks 4 and 5 have.
fn report_it(
    alloc: Global,
    agent: &mut Agent,
) -> Result<([News; 3], [Option<TaskState>; 2]), ApplyFault> {
    with_running(alloc, agent)?;
    let above = agent.report_due(4);
    let news = report(agent);
    let states = [agent.state_of(4), agent.state_of(5)];
    Ok(([above, news, report(agent)], states))
}

#[test]
fn reported_once(rt: HostRuntime) -> Result<(), Fail> {
    let mut agent = Agent::new(rt.alloc());
    let told = report_it(rt.alloc(), &mut agent);
    drop(agent);
    let running = TaskState::Running;
    assert_eq!(rt;
        told?,
        ([None, Some((4, running)), None], [Some(running), None])
    );
    Ok(())
}

// When a phase ends for which task, and then each task's phase with its time.
fn prepare(alloc: Global, agent: &mut Agent) -> Result<[Option<(u64, u64)>; 4], ApplyFault> {
    with_task(alloc, agent)?;
    let before = agent.pending();
    step(agent, 0);
    Ok([
        before,
        agent.pending(),
        agent.next_phase(3),
        agent.next_phase(4),
    ])
}

#[test]
fn phases_of_an_executor(rt: HostRuntime) -> Result<(), Fail> {
    let mut agent = Agent::new(rt.alloc());
    let told = prepare(rt.alloc(), &mut agent);
    drop(agent);
    assert_eq!(rt; told?, [None, Some((1, 4)), Some((4, 1)), None]);
    Ok(())
}

// What it steps and forgets, and the end of its last phase after the first step.
fn stop_it(
    alloc: Global,
    agent: &mut Agent,
) -> Result<([Option<Id>; 6], Option<(Ms, Id)>), ApplyFault> {
    with_running(alloc, agent)?;
    hear(alloc, agent, false, 1, AssignChange::Remove(4))?;
    let first = step(agent, 3);
    let end = agent.pending();
    let told = [
        first,
        step(agent, 7),
        forget(agent),
        step(agent, 8),
        forget(agent),
        forget(agent),
    ];
    Ok((told, end))
}

#[test]
fn stopped_and_forgotten(rt: HostRuntime) -> Result<(), Fail> {
    let mut agent = Agent::new(rt.alloc());
    let told = stop_it(rt.alloc(), &mut agent);
    drop(agent);
    let four = Some(4);
    assert_eq!(rt; told?, ([four, None, None, four, four, None], Some((8, 4))));
    Ok(())
}

fn leave_out(alloc: Global, agent: &mut Agent) -> Result<([Option<Id>; 2], News), ApplyFault> {
    with_task(alloc, agent)?;
    agent.register(9);
    hear(alloc, agent, true, 0, update(7, Desired::Ready))?;
    let gone = [step(agent, 5), forget(agent)];
    Ok((gone, agent.report_due(0)))
}

#[test]
fn left_out_of_a_complete_message(rt: HostRuntime) -> Result<(), Fail> {
    let mut agent = Agent::new(rt.alloc());
    let told = leave_out(rt.alloc(), &mut agent);
    drop(agent);
    assert_eq!(rt; told?, ([Some(4); 2], Some((7, TaskState::Accepted))));
    Ok(())
}

fn lose_power(alloc: Global, agent: &mut Agent) -> Result<([AgentMode; 3], News), ApplyFault> {
    with_running(alloc, agent)?;
    agent.fail();
    let off = agent.mode();
    let news = agent.report_due(0);
    agent.start();
    agent.stop();
    let still = agent.mode();
    agent.power();
    Ok(([off, still, agent.mode()], news))
}

#[test]
fn a_node_loses_its_power(rt: HostRuntime) -> Result<(), Fail> {
    let mut agent = Agent::new(rt.alloc());
    let told = lose_power(rt.alloc(), &mut agent);
    drop(agent);
    let modes = [AgentMode::PowerOff, AgentMode::PowerOff, AgentMode::On];
    assert!(rt; told? == (modes, Some((4, TaskState::Failed))));
    Ok(())
}

fn stop_and_start(agent: &mut Agent) -> ([AgentMode; 2], Option<Id>) {
    agent.stop();
    let off = agent.mode();
    agent.start();
    ([off, agent.mode()], agent.session())
}

#[test]
fn an_agent_is_stopped(rt: HostRuntime) {
    let mut agent = Agent::new(rt.alloc());
    let told = stop_and_start(&mut agent);
    drop(agent);
    assert!(rt; told == ([AgentMode::AgentOff, AgentMode::On], None));
}

// Whether the message is still there and nothing else, and is applied now.
fn is_put_off(agent: &mut Agent) -> bool {
    agent.has_message() && agent.report_due(4).is_none() && again(agent)
}

// Where memory is wanting, everything is as before, and the message is applied later.
fn want_memory(alloc: Global, agent: &mut Agent) -> Result<([bool; 2], News), ApplyFault> {
    with_task(alloc, agent)?;
    send(alloc, agent, true, 0, update(7, Desired::Running))?;
    let is_applied = agent.apply().is_ok() || is_put_off(agent);
    Ok(([is_applied, agent.has_message()], agent.report_due(4)))
}

#[test]
fn refused_for_want_of_memory(rt: HostRuntime) -> Result<(), Fail> {
    let mut agent = Agent::new(rt.alloc());
    let told = want_memory(rt.alloc(), &mut agent);
    drop(agent);
    assert_eq!(rt; told?, ([true, false], Some((7, TaskState::Accepted))));
    Ok(())
}

// The agents of nodes 2 and 5 come, of which the first was told to run task 4 and made a step.
fn add_two(alloc: Global, agents: &mut Agents) -> Result<(), ApplyFault> {
    agents.insert(5, Agent::new(alloc))?;
    agents.insert(2, Agent::new(alloc))?;
    agents.register(2, 3);
    agents.receive(2, message(alloc, true, 0, update(4, Desired::Running))?);
    agents.apply(2)?;
    agents.exec(2, 4, 7);
    Ok(())
}

fn nodes(agents: &Agents) -> u64 {
    let mut code: u64 = 0;
    for (node, _) in agents.iter() {
        code = code.wrapping_mul(10).wrapping_add(*node);
    }
    code
}

// The nodes with both and with the first, the states of its task on both, and whether it goes too.
fn come_and_go(
    alloc: Global,
    agents: &mut Agents,
) -> Result<([u64; 2], [Option<TaskState>; 2], bool), ApplyFault> {
    add_two(alloc, agents)?;
    let both = nodes(agents);
    let states = [agents.state_of(2, 4), agents.state_of(5, 4)];
    agents.fail(5);
    agents.cut(5);
    let one = nodes(agents);
    agents.remove(2);
    Ok(([both, one], states, agents.get(2).is_none()))
}

#[test]
fn agents_by_rising_node(rt: HostRuntime) -> Result<(), Fail> {
    let mut agents = Agents::new(rt.alloc());
    let told = come_and_go(rt.alloc(), &mut agents);
    drop(agents);
    let states = [Some(TaskState::Preparing), None];
    assert_eq!(rt; told?, ([25, 2], states, true));
    Ok(())
}
