// The first duty of the agents' loop, agent by agent. It takes no memory.
ghost use Rattle.std.specs.Prelude.{◌≡◌, ◌++◌, List as Seq, false, flat_map, option_to_list, true};
ghost use Rattle.swarm_agent.specs.Agent.{at_node};
ghost use Rattle.swarm_objects.specs.Loops.Agents.{agent_duties, duties_on, has_step, inbox_duties, is_beat_due, is_forgotten, is_mode_on, report_duties, session_duties};
ghost use Rattle.swarm_objects.specs.Loops.Words.{duty_where};
ghost use Rattle.swarm_objects.specs.Nodes.Sessions.{is_session_live, session_of};
ghost use Rattle.swarm_objects.specs.Rows.{RisesFrom, agent_node, executor_task, first_of, has_row, is_some_and, task_id};
ghost use Rattle.swarm_objects.specs.Usable.{IsUsable};
ghost use Rattle.swarm_objects.specs.World.{World};
ghost use Rattle.swarm_objects.specs.declared.messages.NodeSent.{NodeSent as SentRow};
ghost use Rattle.swarm_spans.specs.Spans.{has_duty, is_in};
ghost use Rattle.swarm_world.specs.Inside.Looks.{AreSpanned, EachRises, HasNoStep, IsAsked, IsHeard, IsPassed, MayBeTold, MayHaveNews, SleepsTill, is_told, is_unsaid, looked_at, wants_message};
ghost use Rattle.swarm_world.specs.Inside.Records.{tables_of};
ghost use Rattle.swarm_world.specs.Inside.Spanned.{AgentsSpanLaw, AreUpTo};

use crate::agent_spans::{AgentSpans, Steps};
use crate::records::Records;
use swarm_agent::theorems::{times_that_no_step_looks_at, what_is_found_is_the_first_duty};
use swarm_agent::{Agent, Agents, has_passed};
use swarm_assign::Sents;
use swarm_objects::{AgentMode, Duty, Id, Ms, Rows};
use swarm_settle::next_agent_in;
use swarm_spans::Span;

fn is_on(agent: &Agent) -> bool
    ensures { result ≡ is_mode_on agent.now.mode }
{
    match agent.mode() {
        AgentMode::On => true,
        _ => false,
    }
}

// What a node's session tells its agent: it is live, and its last beat is a heartbeat period ago.
#[derive(Clone, Copy)]
struct Lease {
    live: bool,
    wants_beat: bool,
}

// Both, by one look at the session.
fn lease_of(records: &Records, node: Id) -> Lease
    ensures live { result.live ≡ is_session_live (tables_of records.now) node }
    ensures beat { let t = tables_of records.now in
        result.wants_beat ≡ is_some_and (is_beat_due t) (session_of t node) }
{
    match records.sessions.get(node) {
        Some(session) => Lease {
            live: records.now() < session.deadline,
            wants_beat: has_passed(records.now(), session.beat, records.settings().heartbeat),
        },
        None => Lease {
            live: false,
            wants_beat: false,
        },
    }
}

// The agent registers, or its session has a beat.
fn session_duty(
    records: &Records,
    sent: &Sents,
    node: Id,
    agent: &Agent,
    lease: Lease,
) -> Option<Duty>
    requires { let t = tables_of records.now in
        lease.wants_beat ≡ is_some_and (is_beat_due t) (session_of t node) }
    ensures { let w = looked_at (tables_of records.now) sent.now in
        option_to_list result ≡ session_duties w (at_node node agent.now) lease.live }
{
    if !lease.live {
        return Some(Duty::Register(node));
    }
    if lease.wants_beat {
        return Some(Duty::Beat(node));
    }
    None
}

// A message is due for the node, of whose tasks that is asked only where one may be. Where none is, the node leaves the
// span, with those before it.
#[tactic(auto, using(crate::proofs::Asked::told_steps))]
fn is_told(records: &Records, sent: &Sents, node: Id, tells: &mut Span) -> bool
    requires usable { IsUsable (tables_of records.now) }
    requires may { MayBeTold (looked_at (tables_of records.now) sent.now) node true tells.old }
    ensures told { result ≡ is_told (looked_at (tables_of records.now) sent.now) node }
    ensures asked { IsAsked (looked_at (tables_of records.now) sent.now) node tells.old tells.new }
{
    if !tells.has(node) {
        return false;
    }
    if sent.is_due(records, node) {
        return true;
    }
    tells.pass(node);
    false
}

// The message in the inbox is applied; where there is none and one is there, it is pulled.
#[tactic(auto, using(crate::proofs::Asked::stays_asked))]
fn inbox_duty(
    records: &Records,
    sent: &Sents,
    node: Id,
    agent: &Agent,
    live: bool,
    tells: &mut Span,
) -> Option<Duty>
    requires usable { IsUsable (tables_of records.now) }
    requires may { MayBeTold (looked_at (tables_of records.now) sent.now) node live tells.old }
    ensures first { let w = looked_at (tables_of records.now) sent.now in
        option_to_list result ≡ inbox_duties w (at_node node agent.now) live agent.now.inbox }
    ensures asked { IsAsked (looked_at (tables_of records.now) sent.now) node tells.old tells.new }
{
    if agent.has_message() {
        return Some(Duty::Apply(node));
    }
    if live && is_told(records, sent, node, tells) {
        return Some(Duty::Pull(node));
    }
    None
}

// The first executor that has a step to make: looked for behind those of which it is known that they have none.
fn first_step(records: &Records, node: Id, agent: &Agent, steps: &mut Steps) -> Option<Duty>
    requires rises { RisesFrom executor_task 0 agent.now.executors }
    requires none { HasNoStep (tables_of records.now).clock steps.old (at_node node agent.now) }
    ensures first { let t = tables_of records.now in
        result ≡ first_of (duty_where (has_step t.clock) (λ e. Duty.Exec node e.task) agent.now.executors) }
    ensures passed { IsPassed (tables_of records.now).clock (at_node node agent.now) steps.old steps.new }
{
    what_is_found_is_the_first_duty();
    let after = steps.before_on(node).saturating_sub(1);
    match agent.step_due_after(after, records.now()) {
        Some(task) => {
            *steps = Steps { node, before: task };
            Some(Duty::Exec(node, task))
        }
        None => {
            *steps = Steps {
                node,
                before: u64::MAX,
            };
            None
        }
    }
}

fn has_task(records: &Records, task: Id) -> bool
    ensures { result ≡ has_row task_id task (tables_of records.now).tasks }
{
    records.task(task).is_some()
}

// The first that has news of a task that is there.
fn first_report(records: &Records, sent: &Sents, node: Id, agent: &Agent) -> Option<Duty>
    requires { RisesFrom executor_task 0 agent.now.executors }
    ensures { let w = looked_at (tables_of records.now) sent.now in
        result ≡ first_of (report_duties w (at_node node agent.now) true) }
{
    let mut after = 0;
    while let Some((task, _)) = agent.report_due(after) {
        if has_task(records, task) {
            return Some(Duty::Report(node, task));
        }
        after = task;
    }
    None
}

// The first that is forgotten.
fn first_forgotten(node: Id, agent: &Agent) -> Option<Duty>
    ensures { result ≡ first_of (duty_where is_forgotten (λ e. Duty.Forget node e.task) agent.now.executors) }
{
    what_is_found_is_the_first_duty();
    match agent.forget_due() {
        Some(task) => Some(Duty::Forget(node, task)),
        None => None,
    }
}

// The first that is reported or forgotten.
fn first_news(records: &Records, sent: &Sents, node: Id, agent: &Agent, live: bool) -> Option<Duty>
    requires { RisesFrom executor_task 0 agent.now.executors }
    ensures { let w = looked_at (tables_of records.now) sent.now in let a = at_node node agent.now in
        result ≡ first_of (report_duties w a live
        ++ duty_where is_forgotten (λ e. Duty.Forget node e.task) a.executors) }
{
    if live {
        if let Some(duty) = first_report(records, sent, node, agent) {
            return Some(duty);
        }
    }
    first_forgotten(node, agent)
}

// The first about executors, behind their steps: looked for only where the agent may have news. Where it has none, its
// node leaves the span, with those before it.
#[tactic(auto, using(crate::proofs::Heard::heard_steps))]
fn first_unsaid(
    records: &Records,
    sent: &Sents,
    node: Id,
    agent: &Agent,
    live: bool,
    news: &mut Span,
) -> Option<Duty>
    requires rises { RisesFrom executor_task 0 agent.now.executors }
    requires live { live ≡ is_session_live (tables_of records.now) node }
    requires may { MayHaveNews (looked_at (tables_of records.now) sent.now) (at_node node agent.now) live news.old }
    ensures first { let w = looked_at (tables_of records.now) sent.now in let a = at_node node agent.now in
        result ≡ first_of (report_duties w a live
        ++ duty_where is_forgotten (λ e. Duty.Forget node e.task) a.executors) }
    ensures heard { IsHeard (looked_at (tables_of records.now) sent.now) (at_node node agent.now) news.old news.new }
{
    if !news.has(node) {
        return None;
    }
    match first_news(records, sent, node, agent, live) {
        Some(duty) => Some(duty),
        None => {
            news.pass(node);
            None
        }
    }
}

// The first about executors.
#[tactic(auto, using(crate::proofs::Heard::within_steps))]
fn first_executed(
    records: &Records,
    sent: &Sents,
    node: Id,
    agent: &Agent,
    live: bool,
    news: &mut Span,
    steps: &mut Steps,
) -> Option<Duty>
    requires rises { RisesFrom executor_task 0 agent.now.executors }
    requires live { live ≡ is_session_live (tables_of records.now) node }
    requires may_say { MayHaveNews (looked_at (tables_of records.now) sent.now) (at_node node agent.now) live news.old }
    requires none { HasNoStep (tables_of records.now).clock steps.old (at_node node agent.now) }
    ensures first { let t = tables_of records.now in
        let w = looked_at t sent.now in let a = at_node node agent.now in
        result ≡ first_of (duty_where (has_step t.clock) (λ e. Duty.Exec node e.task) a.executors
        ++ report_duties w a live
        ++ duty_where is_forgotten (λ e. Duty.Forget node e.task) a.executors) }
    ensures heard { IsHeard (looked_at (tables_of records.now) sent.now) (at_node node agent.now) news.old news.new }
    ensures passed { IsPassed (tables_of records.now).clock (at_node node agent.now) steps.old steps.new }
{
    match first_step(records, node, agent, steps) {
        Some(duty) => Some(duty),
        None => first_unsaid(records, sent, node, agent, live, news),
    }
}

// The first behind that about the session.
#[tactic(auto, using(crate::proofs::Heard::within_steps))]
fn first_within(
    records: &Records,
    sent: &Sents,
    node: Id,
    agent: &Agent,
    live: bool,
    tells: &mut Span,
    news: &mut Span,
    steps: &mut Steps,
) -> Option<Duty>
    requires usable { IsUsable (tables_of records.now) }
    requires rises { RisesFrom executor_task 0 agent.now.executors }
    requires live { live ≡ is_session_live (tables_of records.now) node }
    requires may { MayBeTold (looked_at (tables_of records.now) sent.now) node live tells.old }
    requires may_say { MayHaveNews (looked_at (tables_of records.now) sent.now) (at_node node agent.now) live news.old }
    requires none { HasNoStep (tables_of records.now).clock steps.old (at_node node agent.now) }
    ensures first { let t = tables_of records.now in
        let w = looked_at t sent.now in let a = at_node node agent.now in
        result ≡ first_of (inbox_duties w a live a.inbox
        ++ duty_where (has_step t.clock) (λ e. Duty.Exec node e.task) a.executors
        ++ report_duties w a live
        ++ duty_where is_forgotten (λ e. Duty.Forget node e.task) a.executors) }
    ensures asked { IsAsked (looked_at (tables_of records.now) sent.now) node tells.old tells.new }
    ensures heard { IsHeard (looked_at (tables_of records.now) sent.now) (at_node node agent.now) news.old news.new }
    ensures passed { IsPassed (tables_of records.now).clock (at_node node agent.now) steps.old steps.new }
{
    match inbox_duty(records, sent, node, agent, live, tells) {
        Some(duty) => Some(duty),
        None => first_executed(records, sent, node, agent, live, news, steps),
    }
}

// The first of an agent that is on.
#[tactic(auto, using(crate::proofs::Heard::on_steps))]
fn first_on(
    records: &Records,
    sent: &Sents,
    node: Id,
    agent: &Agent,
    lease: Lease,
    tells: &mut Span,
    news: &mut Span,
    steps: &mut Steps,
) -> Option<Duty>
    requires usable { IsUsable (tables_of records.now) }
    requires rises { RisesFrom executor_task 0 agent.now.executors }
    requires beat { let t = tables_of records.now in
        lease.wants_beat ≡ is_some_and (is_beat_due t) (session_of t node) }
    requires live { lease.live ≡ is_session_live (tables_of records.now) node }
    requires may { MayBeTold (looked_at (tables_of records.now) sent.now) node lease.live tells.old }
    requires may_say { let w = looked_at (tables_of records.now) sent.now in
        MayHaveNews w (at_node node agent.now) lease.live news.old }
    requires none { HasNoStep (tables_of records.now).clock steps.old (at_node node agent.now) }
    ensures first { let w = looked_at (tables_of records.now) sent.now in
        result ≡ first_of (duties_on w (at_node node agent.now) lease.live) }
    ensures asked { IsAsked (looked_at (tables_of records.now) sent.now) node tells.old tells.new }
    ensures heard { IsHeard (looked_at (tables_of records.now) sent.now) (at_node node agent.now) news.old news.new }
    ensures passed { IsPassed (tables_of records.now).clock (at_node node agent.now) steps.old steps.new }
{
    match session_duty(records, sent, node, agent, lease) {
        Some(duty) => Some(duty),
        None => first_within(records, sent, node, agent, lease.live, tells, news, steps),
    }
}

// The first of the node's agent.
#[tactic(auto, using(crate::proofs::Heard::agent_steps))]
fn agent_first(
    records: &Records,
    sent: &Sents,
    node: Id,
    agent: &Agent,
    tells: &mut Span,
    news: &mut Span,
    steps: &mut Steps,
) -> Option<Duty>
    requires usable { IsUsable (tables_of records.now) }
    requires rises { RisesFrom executor_task 0 agent.now.executors }
    requires may { let w = looked_at (tables_of records.now) sent.now in
        wants_message w (at_node node agent.now) ≡ true → is_in tells.old node ≡ true }
    requires may_say { let w = looked_at (tables_of records.now) sent.now in
        is_unsaid w (at_node node agent.now) ≡ true → is_in news.old node ≡ true }
    requires none { HasNoStep (tables_of records.now).clock steps.old (at_node node agent.now) }
    ensures first { let w = looked_at (tables_of records.now) sent.now in
        result ≡ first_of (agent_duties w (at_node node agent.now)) }
    ensures asked { IsAsked (looked_at (tables_of records.now) sent.now) node tells.old tells.new }
    ensures heard { IsHeard (looked_at (tables_of records.now) sent.now) (at_node node agent.now) news.old news.new }
    ensures passed { IsPassed (tables_of records.now).clock (at_node node agent.now) steps.old steps.new }
{
    if is_on(agent) {
        first_on(
            records,
            sent,
            node,
            agent,
            lease_of(records, node),
            tells,
            news,
            steps,
        )
    } else {
        None
    }
}

// Until when the agent has no duty, where it has none now and nothing but the clock changes: its session is live, has no
// beat that is due, and its executors sleep.
fn sleeps_till(records: &Records, node: Id, agent: &Agent) -> Ms
    ensures { (sent : Seq SentRow) → let w = looked_at (tables_of records.now) sent in
        let a = at_node node agent.now in has_duty (agent_duties w) a ≡ false → SleepsTill w a result }
{
    if !is_on(agent) {
        return Ms::MAX;
    }
    let Some(session) = records.sessions.get(node) else {
        return 0;
    };
    let beat = session.beat.saturating_add(records.settings().heartbeat);
    session.deadline.min(beat).min(agent.first_wake())
}

// The node of the last agent; 0 where there is none.
fn last_node(agents: &Agents) -> Id
    requires { RisesFrom agent_node 0 agents.now }
    ensures { AreUpTo agents.now result }
{
    match agents.iter().next_back() {
        Some((node, _)) => *node,
        None => 0,
    }
}

// Where the first span has no end, as after a tick, all of them end with the last agent. A number that is passed leaves
// a span for good only where the end is near; before that its bit stays, and a duty of a lower one brings it back.
#[tactic(auto, using(crate::proofs::Ends::end_steps))]
fn end_spans(agents: &Agents, spans: &mut AgentSpans)
    requires { RisesFrom agent_node 0 agents.now }
    ensures { (w : World) → AreSpanned w spans.old agents.now → AreSpanned w spans.new agents.now }
{
    if spans.duties.is_endless() {
        spans.end_at(last_node(agents));
    }
}

/// The first duty of the agents' loop, where the spans have each node whose agent has one. Nodes before it leave them.
#[inline(never)] // as the loops over the rows are, for the sake of idle ones
#[tactic(auto, using(crate::proofs::AsksIn::asks_steps))]
pub fn agents_first_in(
    records: &Records,
    sent: &Sents,
    agents: &Agents,
    spans: &mut AgentSpans,
) -> Option<Duty>
    requires usable { IsUsable (tables_of records.now) }
    requires rises { EachRises agents.now }
    requires ordered { RisesFrom agent_node 0 agents.now }
    requires covers { AreSpanned (looked_at (tables_of records.now) sent.now) spans.old agents.now }
    ensures first { let w = looked_at (tables_of records.now) sent.now in
        result ≡ first_of (flat_map (agent_duties w) agents.now) }
    ensures covers { AreSpanned (looked_at (tables_of records.now) sent.now) spans.new agents.now }
{
    if spans.duties.is_over() {
        return None;
    }
    end_spans(agents, spans);
    times_that_no_step_looks_at();
    while let Some((node, agent)) = next_agent_in(agents, &spans.duties) {
        match agent_first(
            records,
            sent,
            *node,
            agent,
            &mut spans.tells,
            &mut spans.news,
            &mut spans.steps,
        ) {
            Some(duty) => return Some(duty),
            None => spans.sleep(*node, sleeps_till(records, *node, agent)),
        }
    }
    spans.clear();
    None
}

/// How the spans of the agents' loop go on covering its nodes.
#[tactic(auto, using(crate::proofs::AgentsKept::agents_stay))]
pub fn agents_stay_covered()
    ensures { AgentsSpanLaw }
{
    times_that_no_step_looks_at();
}
