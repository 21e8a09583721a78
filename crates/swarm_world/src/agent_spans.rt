// Where the agents' loop looks.
ghost use Rattle.std.specs.Prelude.{◌≡◌, ◌<◌, ◌≤◌, ◌⊎◌, ◌^◌, true, ℕ};
ghost use Rattle.swarm_spans.specs.Spans.{IsWider, beyond, empty, full, is_in};
ghost use Rattle.swarm_spans.specs.Wakes.{wake_at};
ghost use Rattle.swarm_world.specs.Inside.Looks.{before_on, no_steps};
ghost use Rattle.swarm_world.specs.Inside.Spanned.{AreEnded, AreWiderFrom, IsEnded, lowered, news_by, steps_by};

use swarm_objects::{Duty, Id, Ms};
use swarm_spans::{Span, Wakes};

/// What is known of the steps of one node's agent: no executor has one for a task before this one. So each is asked
/// once while they make their steps one by one, whatever their number.
#[derive(Clone, Copy, Drop)]
pub struct Steps {
    pub node: Id,
    pub before: Id,
}

impl Steps {
    /// Nothing is known.
    pub fn none() -> Steps
        ensures { result ≡ no_steps }
    {
        Steps { node: 0, before: 0 }
    }

    /// The task of the node before which no executor has a step.
    pub fn before_on(&self, node: Id) -> Id
        ensures { result ≡ before_on self.now node }
    {
        if self.node == node { self.before } else { 0 }
    }

    // The node's executors may have steps from this task on.
    fn lower(&mut self, node: Id, task: Id)
        ensures { self.new ≡ lowered node task self.old }
    {
        if self.node == node && task < self.before {
            self.before = task;
        }
    }

    /// Goes on to what is known after the duty: an executor that makes a step may have the next one, and after a
    /// message each may have one.
    pub fn go_on(&mut self, duty: Duty)
        ensures { self.new ≡ steps_by duty self.old }
    {
        match duty {
            Duty::Apply(node) => self.lower(node, 0),
            Duty::Exec(node, task) => self.lower(node, task),
            _ => {}
        }
    }
}

// What the span has up to this number.
#[tactic(auto, using(crate::proofs::Ends::cut_is))]
fn end(span: Span, last: Id) -> Span
    ensures { IsEnded last span result }
{
    Span {
        high: span.high.min(last),
        ..span
    }
}

// The node of a duty by which its agent changes.
fn add_node(span: &mut Span, duty: Duty)
    ensures { span.new ≡ news_by duty span.old }
{
    match duty {
        Duty::Register(node) => span.add(node),
        Duty::Apply(node) => span.add(node),
        Duty::Pull(node) => span.add(node),
        Duty::Exec(node, _) => span.add(node),
        Duty::Report(node, _) => span.add(node),
        Duty::Forget(node, _) => span.add(node),
        // a beat, and those of other loops
        _ => {}
    }
}

/// Four spans, by the number of the agent's node, and what is known of steps and of sleep.
#[derive(Clone, Copy, Drop)]
pub struct AgentSpans {
    /// Each node whose agent may have a duty is in it.
    pub duties: Span,
    /// Each node is in it for which a message may be due that its agent would pull. Whether one is takes a look at all
    /// tasks of the node.
    pub tells: Span,
    /// Each node is in it whose agent may owe a report, or have an executor that goes. Whether it does takes two passes
    /// over all executors of the node.
    pub news: Span,
    /// Each node is in it for whose agent the settle test may wait: it isn't on, or has an executor with a phase to
    /// come.
    pub waits: Span,
    /// Of the agent whose executors were asked for a step last.
    pub steps: Steps,
    /// Until when the agents sleep of nodes that aren't in the first span.
    pub wakes: Wakes,
}

impl AgentSpans {
    /// Each agent may have any duty.
    pub fn full() -> AgentSpans
        ensures duties { result.duties ≡ full }
        ensures tells { result.tells ≡ full }
        ensures news { result.news ≡ full }
        ensures waits { result.waits ≡ full }
        ensures steps { result.steps ≡ no_steps }
    {
        AgentSpans {
            duties: Span::full(),
            tells: Span::full(),
            news: Span::full(),
            waits: Span::full(),
            steps: Steps::none(),
            wakes: Wakes::never(),
        }
    }

    /// No agent has a duty.
    pub fn clear(&mut self)
        ensures duties { self.new.duties ≡ empty }
        ensures tells { self.new.tells ≡ empty }
        ensures news { self.new.news ≡ empty }
        ensures waits { self.new.waits ≡ self.old.waits }
        ensures steps { self.new.steps ≡ no_steps }
        ensures wakes { self.new.wakes ≡ self.old.wakes }
    {
        self.duties = Span::empty();
        self.tells = Span::empty();
        self.news = Span::empty();
        self.steps = Steps::none();
    }

    /// The node's agent has no duty until this time, if nothing but the clock changes: its node leaves the span.
    pub fn sleep(&mut self, node: Id, till: Ms)
        ensures duties { self.new.duties ≡ beyond self.old.duties node }
        ensures tells { self.new.tells ≡ self.old.tells }
        ensures news { self.new.news ≡ self.old.news }
        ensures waits { self.new.waits ≡ self.old.waits }
        ensures steps { self.new.steps ≡ self.old.steps }
        ensures till { wake_at self.new.wakes node ≤ till }
        ensures sooner { (other : ℕ) → wake_at self.new.wakes other ≤ wake_at self.old.wakes other }
    {
        self.wakes.lower(node, till);
        self.duties.pass(node);
    }

    /// At this time those wake that sleep no longer. Nothing is known of steps then.
    pub fn wake(&mut self, now: Ms)
        ensures wider { IsWider self.new.duties self.old.duties }
        ensures woken { (node : ℕ) → 0 < node → node < 2 ^ 64 → wake_at self.old.wakes node ≤ now →
            is_in self.new.duties node ≡ true }
        ensures others { (node : ℕ) → 0 < node → node < 2 ^ 64 → (is_in self.new.duties node ≡ true)
            ⊎ (wake_at self.new.wakes node ≡ wake_at self.old.wakes node) }
        ensures tells { self.new.tells ≡ self.old.tells }
        ensures news { self.new.news ≡ self.old.news }
        ensures waits { self.new.waits ≡ self.old.waits }
        ensures steps { self.new.steps ≡ no_steps }
    {
        self.wakes.wake(now, &mut self.duties);
        self.steps = Steps::none();
    }

    /// With the agents of nodes that come from this id on: a new agent may have any duty.
    pub fn touch_new_nodes(&mut self, first: Id)
        ensures { AreWiderFrom first self.new self.old }
    {
        let new = Span::onwards(first);
        self.duties.join(new);
        self.tells.join(new);
        self.news.join(new);
        self.waits.join(new);
        self.steps = Steps::none();
    }

    /// The nodes above this one leave the spans: there are none.
    pub fn end_at(&mut self, last: Id)
        ensures { AreEnded last self.old self.new }
    {
        self.duties = end(self.duties, last);
        self.tells = end(self.tells, last);
        self.news = end(self.news, last);
        self.waits = end(self.waits, last);
    }

    /// The agent that does the duty may owe a report then, or have an executor that goes, has a step or a phase to
    /// come.
    pub fn hear(&mut self, duty: Duty)
        ensures duties { self.new.duties ≡ self.old.duties }
        ensures tells { self.new.tells ≡ self.old.tells }
        ensures news { self.new.news ≡ news_by duty self.old.news }
        ensures waits { self.new.waits ≡ news_by duty self.old.waits }
        ensures steps { self.new.steps ≡ steps_by duty self.old.steps }
        ensures wakes { self.new.wakes ≡ self.old.wakes }
    {
        self.steps.go_on(duty);
        add_node(&mut self.news, duty);
        add_node(&mut self.waits, duty);
    }
}
