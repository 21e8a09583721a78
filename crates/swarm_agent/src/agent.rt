// The agent of a node.
ghost use Rattle.std.specs.Prelude.{◌≡◌, ◌<◌, ◌≤◌, ◌-◌, ◌^◌, IfSome, None, is_some, true, ℕ};
ghost use Rattle.std.specs.List.{list_all};
ghost use Rattle.std.specs.Option.{option_map};
ghost use Rattle.swarm_agent.specs.Agent.{
  Applies,
  at_node,
  changed,
  executor_state,
  first_task,
  least_phase,
  news_after,
  passes,
  phase_after,
  registered,
  with_executors,
};
ghost use Rattle.swarm_objects.specs.Agents.NodeAgents.{failed_agent, in_mode, mode_after_start, mode_after_stop};
ghost use Rattle.swarm_objects.specs.Agents.NodeAgents.{started_agent};
ghost use Rattle.swarm_objects.specs.Agents.NodeAgents.{new_agent};
ghost use Rattle.swarm_objects.specs.Agents.Messages.{change_executor};
ghost use Rattle.swarm_objects.specs.Bounds.{far_end, is_near_change};
ghost use Rattle.swarm_objects.specs.Loops.Agents.{has_step, is_forgotten, received, stepped, told};
ghost use Rattle.swarm_objects.specs.Rows.{drop_row, executor_task, has_row, row_at, rows_above};

use crate::executors::Executors;
use crate::looks::{first_forgotten, first_news, first_phase, first_step_above, phase_after};
use crate::messages::{is_stale, take_in};
use std::alloc::Global;
use std::marker::Model;
use swarm_objects::{AgentMode, Id, Message, Ms, NoMemory, TaskState};
use thiserror::Error;

/// Why a message isn't applied.
#[derive(Debug, Drop, Error)]
pub enum ApplyFault {
    /// It has only changes, which don't begin where the agent is: at this message.
    #[error("the message doesn't follow message {0}")]
    Stale(u64),
    #[error("out of memory")]
    NoMemory,
}

impl From<NoMemory> for ApplyFault {
    ghost use Rattle.swarm_agent.specs.declared.agent.ApplyFault.TheVariants.{NoMemory as OutOfMemory};

    ghost from_gives = { λ _ fault. fault ≡ OutOfMemory };

    fn from(_: NoMemory) -> ApplyFault {
        ApplyFault::NoMemory
    }
}

/// The agent of a node. It holds the message that it was sent and hasn't applied, and its executors by task.
///
/// Its calls are what a world's calls and duties make of the agent of any node. They don't ask for the clock where a
/// message is applied or the node fails: an executor that is ACCEPTED or has ended has no time that a step looks at,
/// and 0 stands for it (`theorems::times_that_no_step_looks_at`). Its times stay far from the ends of their types, as
/// each message and each clock that it is handed are near.
#[derive(Drop)]
pub struct Agent {
    alloc: Global,
    session: Option<Id>,
    mode: AgentMode,
    inbox: Option<Message>,
    applied: u64,
    executors: Executors,
}

impl Model for Agent {
    ghost use Rattle.swarm_agent.specs.Agent.{AgentState};
    ghost use Rattle.swarm_agent.specs.Inside.Near.{AreNear};

    ghost Value = { AgentState };

    ghost view = { λ a. record {
      session = a.session;
      mode = a.mode;
      inbox = a.inbox;
      applied = a.applied;
      executors = a.executors;
    } };

    ghost invariant = { λ a. AreNear a.executors a.inbox };
}

impl Agent {
    /// An agent that is on and has nothing.
    pub fn new(alloc: Global) -> Agent
        ensures value { (node : ℕ) → at_node node result ≡ new_agent node }
        ensures session { result.session ≡ None }
    {
        Agent {
            alloc,
            session: None,
            mode: AgentMode::On,
            inbox: None,
            applied: 0,
            executors: Executors::new(alloc),
        }
    }

    /// It registers under the session: its inbox is empty, and it has applied no message of it.
    pub fn register(&mut self, session: Id)
        ensures { self.new ≡ registered session self.old }
    {
        self.session = Some(session);
        self.inbox = None;
        self.applied = 0;
    }

    /// It is sent the message, in the place of one that it hasn't applied.
    pub fn receive(&mut self, m: Message)
        requires near { list_all is_near_change m.changes ≡ true }
        ensures { self.new ≡ changed (received m) self.old }
    {
        self.inbox = Some(m);
    }

    /// It applies the message in its inbox, if one is there. A refusal leaves all as it was, with the inbox full.
    pub fn apply(&mut self) -> Result<(), ApplyFault>
        ensures { Applies self.old result self.new }
    {
        let Some(message) = &self.inbox else {
            return Ok(());
        };
        if is_stale(self.applied, message) {
            return Err(ApplyFault::Stale(self.applied));
        }
        let results_in = message.results_in;
        take_in(self.alloc, &mut self.executors, message)?;
        self.applied = results_in;
        self.inbox = None;
        Ok(())
    }

    /// The session that it registered under last; none before the first.
    pub fn session(&self) -> Option<Id>
        ensures { result ≡ self.now.session }
    {
        self.session
    }

    pub fn mode(&self) -> AgentMode
        ensures { result ≡ self.now.mode }
    {
        self.mode
    }

    /// Whether its inbox is full.
    pub fn has_message(&self) -> bool
        ensures { result ≡ is_some self.now.inbox }
    {
        self.inbox.is_some()
    }

    /// The state of the task's executor.
    pub fn state_of(&self, task: Id) -> Option<TaskState>
        ensures { result ≡ option_map executor_state (row_at executor_task task self.now.executors) }
    {
        match self.executors.get(task) {
            Some(executor) => Some(executor.state),
            None => None,
        }
    }

    /// The least task above this one whose executor has a step that is due.
    pub fn step_due_after(&self, after: Id, now: Ms) -> Option<Id>
        ensures { result ≡ first_task (has_step now) (rows_above executor_task after self.now.executors) }
    {
        first_step_above(&self.executors, after, now)
    }

    /// A time before which no executor has a step and no timed phase ends; `u64::MAX` only where no phase is to come.
    pub fn first_wake(&self) -> Ms
        ensures phases { IfSome (least_phase self.now.executors) (λ phase. result ≤ phase.0) }
        ensures steps { (clock : ℕ) → clock < result → first_task (has_step clock) self.now.executors ≡ None }
        ensures none { result ≡ 2 ^ 64 - 1 → least_phase self.now.executors ≡ None }
    {
        self.executors.wakes()
    }

    /// The executor of the task makes the step that is due, if one is.
    pub fn exec(&mut self, task: Id, now: Ms)
        requires clock { now < far_end }
        ensures { self.new ≡ with_executors (change_executor task (stepped now)) self.old }
    {
        self.executors.step(task, now);
    }

    /// The least task above this one whose executor isn't gone and is above the state that it reported, with its state.
    pub fn report_due(&self, after: Id) -> Option<(Id, TaskState)>
        ensures value { result ≡ news_after after self.now.executors }
        ensures there { IfSome result (λ news. has_row executor_task news.0 self.now.executors ≡ true) }
    {
        first_news(&self.executors, after)
    }

    /// The state of the task's executor was reported.
    pub fn reported(&mut self, task: Id)
        ensures { self.new ≡ with_executors (change_executor task told) self.old }
    {
        self.executors.tell(task);
    }

    /// The least task whose executor is gone and has ended.
    pub fn forget_due(&self) -> Option<Id>
        ensures value { result ≡ first_task is_forgotten self.now.executors }
        ensures due { IfSome result (λ task. passes is_forgotten task self.now ≡ true) }
    {
        first_forgotten(&self.executors)
    }

    /// The executor of the task goes.
    pub fn forget(&mut self, task: Id)
        ensures { self.new ≡ with_executors (drop_row executor_task task) self.old }
    {
        self.executors.remove(task);
    }

    /// The timed phase that ends first, with the least task at one time: its time and its task.
    pub fn pending(&self) -> Option<(Ms, Id)>
        ensures { result ≡ least_phase self.now.executors }
    {
        first_phase(&self.executors)
    }

    /// The least task above this one whose executor is in a timed phase, with the phase's time.
    pub fn next_phase(&self, after: Id) -> Option<(Id, Ms)>
        ensures { result ≡ phase_after after self.now.executors }
    {
        phase_after(&self.executors, after)
    }

    /// Its node loses power: what starts or runs has failed.
    pub fn fail(&mut self)
        ensures { self.new ≡ changed (failed_agent 0) self.old }
    {
        self.mode = AgentMode::PowerOff;
        self.executors.lose();
    }

    /// Its node has power again.
    pub fn power(&mut self)
        ensures { self.new ≡ changed started_agent self.old }
    {
        self.mode = AgentMode::On;
    }

    /// It is stopped, where it was on.
    pub fn stop(&mut self)
        ensures { self.new ≡ changed (in_mode mode_after_stop) self.old }
    {
        if self.mode == AgentMode::On {
            self.mode = AgentMode::AgentOff;
        }
    }

    /// It is on again, where it was stopped.
    pub fn start(&mut self)
        ensures { self.new ≡ changed (in_mode mode_after_start) self.old }
    {
        if self.mode == AgentMode::AgentOff {
            self.mode = AgentMode::On;
        }
    }
}
