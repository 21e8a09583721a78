// What a node was sent in its session.
ghost use Rattle.std.specs.Prelude.{◌≡◌, ◌<◌, ◌↔◌, [], if◌then◌else◌, ℕ, List, None, OnErr, OnOk, IfOk, Some, is_some};
ghost use Rattle.swarm_assign.specs.Inside.Merging.{change_task, left_of, merged};
ghost use Rattle.swarm_assign.specs.Told.{HasBy, IsNext, sent_to};
ghost use Rattle.swarm_objects.specs.Agents.Messages.{
  assigned_task,
  changes_of,
  complete_message,
  due_set,
  message_with,
  next_message,
};
ghost use Rattle.swarm_objects.specs.Bounds.{far_end};
ghost use Rattle.swarm_objects.specs.Rows.{IsRising};
ghost use Rattle.swarm_objects.specs.declared.messages.Assigned.{Assigned};
ghost use Rattle.swarm_objects.specs.Usable.{IsUsable};

use crate::differences::{changed, differences, updates};
use crate::due_sets::is_all_sent;
use std::alloc::Global;
use std::marker::Model;
use swarm_objects::{Assigned, Id, List, Message, NoMemory, Rows};

/// What a node was sent in its session.
#[derive(Drop)]
pub struct Sent {
    alloc: Global,
    count: u64,
    tasks: List<Assigned>,
}

impl Model for Sent {
    ghost use Rattle.swarm_assign.specs.Told.{Told};
    ghost use Rattle.swarm_objects.specs.Agents.Messages.{assigned_task};
    ghost use Rattle.swarm_objects.specs.Rows.{IsRising};

    ghost Value = { Told };

    ghost view = { λ s. record { count = s.count; tasks = s.tasks } };

    ghost invariant = { λ s. IsRising assigned_task s.tasks };
}

// The first message of a session has all that is due.
fn complete_message(alloc: Global, due: &[Assigned]) -> Result<Message, NoMemory>
    ensures { IfOk result (λ message. message ≡ complete_message due.now) }
{
    Ok(Message {
        complete: true,
        applies_to: 0,
        results_in: 1,
        changes: updates(alloc, due)?,
    })
}

// A later message has the difference from what was sent, where there is one.
fn difference_message(
    alloc: Global,
    count: u64,
    sent: &[Assigned],
    due: &[Assigned],
) -> Result<Option<Message>, NoMemory>
    requires count { count < far_end }
    requires sent { IsRising assigned_task sent.now }
    requires due { IsRising assigned_task due.now }
    ensures { IfOk result (λ message. message ≡ message_with count (changes_of sent.now due.now)) }
{
    let changes = differences(alloc, sent, due)?;
    if changes.is_empty() {
        return Ok(None);
    }
    Ok(Some(Message {
        complete: false,
        applies_to: count,
        results_in: count + 1,
        changes,
    }))
}

// What counts of what the node was told before the message: nothing, where the message is a whole one.
fn told_before<'a>(message: &Message, told: &'a [Assigned]) -> &'a [Assigned]
    ensures { result.now ≡ (if message.now.complete then [] else told.now) }
{
    if message.complete { &[] } else { told }
}

impl Sent {
    /// Nothing: no message was sent in the session.
    pub fn new(alloc: Global) -> Sent
        ensures { result ≡ record { count = 0; tasks = [] } }
    {
        Sent {
            alloc,
            count: 0,
            tasks: List::new(alloc),
        }
    }

    /// The next message, where this is due: everything as the first one of a session, after that exactly the
    /// difference from what was sent, by rising task. None comes exactly where a message was sent and what was sent is
    /// what is due.
    pub fn next(&self, due: &[Assigned]) -> Result<Option<Message>, NoMemory>
        requires count { self.now.count < far_end }
        requires rises { IsRising assigned_task due.now }
        ensures message { IfOk result (λ message. (node : ℕ) → message ≡ next_message (sent_to node self.now) due.now) }
        ensures none { IfOk result (λ message. (message ≡ None) ↔ ((0 < self.now.count) × (self.now.tasks ≡ due.now))) }
    {
        if self.count == 0 {
            return Ok(Some(complete_message(self.alloc, due)?));
        }
        difference_message(self.alloc, self.count, self.tasks.as_slice(), due)
    }

    /// The message, which is the next one, was sent: the node has what was due.
    pub fn confirm(&mut self, message: &Message) -> Result<(), NoMemory>
        requires { (due : List Assigned) × IsNext self.old due message.now }
        ensures ok { OnOk result (HasBy self.old message.now self.new) }
        ensures err { OnErr result (self.new ≡ self.old) }
    {
        let told = told_before(message, self.tasks.as_slice());
        self.tasks = changed(self.alloc, message.changes.as_slice(), told)?;
        self.count = message.results_in;
        Ok(())
    }

    /// Whether a message is there for the node. It takes no memory.
    pub fn is_due<R: Rows>(&self, rows: &R, node: Id) -> bool
        requires { IsUsable (R.tables rows.now) }
        ensures { result ≡ is_some (next_message (sent_to node self.now) (due_set (R.tables rows.now) node)) }
    {
        self.count == 0 || !is_all_sent(self.tasks.as_slice(), rows, node)
    }
}
