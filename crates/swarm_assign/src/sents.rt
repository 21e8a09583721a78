// What each node was sent in its session.
ghost use Rattle.std.specs.Prelude.{◌≡◌, ◌<◌, [], ℕ, IfOk, None, OnErr, OnOk, is_some};
ghost use Rattle.swarm_assign.specs.Inside.Counted.{told_after};
ghost use Rattle.swarm_assign.specs.Sents.{after_message, sent_count, sent_row};
ghost use Rattle.swarm_assign.specs.Told.{sent_to};
ghost use Rattle.swarm_objects.specs.Agents.Messages.{assigned_task, due_set, next_message};
ghost use Rattle.swarm_objects.specs.Bounds.{far_end};
ghost use Rattle.swarm_objects.specs.Rows.{IsRising, drop_row, row_at, sent_node, with_row};
ghost use Rattle.swarm_objects.specs.Usable.{IsUsable};

use crate::sent::Sent;
use std::alloc::Global;
use std::collections::BTreeMap;
use std::marker::Model;
use swarm_objects::{Assigned, Id, Message, NoMemory, Rows};

/// What each node was sent in its session, by rising node. A node to which nothing was sent isn't there. Contracts see
/// it as a world has it.
#[derive(Drop)]
pub struct Sents {
    alloc: Global,
    rows: BTreeMap<Id, Sent>,
}

impl Model for Sents {
    ghost use Rattle.std.specs.Prelude.{List, map};
    ghost use Rattle.swarm_assign.specs.Inside.Counted.{AreTold};
    ghost use Rattle.swarm_assign.specs.Sents.{sent_row};
    ghost use Rattle.swarm_objects.specs.declared.messages.NodeSent.{NodeSent};

    ghost Value = { List NodeSent };

    ghost view = { λ s. map sent_row s.rows.entries };

    ghost invariant = { λ s. AreTold s.rows.entries };
}

// The next message, which was sent then. Where memory is wanting, nothing changes.
fn tell(sent: &mut Sent, due: &[Assigned]) -> Result<Option<Message>, NoMemory>
    requires count { sent.old.count < far_end }
    requires rises { IsRising assigned_task due.now }
    ensures message { IfOk result (λ message. (node : ℕ) → message ≡ next_message (sent_to node sent.old) due.now) }
    ensures told { IfOk result
        (λ message. (node : ℕ) → sent_to node sent.new ≡ told_after node due.now message (sent_to node sent.old)) }
    ensures err { OnErr result (sent.new ≡ sent.old) }
{
    let Some(message) = sent.next(due)? else {
        return Ok(None);
    };
    sent.confirm(&message)?;
    Ok(Some(message))
}

impl Sents {
    /// Nothing was sent to any node.
    pub fn new(alloc: Global) -> Sents
        ensures { result ≡ [] }
    {
        Sents {
            alloc,
            rows: BTreeMap::new(alloc),
        }
    }

    /// Whether a message is there for the node. It takes no memory.
    pub fn is_due<R: Rows>(&self, rows: &R, node: Id) -> bool
        requires { IsUsable (R.tables rows.now) }
        ensures { result ≡ is_some (next_message (row_at sent_node node self.now) (due_set (R.tables rows.now) node)) }
    {
        match self.rows.get(&node) {
            Some(sent) => sent.is_due(rows, node),
            None => true,
        }
    }

    /// The next message for the node, where this is due; it was sent then. None comes where nothing is to be told.
    pub fn pull(&mut self, node: Id, due: &[Assigned]) -> Result<Option<Message>, NoMemory>
        requires count { sent_count node self.old < far_end }
        requires rises { IsRising assigned_task due.now }
        ensures message { IfOk result (λ message. message ≡ next_message (row_at sent_node node self.old) due.now) }
        ensures sent { IfOk result (λ message. self.new ≡ after_message node due.now message self.old) }
        ensures err { OnErr result (self.new ≡ self.old) }
    {
        match self.rows.get_mut(&node) {
            Some(sent) => tell(sent, due),
            None => self.begin(node, due),
        }
    }

    // The first message of the node's session.
    fn begin(&mut self, node: Id, due: &[Assigned]) -> Result<Option<Message>, NoMemory>
        requires rises { IsRising assigned_task due.now }
        ensures message { IfOk result (λ message. message ≡ next_message None due.now) }
        ensures sent { IfOk result (λ message. self.new ≡ after_message node due.now message self.old) }
        ensures err { OnErr result (self.new ≡ self.old) }
    {
        let mut sent = Sent::new(self.alloc);
        let message = tell(&mut sent, due)?;
        self.put(node, sent)?;
        Ok(message)
    }

    // What the node was sent is this now.
    fn put(&mut self, node: Id, sent: Sent) -> Result<(), NoMemory>
        requires { 0 < sent.count }
        ensures ok { OnOk result (self.new ≡ with_row sent_node (sent_row (node, sent)) self.old) }
        ensures err { OnErr result (self.new ≡ self.old) }
    {
        match self.rows.insert(node, sent) {
            Ok(_) => Ok(()),
            Err(_) => Err(NoMemory),
        }
    }

    /// Nothing was sent to the node any more.
    pub fn remove(&mut self, node: Id)
        ensures { self.new ≡ drop_row sent_node node self.old }
    {
        self.rows.remove(&node);
    }
}
