// What a node is to have, and what it is sent.
ghost use Rattle.std.specs.Prelude.{◌≡◌, ◌<◌, ◌^◌, IfOk, OnOk, OnErr, filter, not, option_to_list};
ghost use Rattle.std.specs.Option.{option_copied};
ghost use Rattle.swarm_objects.specs.Agents.Messages.{assigned, assigned_task, change_of, changes_of, complete_message, due_set, is_assigned_on, is_sent, message_for, message_with, same_assigned, sent_of, tasks_of_either, update_of, with_sent};
ghost use Rattle.swarm_objects.specs.Bounds.{IsSmall};
ghost use Rattle.swarm_objects.specs.Rows.{row_at};
ghost use Rattle.swarm_objects.specs.Same.{same_workload};
ghost use Rattle.swarm_plain.specs.Plain.{tables_of, world_of};

use crate::Plain;
use crate::reads::row_at;
use std::alloc::Global;
use swarm_objects::messages::assignment;
use swarm_objects::{
    AssignChange, Assigned, Id, List, Message, NoMemory, NodeSent, Same, Task, TaskState, Workload,
    add, desired_rank, put_in_order, rank,
};

// It has this node, and is from ASSIGNED on.
pub(crate) fn is_assigned_on(node: Id, task: &Task) -> bool
    ensures { result ≡ is_assigned_on node task.now }
{
    rank(TaskState::Assigned) <= rank(task.state) && task.is_on(node)
}

fn same_workload(a: &Workload, b: &Workload) -> bool
    ensures { result ≡ same_workload a.now b.now }
{
    a.same(b)
}

// The same is told of one task.
fn same_assigned(a: &Assigned, b: &Assigned) -> bool
    ensures { result ≡ same_assigned a.now b.now }
{
    a.task == b.task
        && desired_rank(a.desired) == desired_rank(b.desired)
        && same_workload(&a.workload, &b.workload)
}

// It was sent so.
fn is_sent(sent: &[Assigned], one: &Assigned) -> bool
    ensures { result ≡ is_sent sent.now one.now }
{
    sent.iter().any(|other| same_assigned(one, other))
}

// What is told of the task.
fn told_of(due: &[Assigned], task: Id) -> Option<&Assigned>
    ensures { option_copied result ≡ row_at assigned_task task due.now }
{
    due.iter().find(|one| one.task == task)
}

// What is due of the task, unless it was sent so.
fn unsent<'a>(sent: &[Assigned], due: &'a [Assigned], task: Id) -> Option<&'a Assigned>
    ensures { option_copied result ≡ row_at assigned_task task (filter (λ one. not (is_sent sent.now one)) due.now) }
{
    due.iter()
        .filter(|one| !is_sent(sent, one))
        .find(|one| one.task == task)
}

// The update of the task, where it wasn't sent so.
fn update_of(sent: &[Assigned], due: &[Assigned], task: Id) -> Option<AssignChange>
    ensures { option_to_list result ≡ update_of (filter (λ one. not (is_sent sent.now one)) due.now) task }
{
    match unsent(sent, due, task) {
        Some(one) => Some(AssignChange::Update(*one)),
        None => None,
    }
}

// How what is due of the task differs from what was sent of it.
fn change_of(sent: &[Assigned], due: &[Assigned], task: Id) -> Option<AssignChange>
    ensures { option_to_list result ≡ change_of sent.now due.now task }
{
    if told_of(due, task).is_none() {
        return Some(AssignChange::Remove(task));
    }
    update_of(sent, due, task)
}

// The tasks of either, by rising id.
fn tasks_of_either(alloc: Global, sent: &[Assigned], due: &[Assigned]) -> Result<List<Id>, NoMemory>
    ensures { IfOk result (λ tasks. tasks ≡ tasks_of_either sent.now due.now) }
{
    let mut tasks = List::new(alloc);
    for told in sent {
        put_in_order(&mut tasks, told.task)?;
    }
    for one in due {
        put_in_order(&mut tasks, one.task)?;
    }
    Ok(tasks)
}

// How what is due differs from what was sent, by rising task.
fn changes_of(
    alloc: Global,
    sent: &[Assigned],
    due: &[Assigned],
) -> Result<List<AssignChange>, NoMemory>
    ensures { IfOk result (λ changes. changes ≡ changes_of sent.now due.now) }
{
    let tasks = tasks_of_either(alloc, sent, due)?;
    let mut changes = List::new(alloc);
    for task in tasks.as_slice() {
        if let Some(change) = change_of(sent, due, *task) {
            add(&mut changes, change)?;
        }
    }
    Ok(changes)
}

// The first message of a session: all that is due.
fn complete_message(alloc: Global, due: &[Assigned]) -> Result<Message, NoMemory>
    ensures { IfOk result (λ message. message ≡ complete_message due.now) }
{
    let mut changes = List::new(alloc);
    for one in due {
        add(&mut changes, AssignChange::Update(*one))?;
    }
    Ok(Message {
        complete: true,
        applies_to: 0,
        results_in: 1,
        changes,
    })
}

// The next message, where what is due differs from what was sent.
fn difference(alloc: Global, sent: &NodeSent, due: &[Assigned]) -> Result<Option<Message>, NoMemory>
    requires { sent.now.count < 2 ^ 60 }
    ensures { IfOk result (λ message. message ≡ message_with sent.now.count (changes_of sent.now.tasks due.now)) }
{
    let changes = changes_of(alloc, sent.tasks.as_slice(), due)?;
    if changes.is_empty() {
        return Ok(None);
    }
    Ok(Some(Message {
        complete: false,
        applies_to: sent.count,
        results_in: sent.count + 1,
        changes,
    }))
}

impl Plain {
    // What the node is to have.
    fn due_set(&self, node: Id) -> Result<List<Assigned>, NoMemory>
        ensures { IfOk result (λ due. due ≡ due_set (tables_of self.now) node) }
    {
        let mut due = List::new(self.alloc);
        for task in self.tasks.as_slice() {
            if is_assigned_on(node, task) {
                add(&mut due, assignment(task))?;
            }
        }
        Ok(due)
    }

    // What was sent to the node in its session.
    fn sent_of(&self, node: Id) -> Option<&NodeSent>
        ensures { option_copied result ≡ sent_of (world_of self.now) node }
    {
        row_at(self.sent.as_slice(), node)
    }

    /// The message that is there for the node: all that is due, where nothing was sent in its session; else the
    /// difference from what was sent, where there is one.
    pub fn message_for(&self, node: Id) -> Result<Option<Message>, NoMemory>
        requires { IsSmall (world_of self.now) }
        ensures { IfOk result (λ message. message ≡ message_for (world_of self.now) node) }
    {
        let due = self.due_set(node)?;
        match self.sent_of(node) {
            None => Ok(Some(complete_message(self.alloc, due.as_slice())?)),
            Some(sent) => difference(self.alloc, sent, due.as_slice()),
        }
    }

    /// The message is sent: the node has what is due. Want of memory changes nothing.
    pub fn send(&mut self, node: Id, message: &Message) -> Result<(), NoMemory>
        ensures ok { OnOk result (world_of self.new ≡ with_sent (world_of self.old) node message.now) }
        ensures err { OnErr result (world_of self.new ≡ world_of self.old) }
    {
        let tasks = self.due_set(node)?;
        let row = NodeSent {
            node,
            count: message.results_in,
            tasks,
        };
        put_in_order(&mut self.sent, row)
    }
}
