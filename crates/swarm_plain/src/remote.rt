// The calls of remote nodes.
ghost use Rattle.std.specs.Prelude.{◌≡◌, ◌⊎◌, ◌+◌, ◌*◌, IfOk, IfErr, Ok, Err};
ghost use Rattle.swarm_objects.specs.Nodes.Admission.{bad_report, is_no_report, not_admitted};
ghost use Rattle.swarm_model.specs.Calls.Remote.{begin_with, given_or};
ghost use Rattle.swarm_model.specs.Calls.Remote.{remote_beat, remote_begin, remote_pull, remote_status};
ghost use Rattle.swarm_objects.specs.Nodes.Opening.{tasks_within, with_resources};
ghost use Rattle.swarm_objects.specs.Bounds.{IsSmall};
ghost use Rattle.swarm_objects.specs.Changes.{raised_to, with_tables};
ghost use Rattle.swarm_objects.specs.Loops.Agents.{after_beat};
ghost use Rattle.swarm_objects.specs.Nodes.Sessions.{new_session, session_of};
ghost use Rattle.swarm_objects.specs.Rows.{change_row, node_id, session_node, task_id};
ghost use Rattle.swarm_model.specs.Outcome.{Gets};
ghost use Rattle.swarm_plain.specs.Inside.Lookups.{beaten_at, pulled_by, remote_node, reported, session_node_of};
ghost use Rattle.swarm_plain.specs.Plain.{AnswersCall, tables_of, world_of};

use crate::Plain;
use crate::messages::is_assigned_on;
use crate::names::node_named;
use crate::reads::session_of;
use swarm_check::{check_resources, not_found};
use swarm_objects::{
    Id, Kind, Ms, Name, Node, NodeSession, NodeState, Refusal, Reply, Rows, Session, Task,
    TaskState, Version, Wanted, drop_row, put_in_order, raise, rank,
};
use swarm_sessions::is_no_report;

// The session of the node has a beat now, and lasts to the deadline.
fn beat(sessions: &mut [NodeSession], node: Id, clock: Ms, deadline: Ms)
    ensures { sessions.new ≡ change_row session_node node (beaten_at clock deadline) sessions.old }
{
    for row in sessions.iter_mut() {
        if row.node == node {
            row.session.deadline = deadline;
            row.session.beat = clock;
        }
    }
}

// Why the node may not report this of the task.
fn bad_report(node: Id, task: &Task, state: TaskState) -> Option<Refusal>
    ensures { result ≡ bad_report node task.now state }
{
    if !is_assigned_on(node, task) {
        return Some(Refusal::NotThisNode(task.id));
    }
    if is_no_report(state) {
        return Some(Refusal::BadState(state));
    }
    None
}

/// The state of the task rises to this one, unless it is there already.
pub fn raise_task(tasks: &mut [Task], version: Version, clock: Ms, task: Id, state: TaskState)
    ensures { tasks.new ≡ change_row task_id task (raised_to version clock state) tasks.old }
{
    for row in tasks.iter_mut() {
        if row.id == task && raise(row, state, clock) {
            row.version = version;
        }
    }
}

// The number that is given, or the one that is there.
fn given_or(given: Option<u64>, there: u64) -> u64
    ensures { result ≡ given_or given there }
{
    match given {
        Some(number) => number,
        None => there,
    }
}

// The node is READY, and has these resources.
fn set_resources(nodes: &mut [Node], version: Version, node: Id, cpu: u64, mem: u64)
    ensures { nodes.new ≡ change_row node_id node (with_resources version cpu mem) nodes.old }
{
    for row in nodes.iter_mut() {
        if row.id == node {
            row.version = version;
            row.state = NodeState::Ready;
            row.cpu = cpu;
            row.mem = mem;
        }
    }
}

// What no longer fits in the node's resources is rejected, by rising id.
fn reject_unfit(tasks: &mut [Task], version: Version, clock: Ms, node: Id, cpu: u64, mem: u64)
    ensures { tasks.new ≡ tasks_within version clock node cpu mem tasks.old }
{
    let mut cpu_left = cpu;
    let mut mem_left = mem;
    for task in tasks.iter_mut() {
        if task.is_placed() && task.is_on(node) {
            if task.template.cpu <= cpu_left && task.template.mem <= mem_left {
                cpu_left -= task.template.cpu;
                mem_left -= task.template.mem;
            } else {
                task.version = version;
                task.state = TaskState::Rejected;
                task.since = clock;
            }
        }
    }
}

impl Plain {
    // The remote node with this name.
    fn remote_node(&self, name: &Name) -> Result<&Node, Refusal>
        ensures ok { IfOk result (λ node. remote_node (tables_of self.now) name.now ≡ Ok node.now) }
        ensures err { IfErr result (λ refusal. (refusal ≡ Refusal.NoMemory) ⊎
            (remote_node (tables_of self.now) name.now ≡ Err refusal)) }
    {
        let Some(node) = node_named(self.nodes.as_slice(), name) else {
            return Err(not_found(self.alloc, Kind::Node, name));
        };
        if !node.remote {
            return Err(Refusal::WrongKind(node.id));
        }
        Ok(node)
    }

    /// A session of the node that begins now: it has the next id, and lasts for three heartbeats.
    pub fn new_session(&self, node: Id) -> NodeSession
        requires { IsSmall (world_of self.now) }
        ensures { result ≡ new_session (tables_of self.now) node }
    {
        NodeSession {
            node,
            session: Session {
                id: self.next_id,
                deadline: self.clock + 3 * self.settings.heartbeat,
                beat: self.clock,
            },
        }
    }

    // The node begins a session with these resources.
    fn begin(&mut self, node: Id, cpu: u64, mem: u64) -> Result<Reply, Refusal>
        requires { IsSmall (world_of self.old) }
        ensures { let w = world_of self.old in
            AnswersCall (begin_with (w.entries + 1) w node cpu mem) self.old result self.new }
    {
        if let Err(rule) = check_resources(cpu, mem) {
            return Err(Refusal::BadSpec(rule));
        }
        let row = self.new_session(node);
        put_in_order(&mut self.sessions, row)?;
        let version = self.entries + 1;
        self.next_id += 1;
        set_resources(self.nodes.as_mut_slice(), version, node, cpu, mem);
        reject_unfit(
            self.tasks.as_mut_slice(),
            version,
            self.clock,
            node,
            cpu,
            mem,
        );
        drop_row(&mut self.sent, node);
        Ok(Reply::SessionBegun(row.session.id, row.session.deadline))
    }

    // A remote node begins a session, with the resources that are given or that it has. Its tasks that no longer fit
    // are rejected.
    pub(crate) fn remote_begin(
        &mut self,
        name: &Name,
        cpu: Option<u64>,
        mem: Option<u64>,
    ) -> Result<Reply, Refusal>
        requires { IsSmall (world_of self.old) }
        ensures { let w = world_of self.old in
            AnswersCall (remote_begin (w.entries + 1) w name.now cpu mem) self.old result self.new }
    {
        let node = self.remote_node(name)?;
        let id = node.id;
        let cpu = given_or(cpu, node.cpu);
        let mem = given_or(mem, node.mem);
        self.begin(id, cpu, mem)
    }

    // Why the session isn't admitted for the node.
    fn not_admitted(&self, node: Id, session: Id) -> Option<Refusal>
        ensures { let t = tables_of self.now in
            result ≡ not_admitted t.clock session (session_of t node) }
    {
        let Some(row) = session_of(self.sessions.as_slice(), node) else {
            return Some(Refusal::InvalidSession(None));
        };
        let held = row.session;
        if held.id != session {
            return Some(Refusal::InvalidSession(Some(held.id)));
        }
        if held.deadline <= self.clock {
            return Some(Refusal::SessionExpired(held.deadline));
        }
        None
    }

    // The remote node with this name, whose live session this is.
    fn session_node(&self, name: &Name, session: Id) -> Result<Id, Refusal>
        ensures { Gets (session_node_of (tables_of self.now) name.now session) result }
    {
        let node = self.remote_node(name)?.id;
        match self.not_admitted(node, session) {
            Some(refusal) => Err(refusal),
            None => Ok(node),
        }
    }

    /// The node's session lasts for three heartbeats from now; gives its deadline.
    pub fn beat(&mut self, node: Id) -> Ms
        requires { IsSmall (world_of self.old) }
        ensures deadline { let t = tables_of self.old in
            result ≡ t.clock + 3 * t.settings.heartbeat }
        ensures change { let w = world_of self.old in
            world_of self.new ≡ with_tables w (after_beat w.tables node) }
    {
        let deadline = self.clock + 3 * self.settings.heartbeat;
        beat(self.sessions.as_mut_slice(), node, self.clock, deadline);
        deadline
    }

    // A remote node is alive.
    pub(crate) fn remote_beat(&mut self, name: &Name, session: Id) -> Result<Reply, Refusal>
        requires { IsSmall (world_of self.old) }
        ensures { AnswersCall (remote_beat (world_of self.old) name.now session) self.old result self.new }
    {
        let node = self.session_node(name, session)?;
        Ok(Reply::Beat(self.beat(node)))
    }

    // The node gets what is there for it.
    fn pull(&mut self, node: Id) -> Result<Reply, Refusal>
        requires { IsSmall (world_of self.old) }
        ensures { AnswersCall (pulled_by (world_of self.old) node) self.old result self.new }
    {
        let message = self.message_for(node)?;
        if let Some(message) = &message {
            self.send(node, message)?;
        }
        Ok(Reply::Pulled(message))
    }

    // The node reports the state of the task.
    fn report(&mut self, node: Id, task: Id, state: TaskState) -> Result<Reply, Refusal>
        requires { IsSmall (world_of self.old) }
        ensures { let w = world_of self.old in
            AnswersCall (reported (w.entries + 1) w node state task) self.old result self.new }
    {
        let Some(row) = self.task(task) else {
            return Err(Refusal::NotFound(Kind::Task, Wanted::Id(task)));
        };
        if let Some(refusal) = bad_report(node, row, state) {
            return Err(refusal);
        }
        let old = row.state;
        let id = row.id;
        raise_task(
            self.tasks.as_mut_slice(),
            self.entries + 1,
            self.clock,
            id,
            state,
        );
        if rank(old) < rank(state) {
            Ok(Reply::Status(true, state))
        } else {
            Ok(Reply::Status(false, old))
        }
    }

    // A remote node reports the state of one of its tasks.
    pub(crate) fn remote_status(
        &mut self,
        name: &Name,
        session: Id,
        task: Id,
        state: TaskState,
    ) -> Result<Reply, Refusal>
        requires { IsSmall (world_of self.old) }
        ensures { let w = world_of self.old in
            AnswersCall (remote_status (w.entries + 1) w name.now session task state) self.old result self.new }
    {
        let node = self.session_node(name, session)?;
        self.report(node, task, state)
    }

    // A remote node asks for what is there for it; the message counts as sent.
    pub(crate) fn remote_pull(&mut self, name: &Name, session: Id) -> Result<Reply, Refusal>
        requires { IsSmall (world_of self.old) }
        ensures { AnswersCall (remote_pull (world_of self.old) name.now session) self.old result self.new }
    {
        let node = self.session_node(name, session)?;
        self.pull(node)
    }
}
