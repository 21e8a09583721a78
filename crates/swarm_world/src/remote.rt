// The calls of remote nodes.
ghost use Rattle.std.specs.Prelude.{◌≡◌, ◌⊎◌, ◌+◌, ◌*◌, IfErr, IfOk, List as Seq, Ok, Err, ℕ};
ghost use Rattle.swarm_model.specs.Calls.Remote.{given_or, status_reply};
ghost use Rattle.swarm_model.specs.History.{replay};
ghost use Rattle.swarm_model.specs.Outcome.{Gets};
ghost use Rattle.swarm_objects.specs.declared.calls.Call.TheVariants as call;
ghost use Rattle.swarm_objects.specs.declared.calls.Entry.{Entry};
ghost use Rattle.swarm_world.specs.Inside.Lookups.{outside, reportable, under_session};
ghost use Rattle.swarm_world.specs.Inside.Parts.{Answers, HasHistory, StandsFor};
ghost use Rattle.swarm_world.specs.Inside.Records.{tables_of};

use crate::commits::commit;
use crate::parts::Parts;
use swarm_assign::due_set;
use swarm_check::{check_resources, not_found};
use swarm_objects::openings::set_resources;
use swarm_objects::states::raise_state;
use swarm_objects::{
    Id, Kind, Ms, Name, Node, Refusal, Reply, Rows, Task, TaskState, Version, Wanted, rank,
};
use swarm_sessions::status_check;

// The number that is given, or the one that is there.
fn given_or(given: Option<u64>, there: u64) -> u64
    ensures { result ≡ given_or given there }
{
    given.unwrap_or(there)
}

// What the node is told of a task that was in the first state, once it reported the second.
fn status_reply(old: TaskState, state: TaskState) -> Reply
    ensures { result ≡ status_reply old state }
{
    if rank(old) < rank(state) {
        Reply::Status(true, state)
    } else {
        Reply::Status(false, old)
    }
}

impl Parts {
    // The remote node with this name.
    fn remote_node(&self, name: &Name) -> Result<&Node, Refusal>
        ensures ok { IfOk result (λ node. outside (tables_of self.now.records) name.now ≡ Ok node.now) }
        ensures err { IfErr result (λ refusal. (refusal ≡ Refusal.NoMemory) ⊎
            (outside (tables_of self.now.records) name.now ≡ Err refusal)) }
    {
        let Some(node) = self.records.store.node_named(name) else {
            return Err(not_found(self.alloc, Kind::Node, name));
        };
        if !node.remote {
            return Err(Refusal::WrongKind(node.id));
        }
        Ok(node)
    }

    // The remote node with this name, whose live session this is.
    fn session_node(&self, name: &Name, session: Id) -> Result<Id, Refusal>
        ensures { Gets (under_session (tables_of self.now.records) name.now session) result }
    {
        let node = self.remote_node(name)?.id;
        let now = self.records.store.now();
        self.records.sessions.admit(node, session, now)?;
        Ok(node)
    }

    // The task with this id, of which the node may report this state.
    fn reportable(&self, node: Id, task: Id, state: TaskState) -> Result<&Task, Refusal>
        ensures ok { let t = tables_of self.now.records in
            IfOk result (λ row. reportable t node task state ≡ Ok row.now) }
        ensures err { let t = tables_of self.now.records in
            IfErr result (λ refusal. reportable t node task state ≡ Err refusal) }
    {
        let Some(row) = self.records.store.task(task) else {
            return Err(Refusal::NotFound(Kind::Task, Wanted::Id(task)));
        };
        status_check(row, node, state)?;
        Ok(row)
    }

    // The deadline of a session that begins now.
    fn deadline(&self) -> Ms
        requires at { HasHistory self.now }
        ensures { let t = self.now.records.store.tables in result ≡ t.clock + 3 * t.settings.heartbeat }
    {
        self.records.store.now() + 3 * self.records.store.settings().heartbeat
    }

    /// A remote node begins a session, with the resources that are given or that it has. Its tasks that no longer fit
    /// are rejected.
    pub fn remote_begin(
        &mut self,
        version: Version,
        name: &Name,
        cpu: Option<u64>,
        mem: Option<u64>,
    ) -> Result<Reply, Refusal>
        requires at { HasHistory self.old }
        ensures { (h : Seq Entry) → StandsFor self.old (replay h) →
            Answers version h (call.RemoteBegin name.now cpu mem) self.old result self.new }
    {
        let node = self.remote_node(name)?;
        let id = node.id;
        let cpu = given_or(cpu, node.cpu);
        let mem = given_or(mem, node.mem);
        if let Err(rule) = check_resources(cpu, mem) {
            return Err(Refusal::BadSpec(rule));
        }
        let changes = set_resources(self.alloc, &self.records, version, id, cpu, mem)?;
        let deadline = self.deadline();
        let session = self.begin(version, id, changes)?;
        Ok(Reply::SessionBegun(session, deadline))
    }

    /// A remote node is alive.
    pub fn remote_beat(&mut self, name: &Name, session: Id) -> Result<Reply, Refusal>
        requires at { HasHistory self.old }
        ensures { (version : ℕ) (h : Seq Entry) → StandsFor self.old (replay h) →
            Answers version h (call.RemoteBeat name.now session) self.old result self.new }
    {
        let node = self.remote_node(name)?.id;
        let now = self.records.store.now();
        let heartbeat = self.records.store.settings().heartbeat;
        let deadline = self.records.sessions.beat(node, session, now, heartbeat)?;
        Ok(Reply::Beat(deadline))
    }

    /// A remote node asks for what is there for it, which counts as sent.
    pub fn remote_pull(&mut self, name: &Name, session: Id) -> Result<Reply, Refusal>
        requires at { HasHistory self.old }
        ensures { (version : ℕ) (h : Seq Entry) → StandsFor self.old (replay h) →
            Answers version h (call.RemotePull name.now session) self.old result self.new }
    {
        let node = self.session_node(name, session)?;
        let due = due_set(self.alloc, &self.records, node)?;
        let message = self.sent.pull(node, due.as_slice())?;
        Ok(Reply::Pulled(message))
    }

    /// A remote node reports the state of one of its tasks.
    pub fn remote_status(
        &mut self,
        version: Version,
        name: &Name,
        session: Id,
        task: Id,
        state: TaskState,
    ) -> Result<Reply, Refusal>
        requires at { HasHistory self.old }
        ensures { (h : Seq Entry) → StandsFor self.old (replay h) →
            Answers version h (call.RemoteStatus name.now session task state) self.old result self.new }
    {
        let node = self.session_node(name, session)?;
        let (id, old) = match self.reportable(node, task, state) {
            Ok(row) => (row.id, row.state),
            Err(refusal) => return Err(refusal),
        };
        let changes = raise_state(self.alloc, &self.records, version, id, state)?;
        let Ok(()) = commit(&mut self.records, &mut self.watches, version, changes) else {
            return Err(Refusal::NoMemory);
        };
        Ok(status_reply(old, state))
    }
}
