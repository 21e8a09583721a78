// The sessions on record.
ghost use Rattle.std.specs.Prelude.{◌≡◌, ◌+◌, ◌*◌, ◌<◌, ◌≤◌, ◌++◌, ◌∷◌, [], drop, slice_set, take, vec_len, vec_capacity};
ghost use Rattle.std.specs.Prelude.{IsOk, OnOk, OnErr};
ghost use Rattle.std.specs.Option.{option_map};
ghost use Rattle.swarm_objects.specs.Refusals.{unless};
ghost use Rattle.swarm_objects.specs.Nodes.Admission.{not_admitted};
ghost use Rattle.swarm_objects.specs.Bounds.{far_end};
ghost use Rattle.swarm_objects.specs.Loops.Agents.{after_beat, beaten};
ghost use Rattle.swarm_objects.specs.Nodes.Sessions.{new_session};
ghost use Rattle.swarm_objects.specs.Rows.{IsRising, change_row, drop_row, row_at, session_node, with_row};
ghost use Rattle.swarm_sessions.specs.OnRecord.{admission, tables_with, the_session};

use crate::searching::{find, is_at, lesser, session_at};
use std::alloc::Global;
use std::marker::Model;
use swarm_objects::{Id, Ms, NoMemory, NodeSession, Refusal, Session};

/// The sessions of nodes, one a node. Contracts see them by rising node, and how many more fit without memory.
#[derive(Drop)]
pub struct Sessions {
    rows: Vec<NodeSession>,
}

impl Model for Sessions {
    ghost use Rattle.std.specs.Prelude.{◌-◌, vec_len, vec_capacity};
    ghost use Rattle.swarm_objects.specs.Rows.{IsRising, session_node};
    ghost use Rattle.swarm_sessions.specs.OnRecord.{OnRecord};

    ghost Value = { OnRecord };

    ghost view = { λ s. record { rows = s.rows.items; room = vec_capacity s.rows - vec_len s.rows } };

    ghost invariant = { λ s. IsRising session_node s.rows.items };
}

// Three heartbeats from now.
fn deadline(now: Ms, heartbeat: Ms) -> Ms
    requires now { now < far_end }
    requires heartbeat { heartbeat < far_end }
    ensures { result ≡ now + 3 * heartbeat }
{
    let lease = 3 * heartbeat;
    now + lease
}

// A session that begins now; beginning counts as a beat.
fn new_session(node: Id, session: Id, now: Ms, heartbeat: Ms) -> NodeSession
    requires now { now < far_end }
    requires heartbeat { heartbeat < far_end }
    ensures { result ≡ new_session (tables_with [] now heartbeat session) node }
{
    NodeSession {
        node,
        session: Session {
            id: session,
            deadline: deadline(now, heartbeat),
            beat: now,
        },
    }
}

// Whether the session is live for the node.
fn admission(rows: &[NodeSession], node: Id, session: Id, now: Ms) -> Result<(), Refusal>
    requires { IsRising session_node rows.now }
    ensures { result ≡ admission now session (row_at session_node node rows.now) }
{
    let Some(row) = find(rows, node) else {
        return Err(Refusal::InvalidSession(None));
    };
    let held = row.session;
    if held.id != session {
        return Err(Refusal::InvalidSession(Some(held.id)));
    }
    if held.deadline <= now {
        return Err(Refusal::SessionExpired(held.deadline));
    }
    Ok(())
}

// The session has a beat now, and lasts for three heartbeats.
fn beaten(row: NodeSession, now: Ms, heartbeat: Ms) -> NodeSession
    requires now { now < far_end }
    requires heartbeat { heartbeat < far_end }
    ensures { result ≡ beaten (tables_with [] now heartbeat 0) row }
{
    NodeSession {
        node: row.node,
        session: Session {
            id: row.session.id,
            deadline: deadline(now, heartbeat),
            beat: now,
        },
    }
}

// The row takes the place of the one at the index.
fn replace(rows: &mut Vec<NodeSession>, at: usize, row: NodeSession)
    requires { at < vec_len rows.old }
    ensures items { rows.new.items ≡ slice_set rows.old.items at row }
    ensures len { vec_len rows.new ≡ vec_len rows.old }
    ensures capacity { vec_capacity rows.new ≡ vec_capacity rows.old }
{
    rows[at] = row;
}

// The row comes before the one at the index, where there is room.
fn insert(rows: &mut Vec<NodeSession>, at: usize, row: NodeSession)
    requires at { at ≤ vec_len rows.old }
    requires room { vec_len rows.old < vec_capacity rows.old }
    ensures items { rows.new.items ≡ take at rows.old.items ++ row ∷ drop at rows.old.items }
    ensures len { vec_len rows.new ≡ vec_len rows.old + 1 }
    ensures capacity { vec_capacity rows.new ≡ vec_capacity rows.old }
{
    let _ = rows.insert(at, row);
}

// The row stands among those by rising node, in the place of its node's. It takes memory where its node has none and
// there is no room.
fn put(rows: &mut Vec<NodeSession>, row: NodeSession) -> Result<(), NoMemory>
    requires { IsRising session_node rows.old.items }
    ensures ok { OnOk result (rows.new.items ≡ with_row session_node row rows.old.items) }
    ensures err { OnErr result (rows.new.items ≡ rows.old.items) }
    ensures len { vec_len rows.new ≤ vec_len rows.old + 1 }
    ensures full { OnErr result (vec_len rows.new ≡ vec_len rows.old) }
    ensures capacity { vec_capacity rows.old ≤ vec_capacity rows.new }
    ensures same { OnErr result (vec_capacity rows.new ≡ vec_capacity rows.old) }
    ensures succeeds { vec_len rows.old < vec_capacity rows.old → IsOk result }
{
    let at = lesser(rows.as_slice(), row.node);
    if is_at(rows.as_slice(), at, row.node) {
        replace(rows, at, row);
        return Ok(());
    }
    rows.reserve(1)?;
    insert(rows, at, row);
    Ok(())
}

// The node's session has a beat now.
fn renew(rows: &mut Vec<NodeSession>, node: Id, now: Ms, heartbeat: Ms)
    requires rises { IsRising session_node rows.old.items }
    requires now { now < far_end }
    requires heartbeat { heartbeat < far_end }
    ensures items { rows.new.items
        ≡ change_row session_node node (beaten (tables_with [] now heartbeat 0)) rows.old.items }
    ensures len { vec_len rows.new ≡ vec_len rows.old }
    ensures capacity { vec_capacity rows.new ≡ vec_capacity rows.old }
{
    let at = lesser(rows.as_slice(), node);
    match session_at(rows.as_slice(), at, node) {
        Some(row) => replace(rows, at, beaten(row, now, heartbeat)),
        None => {}
    }
}

// The node's session goes.
fn forget(rows: &mut Vec<NodeSession>, node: Id)
    requires { IsRising session_node rows.old.items }
    ensures items { rows.new.items ≡ drop_row session_node node rows.old.items }
    ensures len { vec_len rows.new ≤ vec_len rows.old }
    ensures capacity { vec_capacity rows.new ≡ vec_capacity rows.old }
{
    let at = lesser(rows.as_slice(), node);
    if is_at(rows.as_slice(), at, node) {
        rows.remove(at);
    }
}

impl Sessions {
    /// No sessions.
    pub fn new(alloc: Global) -> Sessions
        ensures { result ≡ record { rows = []; room = 0 } }
    {
        Sessions {
            rows: Vec::new(alloc),
        }
    }

    /// Takes memory for so many further sessions.
    pub fn reserve(&mut self, count: u64) -> Result<(), NoMemory>
        ensures ok { OnOk result (count ≤ self.new.room) }
        ensures room { self.old.room ≤ self.new.room }
        ensures rows { self.new.rows ≡ self.old.rows }
        ensures err { OnErr result (self.new ≡ self.old) }
    {
        self.rows.reserve(count as usize)?;
        Ok(())
    }

    /// The node's session on record, live or not.
    pub fn get(&self, node: Id) -> Option<Session>
        ensures { result ≡ option_map the_session (row_at session_node node self.now.rows) }
    {
        match find(self.rows.as_slice(), node) {
            Some(row) => Some(row.session),
            None => None,
        }
    }

    /// The node begins this session, which lasts for three heartbeats; one that it had is superseded. It takes memory
    /// only where the node had none and there is no room.
    pub fn begin(&mut self, node: Id, session: Id, now: Ms, heartbeat: Ms) -> Result<(), NoMemory>
        requires now { now < far_end }
        requires heartbeat { heartbeat < far_end }
        ensures ok { let t = tables_with self.old.rows now heartbeat session in
            OnOk result (self.new.rows ≡ with_row session_node (new_session t node) t.sessions) }
        ensures err { OnErr result (self.new ≡ self.old) }
        ensures succeeds { 0 < self.old.room → IsOk result }
        ensures room { self.old.room ≤ self.new.room + 1 }
    {
        put(&mut self.rows, new_session(node, session, now, heartbeat))
    }

    /// Admits the session where it is live for the node: it is the one on record, and its deadline isn't reached.
    pub fn admit(&self, node: Id, session: Id, now: Ms) -> Result<(), Refusal>
        ensures { result ≡ admission now session (row_at session_node node self.now.rows) }
    {
        admission(self.rows.as_slice(), node, session, now)
    }

    /// The node is alive: its session lasts for three heartbeats from now. Gives the new deadline; a dead session
    /// changes nothing.
    pub fn beat(&mut self, node: Id, session: Id, now: Ms, heartbeat: Ms) -> Result<Ms, Refusal>
        requires now { now < far_end }
        requires heartbeat { heartbeat < far_end }
        ensures answer { result
            ≡ unless (not_admitted now session (row_at session_node node self.old.rows)) (now + 3 * heartbeat) }
        ensures ok { let t = tables_with self.old.rows now heartbeat session in
            OnOk result (self.new.rows ≡ (after_beat t node).sessions) }
        ensures err { OnErr result (self.new ≡ self.old) }
        ensures room { self.new.room ≡ self.old.room }
    {
        admission(self.rows.as_slice(), node, session, now)?;
        renew(&mut self.rows, node, now, heartbeat);
        Ok(deadline(now, heartbeat))
    }

    /// The node's session goes, where it has one.
    pub fn remove(&mut self, node: Id)
        ensures rows { self.new.rows ≡ drop_row session_node node self.old.rows }
        ensures room { self.old.room ≤ self.new.room }
    {
        forget(&mut self.rows, node);
    }
}
