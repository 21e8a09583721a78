// The parts of the world: what each entry makes of them.
ghost use Rattle.std.specs.Prelude.{◌≡◌, ◌<◌, ◌≤◌, ◌+◌, IfOk, List as Seq, ℕ, false, true};
ghost use Rattle.swarm_model.specs.History.{IsLegal, replay, step};
ghost use Rattle.swarm_objects.specs.Bounds.{far_end};
ghost use Rattle.swarm_objects.specs.CallWords.{is_halt};
ghost use Rattle.swarm_objects.specs.Duties.{is_due};
ghost use Rattle.swarm_objects.specs.Kinds.{role_of};
ghost use Rattle.swarm_objects.specs.Limits.{most_ops};
ghost use Rattle.swarm_objects.specs.World.{empty_world};
ghost use Rattle.swarm_objects.specs.declared.calls.Entry.{Entry};
ghost use Rattle.swarm_objects.specs.declared.calls.What.TheVariants as what;
ghost use Rattle.swarm_objects.specs.declared.calls.Call.TheVariants as call;
ghost use Rattle.swarm_objects.specs.Effects.{is_agents};
ghost use Rattle.swarm_objects.specs.Usable.{IsUsable};
ghost use Rattle.swarm_store.specs.Stored.{row_count};
ghost use Rattle.swarm_world.specs.Inside.Marks.{AreMarked, IsMarked};
ghost use Rattle.swarm_world.specs.Inside.Parts.{Answers, Enters, HasHistory, IsAt, Replies, StandsFor, Tells, is_watch_call};
ghost use Rattle.swarm_world.specs.Inside.Records.{tables_of};
ghost use Rattle.swarm_world.specs.Inside.Spanned.{CoversAgents};

use crate::arrivals::put_new_agents;
use crate::changes::changes_of;
use crate::commits::{commit, make_room, tell};
use crate::looks::agents_stay_covered;
use crate::marks::Marks;
use crate::records::Records;
use crate::removals::drop_removed;
use crate::touched::touch_agents;
use std::alloc::Global;
use swarm_agent::Agents;
use swarm_assign::Sents;
use swarm_objects::limits::{LONGEST_TICK, MOST_OPS};
use swarm_objects::{
    Call, Duty, Filter, Id, Ms, NoMemory, Op, Query, Refusal, Reply, Role, Version,
};
use swarm_sessions::Sessions;
use swarm_store::Store;
use swarm_watch::{
    Watches, ended_watches_are_the_worlds, entries_are_noted, new_watches_are_the_worlds,
    polls_are_the_worlds,
};

/// What stands for a world: rows with sessions, watchers, what was sent to each node, and the agents.
#[derive(Drop)]
pub struct Parts {
    pub alloc: Global,
    pub records: Records,
    pub watches: Watches,
    pub sent: Sents,
    pub agents: Agents,
    pub halted: bool,
}

// A refusal is told, unless memory was wanting.
fn told(refusal: Refusal) -> Result<Reply, NoMemory>
    ensures { Tells refusal result }
{
    match refusal {
        Refusal::NoMemory => Err(NoMemory),
        refusal => Ok(Reply::Refused(refusal)),
    }
}

// So many operations make no more events than this.
fn most_events(store: &Store, count: usize) -> u64
    requires next { store.now.tables.next_id < far_end }
    requires few { count ≤ most_ops }
    ensures { result ≡ row_count store.now.tables + count }
{
    store.rows() + count as u64
}

impl Parts {
    /// Those of the empty world.
    pub fn new(alloc: Global) -> Result<Parts, NoMemory>
        ensures { IfOk result (λ parts. StandsFor parts empty_world) }
    {
        let store = Store::new(alloc)?;
        Ok(Parts {
            alloc,
            records: Records {
                store,
                sessions: Sessions::new(alloc),
            },
            watches: Watches::new(alloc),
            sent: Sents::new(alloc),
            agents: Agents::new(alloc),
            halted: false,
        })
    }

    /// Halt is the next entry. It takes no memory.
    pub fn halt(&mut self)
        ensures { (h : Seq Entry) → IsLegal h → StandsFor self.old (replay h) →
            StandsFor self.new (step (replay h) (what.Call call.Halt)).after }
    {
        entries_are_noted();
        self.halted = true;
    }

    /// The duty of a control loop over the rows, which is due, is done as the entry with this number, or memory is
    /// wanting.
    pub fn take_by_rows(
        &mut self,
        marks: &mut Marks,
        version: Version,
        role: Role,
        duty: Duty,
    ) -> Result<(), NoMemory>
        requires at { HasHistory self.old }
        requires marks { AreMarked marks.old (tables_of self.old.records) }
        requires own { role_of duty ≡ role }
        requires rows { is_agents role ≡ false }
        ensures enters { (h : Seq Entry) → IsAt version self.old h → Enters h (what.Duty duty) result self.new }
        ensures marks { IsUsable (tables_of self.new.records) → AreMarked marks.new (tables_of self.new.records) }
        ensures agents { (h : Seq Entry) → IsAt version self.old h → is_due (replay h) duty ≡ true →
            CoversAgents self.old marks.old.agents → CoversAgents self.new marks.new.agents }
    {
        agents_stay_covered();
        let Ok(changes) = changes_of(self.alloc, &self.records, version, role, duty) else {
            return Err(NoMemory);
        };
        entries_are_noted();
        let foreseen = marks.touch(&self.records, changes.as_slice());
        touch_agents(&self.records, changes.as_slice(), &mut marks.agents);
        let committed = commit(&mut self.records, &mut self.watches, version, changes);
        marks.remember(foreseen, committed.is_ok());
        committed
    }

    // Shows what the query asks for.
    fn view(&self, query: &Query) -> Result<Reply, Refusal>
        requires at { HasHistory self.now }
        ensures { (version : ℕ) (h : Seq Entry) → StandsFor self.now (replay h) →
            Answers version h (call.View query.now) self.now result self.now }
    {
        match self.records.store.view(query) {
            Ok(view) => Ok(Reply::View(view)),
            Err(refusal) => Err(refusal),
        }
    }

    // The clock goes on.
    fn tick(&mut self, ms: Ms) -> Result<Reply, Refusal>
        requires at { HasHistory self.old }
        ensures { (version : ℕ) (h : Seq Entry) → StandsFor self.old (replay h) →
            Answers version h (call.Tick ms) self.old result self.new }
    {
        if ms < 1 || ms > LONGEST_TICK {
            return Err(Refusal::BadTick(ms));
        }
        self.records.store.tick(ms);
        Ok(Reply::Ticked)
    }

    // Does all of the operations, or none. The agents of new nodes come beforehand, as their coming may want memory,
    // and go again where the operations are refused.
    fn transact(&mut self, version: Version, ops: &[Op]) -> Result<Reply, Refusal>
        requires at { HasHistory self.old }
        ensures { (h : Seq Entry) → IsAt version self.old h →
            Answers version h (call.Txn ops.now) self.old result self.new }
    {
        let count = ops.len();
        if count > MOST_OPS {
            return Err(Refusal::TooManyOps(count as u64));
        }
        let most = most_events(&self.records.store, count);
        let Ok(()) = make_room(&mut self.watches, most) else {
            return Err(Refusal::NoMemory);
        };
        let next = self.records.store.next_id();
        let Ok(()) = put_new_agents(self.alloc, &mut self.agents, next, ops) else {
            return Err(Refusal::NoMemory);
        };
        match self.records.store.txn(version, ops) {
            Ok(ids) => {
                drop_removed(
                    &mut self.records.sessions,
                    &mut self.sent,
                    &mut self.agents,
                    ops,
                    ids.as_slice(),
                );
                tell(&self.records.store, &mut self.watches);
                Ok(Reply::Txn(ids))
            }
            Err(refusal) => {
                self.agents.cut(next);
                Err(refusal)
            }
        }
    }

    // The answer to the call, as the entry with this number, before it is counted.
    fn answer(&mut self, marks: &Marks, version: Version, call: &Call) -> Result<Reply, Refusal>
        requires at { HasHistory self.old }
        requires marks { IsMarked marks.now self.old }
        requires other { is_watch_call call.now ≡ false }
        requires running { is_halt call.now ≡ false }
        ensures { (h : Seq Entry) → IsAt version self.old h →
            Answers version h call.now self.old result self.new }
    {
        match call {
            Call::Txn(ops) => self.transact(version, ops.as_slice()),
            Call::Tick(ms) => self.tick(*ms),
            Call::View(query) => self.view(query),
            Call::Settle(budget) => self.settle(marks, *budget),
            Call::NodeFail(name) => self.fail_node(name),
            Call::NodeStart(name) => self.start_node(name),
            Call::AgentStop(name) => self.stop_agent(name),
            Call::AgentStart(name) => self.start_agent(name),
            Call::RemoteBegin(name, cpu, mem) => self.remote_begin(version, name, *cpu, *mem),
            Call::RemoteBeat(name, session) => self.remote_beat(name, *session),
            Call::RemotePull(name, session) => self.remote_pull(name, *session),
            Call::RemoteStatus(name, session, task, state) => {
                self.remote_status(version, name, *session, *task, *state)
            }
            // these have ways of their own
            Call::WatchBegin(_) | Call::WatchPoll(_) | Call::WatchFinish(_) | Call::Halt => {
                unreachable!()
            }
        }
    }

    // A call that isn't on watchers becomes the entry with this number.
    fn enter_answered(
        &mut self,
        marks: &Marks,
        version: Version,
        call: &Call,
    ) -> Result<Reply, NoMemory>
        requires at { HasHistory self.old }
        requires marks { IsMarked marks.now self.old }
        requires other { is_watch_call call.now ≡ false }
        requires running { is_halt call.now ≡ false }
        ensures { (h : Seq Entry) → IsAt version self.old h → Replies h (what.Call call.now) result self.new }
    {
        entries_are_noted();
        match self.answer(marks, version, call) {
            Ok(reply) => Ok(reply),
            Err(refusal) => told(refusal),
        }
    }

    // Somebody begins to watch, under the next id.
    fn watch(&mut self, filter: Filter) -> Result<Reply, NoMemory>
        requires at { HasHistory self.old }
        ensures { (h : Seq Entry) → StandsFor self.old (replay h) →
            Replies h (what.Call (call.WatchBegin filter)) result self.new }
    {
        new_watches_are_the_worlds();
        let id = self.records.store.next_id();
        match self.watches.begin(id, filter) {
            Ok(()) => Ok(Reply::WatchBegun(self.records.store.take_id())),
            Err(refusal) => told(refusal),
        }
    }

    // The watcher is told what waits for it.
    fn poll(&mut self, id: Id) -> Result<Reply, NoMemory>
        ensures { (h : Seq Entry) → StandsFor self.old (replay h) →
            Replies h (what.Call (call.WatchPoll id)) result self.new }
    {
        polls_are_the_worlds();
        match self.watches.poll(id) {
            Ok(events) => Ok(Reply::Events(events)),
            Err(refusal) => told(refusal),
        }
    }

    // The watcher goes.
    fn finish(&mut self, id: Id) -> Result<Reply, NoMemory>
        ensures { (h : Seq Entry) → StandsFor self.old (replay h) →
            Replies h (what.Call (call.WatchFinish id)) result self.new }
    {
        ended_watches_are_the_worlds();
        match self.watches.finish(id) {
            Ok(()) => Ok(Reply::WatchFinished(id)),
            Err(refusal) => told(refusal),
        }
    }

    /// The call, which isn't Halt, becomes the entry with this number, and is answered; or memory is wanting.
    pub fn enter(&mut self, marks: &Marks, version: Version, call: &Call) -> Result<Reply, NoMemory>
        requires at { HasHistory self.old }
        requires marks { IsMarked marks.now self.old }
        requires running { is_halt call.now ≡ false }
        ensures { (h : Seq Entry) → IsAt version self.old h → Replies h (what.Call call.now) result self.new }
    {
        match call {
            Call::WatchBegin(filter) => self.watch(*filter),
            Call::WatchPoll(id) => self.poll(*id),
            Call::WatchFinish(id) => self.finish(*id),
            _ => self.enter_answered(marks, version, call),
        }
    }
}
