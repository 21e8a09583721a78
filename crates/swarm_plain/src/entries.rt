// Entries: a call is answered, counted, and its events are kept for those who wait for them.
ghost use Rattle.std.specs.Prelude.{◌≡◌, ◌⊎◌, ◌+◌, ◌^◌, ◌<◌, Err, Ok, OnOk, [], true, false};
ghost use Rattle.swarm_model.specs.Calls.{answer, call_outcome, entered, outcome, refusal_of};
ghost use Rattle.swarm_model.specs.Outcome.{Gives, Meets};
ghost use Rattle.swarm_objects.specs.Bounds.{IsSmall};
ghost use Rattle.swarm_objects.specs.CallWords.{is_settle};
ghost use Rattle.swarm_plain.specs.Entries.{HasOrder, Refuses, entered_unseen, keeps_rows};
ghost use Rattle.swarm_plain.specs.Plain.{AnswersCall, tables_of, world_of};

use crate::Plain;
use crate::events::{awaited, put_all_changes};
use swarm_objects::limits::MOST_ENTRIES;
use swarm_objects::{Call, List, NoMemory, Refusal, Reply, Version};

// Whether the call changes no row of which changes are told.
fn keeps_rows(call: &Call) -> bool
    ensures { result ≡ keeps_rows call.now }
{
    matches!(
        call,
        Call::View(_)
            | Call::WatchBegin(_)
            | Call::WatchPoll(_)
            | Call::WatchFinish(_)
            | Call::Tick(_)
            | Call::Halt
    )
}

impl Plain {
    /// Why the call doesn't become an entry: `Halted` or `Full`. There is always room for `Halt`.
    pub fn refuses(&self, call: &Call) -> Option<Refusal>
        ensures { result ≡ refusal_of (world_of self.now) call.now }
    {
        if self.halted {
            return Some(Refusal::Halted);
        }
        match call {
            Call::Halt => None,
            _ if self.entries >= MOST_ENTRIES => Some(Refusal::Full(self.entries)),
            _ => None,
        }
    }

    // The answer to the call, which isn't the settle test, but for the number of the entry and its events. Halt takes
    // no memory.
    fn answer_call(&mut self, call: &Call) -> Result<Reply, Refusal>
        requires small { IsSmall (world_of self.old) }
        requires other { is_settle call.now ≡ false }
        ensures answer { AnswersCall (answer (self.old.entries + 1) (world_of self.old) call.now) self.old result
            self.new }
        ensures halt { call.now ≡ Call.Halt → result ≡ Ok Reply.HaltDone }
    {
        match call {
            Call::Txn(ops) => self.transact(ops.as_slice()),
            Call::View(query) => self.viewed(query),
            Call::WatchBegin(filter) => self.watch_begin(filter),
            Call::WatchPoll(id) => self.watch_poll(*id),
            Call::WatchFinish(id) => self.watch_finish(*id),
            Call::Tick(ms) => self.tick(*ms),
            Call::Settle(_) => unreachable!(),
            Call::NodeFail(name) => self.node_fail(name),
            Call::NodeStart(name) => self.node_start(name),
            Call::AgentStop(name) => self.agent_stop(name),
            Call::AgentStart(name) => self.agent_start(name),
            Call::RemoteBegin(name, cpu, mem) => self.remote_begin(name, *cpu, *mem),
            Call::RemoteBeat(name, session) => self.remote_beat(name, *session),
            Call::RemotePull(name, session) => self.remote_pull(name, *session),
            Call::RemoteStatus(name, session, task, state) => {
                self.remote_status(name, *session, *task, *state)
            }
            Call::Halt => {
                self.halted = true;
                Ok(Reply::HaltDone)
            }
        }
    }

    // A refused call is an entry that changes nothing else; where memory was wanting it is none.
    fn refuse(&mut self, refusal: Refusal) -> Reply
        requires { self.old.entries + 1 < 2 ^ 64 }
        ensures { Refuses (world_of self.old) refusal result (world_of self.new) }
    {
        match refusal {
            Refusal::NoMemory => Reply::Refused(Refusal::NoMemory),
            refusal => {
                self.entries += 1;
                Reply::Refused(refusal)
            }
        }
    }

    /// Ends the entry with this number, of which nobody waits for a change: counts it, and keeps the events that
    /// somebody waits for. It takes no memory.
    pub fn end_unseen(&mut self, entry: Version)
        ensures { world_of self.new ≡ entered_unseen entry (world_of self.old) }
    {
        let events = std::mem::replace(&mut self.events, List::new(self.alloc));
        self.events = awaited(events, self.watchers.as_slice());
        self.entries = entry;
    }

    /// Ends the entry that made this world of the one before it: counts it, and keeps the events that somebody waits
    /// for.
    pub fn end_seen(&mut self, before: &Plain) -> Result<(), NoMemory>
        requires room { before.now.entries + 1 < 2 ^ 64 }
        requires events { self.old.events ≡ before.now.events }
        requires old { HasOrder (tables_of before.now) }
        requires new { HasOrder (tables_of self.old) }
        ensures { OnOk result (world_of self.new ≡ entered (world_of before.now) (world_of self.old)) }
    {
        let entry = before.entries + 1;
        self.end_unseen(entry);
        let mut events = std::mem::replace(&mut self.events, List::new(self.alloc));
        put_all_changes(&mut events, entry, before, self)?;
        self.events = events;
        Ok(())
    }

    // The call becomes an entry, in place: nobody watches, or it changes no row.
    fn enter(&mut self, call: &Call) -> Reply
        requires small { IsSmall (world_of self.old) }
        requires other { is_settle call.now ≡ false }
        requires unseen { (self.old.watchers ≡ []) ⊎ (keeps_rows call.now ≡ true) }
        ensures reply { Meets (call_outcome (world_of self.old) call.now) (world_of self.old) result
            (world_of self.new) }
        ensures halt { call.now ≡ Call.Halt →
            Gives (call_outcome (world_of self.old) Call.Halt) result (world_of self.new) }
    {
        let entry = self.entries + 1;
        match self.answer_call(call) {
            Ok(reply) => {
                self.end_unseen(entry);
                reply
            }
            Err(refusal) => self.refuse(refusal),
        }
    }

    // The call becomes an entry in a copy, since the rows before it are needed to tell its events.
    fn enter_in_copy(&mut self, call: &Call) -> Reply
        requires small { IsSmall (world_of self.old) }
        requires order { HasOrder (tables_of self.old) }
        requires other { is_settle call.now ≡ false }
        ensures { Meets (call_outcome (world_of self.old) call.now) (world_of self.old) result (world_of self.new) }
    {
        let Ok(mut copy) = self.duplicate() else {
            return Reply::Refused(Refusal::NoMemory);
        };
        match copy.answer_call(call) {
            Ok(reply) => match copy.end_seen(self) {
                Ok(()) => {
                    *self = copy;
                    reply
                }
                Err(NoMemory) => Reply::Refused(Refusal::NoMemory),
            },
            Err(refusal) => self.refuse(refusal),
        }
    }

    /// Answers the call, which isn't the settle test. A refused call is an entry too, unless the refusal is `Halted`,
    /// `Full` or `NoMemory`. `Halt` takes no memory.
    pub fn call(&mut self, call: &Call) -> Reply
        requires small { IsSmall (world_of self.old) }
        requires order { HasOrder (tables_of self.old) }
        requires other { is_settle call.now ≡ false }
        ensures reply { Meets (outcome (world_of self.old) call.now) (world_of self.old) result (world_of self.new) }
        ensures halt { call.now ≡ Call.Halt → Gives (outcome (world_of self.old) Call.Halt) result (world_of self.new) }
    {
        if let Some(refusal) = self.refuses(call) {
            return Reply::Refused(refusal);
        }
        if self.watchers.is_empty() || keeps_rows(call) {
            self.enter(call)
        } else {
            self.enter_in_copy(call)
        }
    }
}
