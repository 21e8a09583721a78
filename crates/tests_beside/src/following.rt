// One entry, done on the plain world and on the store with its watches.
ghost use Rattle.std.specs.Prelude.{◌≡◌, ◌+◌, IfOk, OnOk};
ghost use Rattle.swarm_duties.specs.Reached.{IsReached};
ghost use Rattle.swarm_model.specs.History.{step};
ghost use Rattle.swarm_model.specs.Outcome.{Gives};
ghost use Rattle.swarm_objects.specs.declared.calls.Call.TheVariants as calls;
ghost use Rattle.swarm_objects.specs.declared.calls.What.TheVariants as whats;
ghost use Rattle.swarm_plain.specs.Plain.{world_of};
ghost use Rattle.swarm_store.specs.Stored.{StandsFor};

use crate::calls::{answer, is_remote};
use crate::copies::compare_rows;
use crate::differences::differences;
use crate::faults::Fault;
use crate::loops::{changes_of, is_agents};
use crate::notes::{differs, note_answers};
use crate::stores::{apply_both, push_reply, take_id, transact};
use std::alloc::Global;
use swarm_duties::{Replay, StepFault};
use swarm_objects::{Call, Duty, Op, Version, What};
use swarm_plain::Plain;
use swarm_store::Store;
use swarm_watch::Watches;

/// What is said of an entry: the texts of the plain world's reply and of the store's, and how they differ.
#[derive(Drop)]
pub(crate) struct Said {
    pub(crate) alloc: Global,
    pub(crate) plain: Vec<u8>,
    pub(crate) own: Vec<u8>,
    pub(crate) note: Vec<u8>,
}

impl Said {
    pub(crate) fn new(alloc: Global) -> Said {
        Said {
            alloc,
            plain: Vec::new(alloc),
            own: Vec::new(alloc),
            note: Vec::new(alloc),
        }
    }

    /// Nothing is said of the next entry yet.
    pub(crate) fn clear(&mut self) {
        self.plain.clear();
        self.own.clear();
    }

    fn compare(&mut self) -> Result<(), Fault> {
        if self.plain.as_slice() == self.own.as_slice() {
            return Ok(());
        }
        let note = &mut self.note;
        note_answers(note, self.plain.as_slice(), self.own.as_slice())?;
        Err(Fault::Differs)
    }
}

// The number of the next entry.
fn next_version(replay: &Replay) -> Result<Version, Fault>
    ensures { IfOk result (λ version. version ≡ replay.now.entries + 1) }
{
    match replay.plain().entries.checked_add(1) {
        Some(version) => Ok(version),
        None => Err(Fault::NoMemory),
    }
}

// Does the entry on the plain world.
fn step(replay: &mut Replay, said: &mut Said, what: &What) -> Result<(), Fault>
    ensures { OnOk result (replay.new ≡ (step replay.old what.now).after) }
{
    match replay.step(what) {
        Ok(reply) => push_reply(said.alloc, &mut said.plain, reply),
        Err(StepFault::NoMemory) => Err(Fault::NoMemory),
        Err(StepFault::Illegal) => Err(differs(&mut said.note, b"the entry may not follow\n")),
    }
}

// Makes in the store what the entry, which is done, changed of nodes and tasks.
fn catch_up(
    replay: &Replay,
    store: &mut Store,
    watches: &mut Watches,
    copy: &mut Plain,
) -> Result<(), Fault>
    requires { StandsFor store.old (world_of copy.old) }
    ensures { OnOk result (StandsFor store.new (world_of copy.new)) }
{
    let after = replay.plain();
    let changes = differences(copy.alloc, copy, after)?;
    apply_both(store, watches, copy, after.entries, changes)?;
    if copy.next_id < after.next_id {
        take_id(store, copy)?;
    }
    Ok(())
}

// A duty of the agents.
fn follow_agents(
    replay: &mut Replay,
    store: &mut Store,
    watches: &mut Watches,
    copy: &mut Plain,
    said: &mut Said,
    what: &What,
) -> Result<(), Fault>
    requires { StandsFor store.old (world_of copy.old) }
    ensures { OnOk result (StandsFor store.new replay.new) }
{
    step(replay, said, what)?;
    catch_up(replay, store, watches, copy)?;
    compare_rows(copy, replay, &mut said.note)
}

// A duty of a loop that is written over any rows too.
fn follow_loop(
    replay: &mut Replay,
    store: &mut Store,
    watches: &mut Watches,
    copy: &mut Plain,
    said: &mut Said,
    what: &What,
    duty: Duty,
) -> Result<(), Fault>
    requires { StandsFor store.old (world_of copy.old) }
    ensures { OnOk result (StandsFor store.new replay.new) }
{
    let version = next_version(replay)?;
    let changes = changes_of(said.alloc, replay, duty)?;
    apply_both(store, watches, copy, version, changes)?;
    step(replay, said, what)?;
    compare_rows(copy, replay, &mut said.note)
}

// Any call but a transaction.
fn follow_call(
    replay: &mut Replay,
    store: &mut Store,
    watches: &mut Watches,
    copy: &mut Plain,
    said: &mut Said,
    what: &What,
    call: &Call,
) -> Result<(), Fault>
    requires stands { StandsFor store.old (world_of copy.old) }
    requires reached { IsReached (world_of copy.old) }
    ensures { OnOk result (StandsFor store.new replay.new) }
{
    let is_answered = answer(said.alloc, store, watches, copy, call, &mut said.own)?;
    step(replay, said, what)?;
    if is_remote(call) {
        catch_up(replay, store, watches, copy)?;
    }
    if is_answered {
        said.compare()?;
    }
    compare_rows(copy, replay, &mut said.note)
}

// A transaction. Where the store refused it, it has what it had, and so must the plain world.
fn follow_txn(
    replay: &mut Replay,
    store: &mut Store,
    watches: &mut Watches,
    copy: &Plain,
    said: &mut Said,
    what: &What,
    ops: &[Op],
) -> Result<(), Fault>
    requires what { what.now ≡ whats.Call (calls.Txn ops.now) }
    requires stands { StandsFor store.old replay.old }
    requires copied { StandsFor store.old (world_of copy.now) }
    ensures { OnOk result (StandsFor store.new replay.new) }
{
    let version = next_version(replay)?;
    let is_done = transact(
        said.alloc,
        store,
        watches,
        copy,
        version,
        ops,
        &mut said.own,
    )?;
    step(replay, said, what)?;
    said.compare()?;
    if is_done {
        return Ok(());
    }
    compare_rows(copy, replay, &mut said.note)
}

/// Does the entry on both, the copy being the plain world before it. All is well where they answer alike and the store
/// has the plain world's rows after it.
pub(crate) fn follow(
    replay: &mut Replay,
    store: &mut Store,
    watches: &mut Watches,
    copy: &mut Plain,
    said: &mut Said,
    what: &What,
) -> Result<(), Fault>
    requires stands { StandsFor store.old replay.old }
    requires copied { StandsFor store.old (world_of copy.old) }
    requires reached { IsReached (world_of copy.old) }
    ensures { OnOk result (StandsFor store.new replay.new) }
{
    match what {
        What::Call(Call::Txn(ops)) => {
            follow_txn(replay, store, watches, copy, said, what, ops.as_slice())
        }
        What::Call(call) => follow_call(replay, store, watches, copy, said, what, call),
        What::Duty(duty) if is_agents(*duty) => {
            follow_agents(replay, store, watches, copy, said, what)
        }
        What::Duty(duty) => follow_loop(replay, store, watches, copy, said, what, *duty),
    }
}
