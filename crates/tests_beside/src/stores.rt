// The store and a copy of the plain world, which are changed alike.
ghost use Rattle.std.specs.Prelude.{◌≡◌, IfOk, None, OnOk, true};
ghost use Rattle.tests_beside.specs.Made.{Transacted};
ghost use Rattle.swarm_duties.specs.Reached.{IsReached};
ghost use Rattle.swarm_objects.specs.Limits.{is_tick};
ghost use Rattle.swarm_objects.specs.Rows.{row_at};
ghost use Rattle.swarm_plain.specs.Plain.{world_of};
ghost use Rattle.swarm_store.specs.Stored.{StandsFor};
ghost use Rattle.swarm_watch.specs.Watchings.{watching_id};

use crate::copies::apply_all;
use crate::faults::Fault;
use std::alloc::Global;
use swarm_objects::limits::LONGEST_TICK;
use swarm_objects::{Change, Filter, Id, List, Ms, NoMemory, Op, Query, Refusal, Reply, Version};
use swarm_plain::Plain;
use swarm_print::reply_text;
use swarm_store::Store;
use swarm_watch::Watches;

// A store asks that times and ids are below this.
const FAR_END: u64 = 1 << 60;

// A value with many parts is dropped by name, by a call, which is proved once for its type.
fn push_text(alloc: Global, own: &mut Vec<u8>, reply: Reply) -> Result<(), NoMemory> {
    let text = reply_text(alloc, &reply);
    drop(reply);
    Ok(own.extend_from_slice(text?.as_slice())?)
}

/// Puts the text of a reply behind the others.
pub(crate) fn push_reply(alloc: Global, text: &mut Vec<u8>, reply: Reply) -> Result<(), Fault> {
    push_text(alloc, text, reply)?;
    Ok(())
}

// Want of memory is no reply.
fn push_refusal(alloc: Global, own: &mut Vec<u8>, refusal: Refusal) -> Result<(), Fault> {
    match refusal {
        Refusal::NoMemory => Err(Fault::NoMemory),
        refusal => push_reply(alloc, own, Reply::Refused(refusal)),
    }
}

/// Does the transaction, and says whether it was done. The copy is of a world that the store stands for.
pub(crate) fn transact(
    alloc: Global,
    store: &mut Store,
    watches: &mut Watches,
    copy: &Plain,
    version: Version,
    ops: &[Op],
    own: &mut Vec<u8>,
) -> Result<bool, Fault>
    requires { StandsFor store.old (world_of copy.now) }
    ensures { IfOk result (λ done. Transacted version ops.now done store.old store.new) }
{
    match store.txn(version, ops) {
        Ok(ids) => {
            push_reply(alloc, own, Reply::Txn(ids))?;
            watches.note(store.changes())?;
            Ok(true)
        }
        Err(refusal) => {
            push_refusal(alloc, own, refusal)?;
            Ok(false)
        }
    }
}

/// Makes the changes in both.
pub(crate) fn apply_both(
    store: &mut Store,
    watches: &mut Watches,
    copy: &mut Plain,
    version: Version,
    changes: List<Change>,
) -> Result<(), Fault>
    requires { StandsFor store.old (world_of copy.old) }
    ensures { OnOk result (StandsFor store.new (world_of copy.new)) }
{
    match apply_all(copy, changes.as_slice()) {
        Ok(()) => {
            store.apply(version, changes)?;
            watches.note(store.changes())?;
            Ok(())
        }
        Err(fault) => {
            drop(changes);
            Err(fault)
        }
    }
}

/// Answers the query.
pub(crate) fn view(
    alloc: Global,
    store: &Store,
    copy: &Plain,
    query: &Query,
    own: &mut Vec<u8>,
) -> Result<(), Fault>
    requires stands { StandsFor store.now (world_of copy.now) }
    requires reached { IsReached (world_of copy.now) }
{
    match store.view(query) {
        Ok(view) => push_reply(alloc, own, Reply::View(view)),
        Err(refusal) => push_refusal(alloc, own, refusal),
    }
}

/// Gives the next id of both, for a session or a watcher.
pub(crate) fn take_id(store: &mut Store, copy: &mut Plain) -> Result<Id, Fault>
    requires { StandsFor store.old (world_of copy.old) }
    ensures { OnOk result (StandsFor store.new (world_of copy.new)) }
{
    if store.next_id() >= FAR_END {
        return Err(Fault::Differs);
    }
    let id = store.take_id();
    copy.next_id = store.next_id();
    Ok(id)
}

fn is_tick(ms: Ms) -> bool
    ensures { result ≡ is_tick ms }
{
    1 <= ms && ms <= LONGEST_TICK
}

/// Both clocks go on. A store asks for a tick that it may do, so its owner refuses the others.
pub(crate) fn tick(
    alloc: Global,
    store: &mut Store,
    copy: &mut Plain,
    ms: Ms,
    own: &mut Vec<u8>,
) -> Result<(), Fault>
    requires { StandsFor store.old (world_of copy.old) }
    ensures { OnOk result (StandsFor store.new (world_of copy.new)) }
{
    if !is_tick(ms) {
        return push_reply(alloc, own, Reply::Refused(Refusal::BadTick(ms)));
    }
    if store.now() >= FAR_END {
        return Err(Fault::Differs);
    }
    store.tick(ms);
    copy.clock = store.now();
    push_reply(alloc, own, Reply::Ticked)
}

// Whether no watcher has the id: then none ends by it.
fn is_free(watches: &mut Watches, id: Id) -> bool
    ensures { result ≡ true → (row_at watching_id id watches.new.watchers ≡ None) }
{
    watches.finish(id).is_err()
}

/// The watcher has the next id of both, unless it is refused.
pub(crate) fn begin(
    alloc: Global,
    store: &mut Store,
    watches: &mut Watches,
    copy: &mut Plain,
    filter: Filter,
    own: &mut Vec<u8>,
) -> Result<(), Fault>
    requires { StandsFor store.old (world_of copy.old) }
    ensures { OnOk result (StandsFor store.new (world_of copy.new)) }
{
    let id = store.next_id();
    if !is_free(watches, id) {
        return Err(Fault::Differs);
    }
    match watches.begin(id, filter) {
        Ok(()) => {
            let id = take_id(store, copy)?;
            push_reply(alloc, own, Reply::WatchBegun(id))
        }
        Err(refusal) => push_refusal(alloc, own, refusal),
    }
}

/// Gives a watcher its events.
pub(crate) fn poll(
    alloc: Global,
    watches: &mut Watches,
    id: Id,
    own: &mut Vec<u8>,
) -> Result<(), Fault> {
    match watches.poll(id) {
        Ok(events) => push_reply(alloc, own, Reply::Events(events)),
        Err(refusal) => push_refusal(alloc, own, refusal),
    }
}

/// Ends a watcher.
pub(crate) fn finish(
    alloc: Global,
    watches: &mut Watches,
    id: Id,
    own: &mut Vec<u8>,
) -> Result<(), Fault> {
    match watches.finish(id) {
        Ok(()) => push_reply(alloc, own, Reply::WatchFinished(id)),
        Err(refusal) => push_refusal(alloc, own, refusal),
    }
}
