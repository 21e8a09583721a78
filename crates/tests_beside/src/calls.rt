// What the store and its watches answer to a call.
ghost use Rattle.std.specs.Prelude.{◌≡◌, IfOk};
ghost use Rattle.swarm_duties.specs.Reached.{IsReached};
ghost use Rattle.swarm_plain.specs.Plain.{world_of};
ghost use Rattle.swarm_store.specs.Stored.{StandsFor};

use crate::faults::Fault;
use crate::stores::{begin, finish, poll, tick, view};
use std::alloc::Global;
use swarm_objects::Call;
use swarm_plain::Plain;
use swarm_store::Store;
use swarm_watch::Watches;

/// Answers the call, where it is one that they have; else nothing happens to them. A transaction is none of these.
pub(crate) fn answer(
    alloc: Global,
    store: &mut Store,
    watches: &mut Watches,
    copy: &mut Plain,
    call: &Call,
    own: &mut Vec<u8>,
) -> Result<bool, Fault>
    requires stands { StandsFor store.old (world_of copy.old) }
    requires reached { IsReached (world_of copy.old) }
    ensures { IfOk result (λ answered. StandsFor store.new (world_of copy.new)) }
{
    match call {
        Call::View(query) => view(alloc, store, copy, query, own)?,
        Call::WatchBegin(filter) => begin(alloc, store, watches, copy, *filter, own)?,
        Call::WatchPoll(id) => poll(alloc, watches, *id, own)?,
        Call::WatchFinish(id) => finish(alloc, watches, *id, own)?,
        Call::Tick(ms) => tick(alloc, store, copy, *ms, own)?,
        _ => return Ok(false),
    }
    Ok(true)
}

/// Whether the call may change rows by what a remote node says, which is no call on a store.
pub(crate) fn is_remote(call: &Call) -> bool {
    matches!(call, Call::RemoteBegin(..) | Call::RemoteStatus(..))
}
