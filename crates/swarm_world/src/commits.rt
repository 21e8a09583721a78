// Committing changes of rows: the store has them and the watchers hear of them, or neither.
ghost use Rattle.std.specs.Prelude.{◌≡◌, ◌≤◌, OnErr, OnOk, filter, length, map};
ghost use Rattle.swarm_objects.specs.ChangeLists.{CanApplyAll};
ghost use Rattle.swarm_watch.specs.Calls.{hears, is_awaited};
ghost use Rattle.swarm_world.specs.Inside.Commits.{Commits, HasRoom};
ghost use Rattle.swarm_world.specs.Inside.Records.{AreUsable, tables_of};

use crate::records::Records;
use swarm_objects::{Change, List, NoMemory, Version};
use swarm_store::Store;
use swarm_watch::Watches;

/// Makes room for so many events, where anybody watches.
pub fn make_room(watches: &mut Watches, most: u64) -> Result<(), NoMemory>
    ensures ok { OnOk result (HasRoom most watches.new) }
    ensures err { OnErr result (watches.new ≡ watches.old) }
    ensures watchers { watches.new.watchers ≡ watches.old.watchers }
{
    if watches.is_empty() {
        return Ok(());
    }
    watches.reserve(most)
}

/// The watchers hear of the last change, for which there is room.
pub fn tell(store: &Store, watches: &mut Watches)
    requires room { length (filter (is_awaited watches.old.watchers) store.now.changes) ≤ watches.old.room }
    ensures { watches.new.watchers ≡ map (hears store.now.changes) watches.old.watchers }
{
    match watches.note(store.changes()) {
        Ok(()) => {}
        Err(_) => unreachable!(),
    }
}

/// Applies the changes as the entry with this number, and tells the watchers; or memory is wanting, and nothing
/// changes.
pub fn commit(
    records: &mut Records,
    watches: &mut Watches,
    version: Version,
    changes: List<Change>,
) -> Result<(), NoMemory>
    requires usable { AreUsable records.old }
    requires can { CanApplyAll (tables_of records.old) changes }
    ensures { Commits version changes records.old watches.old result records.new watches.new }
{
    let Ok(()) = make_room(watches, changes.len() as u64) else {
        return Err(NoMemory);
    };
    let Ok(()) = records.store.apply(version, changes) else {
        return Err(NoMemory);
    };
    tell(&records.store, watches);
    Ok(())
}
