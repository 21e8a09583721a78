//! Calls of `swarm_store`.
ghost use Rattle.std.specs.Prelude.{◌≡◌, ◌+◌, ◌<◌, ◌≤◌, OnOk, length};
ghost use Rattle.std.specs.Option.{option_copied};
ghost use Rattle.swarm_model.specs.Calls.Refusals.{node_by};
ghost use Rattle.swarm_objects.specs.Bounds.{far_end};
ghost use Rattle.swarm_objects.specs.ChangeLists.{CanApplyAll};
ghost use Rattle.swarm_objects.specs.Changes.{id_taken};
ghost use Rattle.swarm_objects.specs.World.{World};
ghost use Rattle.swarm_store.specs.Stored.{AppliesChanges, StandsFor, Transacts, row_count};

use swarm_objects::{Change, Id, List, Name, NoMemory, Node, Op, Refusal, Version};
use swarm_store::Store;

/// `Store::take_id`.
pub fn take_id(store: &mut Store) -> Id
    requires { store.old.tables.next_id < far_end }
    ensures id { result ≡ store.old.tables.next_id }
    ensures taken { store.new ≡ record store.old { tables = id_taken store.old.tables } }
{
    let id = store.take_id();
    id
}

/// `Store::txn`.
pub fn txn(store: &mut Store, version: Version, ops: &[Op]) -> Result<List<Id>, Refusal>
    ensures done { (w : World) → StandsFor store.old w → Transacts version ops.now w store.old result store.new }
    ensures few { OnOk result (length store.new.changes ≤ row_count store.old.tables + length ops.now) }
{
    let done = store.txn(version, ops);
    done
}

/// `Store::apply`.
pub fn apply(store: &mut Store, version: Version, changes: List<Change>) -> Result<(), NoMemory>
    requires { CanApplyAll store.old.tables changes }
    ensures applied { (w : World) → StandsFor store.old w
        → AppliesChanges version changes w store.old result store.new }
    ensures few { OnOk result (length store.new.changes ≤ length changes) }
{
    let applied = store.apply(version, changes);
    applied
}

/// `Store::rows`.
pub fn rows(store: &Store) -> u64
    ensures count { result ≡ row_count store.now.tables }
    ensures few { result < store.now.tables.next_id }
{
    let count = store.rows();
    count
}

/// `Store::node_named`.
pub fn node_named<'a>(store: &'a Store, name: &Name) -> Option<&'a Node>
    ensures { option_copied result ≡ node_by store.now.tables name.now }
{
    let node = store.node_named(name);
    node
}
