// The store alone: the events of its last change, and transactions for which memory is wanting.
ghost use Rattle.std.specs.Prelude.{◌≡◌, IfOk, true};
ghost use Rattle.swarm_objects.specs.Rows.{has_row, service_id};

use std::alloc::Global;
use std::test::Fail;
use swarm_objects::{
    Change, Draft, Duplicate, Event, Id, Kind, List, Name, NoMemory, NodeDraft, Op, Refusal,
    Service, Verb, Version, add, list_of,
};
use swarm_store::Store;

// What a transaction was answered: how many ids and the last, who has the name, or that memory was wanting; and whether
// a part of it stands then.
#[derive(Clone, Copy, Debug, PartialEq, Eq)]
enum Told {
    Ids(usize, Id),
    NameTaken(Id),
    NoMemory,
    Part,
    Other,
}

fn told_ids(ids: &[Id]) -> Told {
    match ids {
        [.., last] => Told::Ids(ids.len(), *last),
        [] => Told::Ids(0, 0),
    }
}

fn told_of(answer: &Result<List<Id>, Refusal>) -> Told {
    match answer {
        Ok(ids) => told_ids(ids.as_slice()),
        Err(Refusal::NameTaken(id)) => Told::NameTaken(*id),
        Err(Refusal::NoMemory) => Told::NoMemory,
        Err(_) => Told::Other,
    }
}

// Does the transaction as the entry with this number.
fn txn(store: &mut Store, version: Version, ops: &[Op]) -> Told {
    let answer = store.txn(version, ops);
    let told = told_of(&answer);
    drop(answer);
    told
}

fn service(alloc: Global, name: &str) -> Result<Op, NoMemory> {
    Ok(Op::CreateService(Name::new(alloc, name)?, Draft::usual(alloc)?))
}

fn node(alloc: Global, name: &str) -> Result<Op, NoMemory> {
    Ok(Op::CreateNode(Name::new(alloc, name)?, NodeDraft::usual(alloc)?))
}

fn network(alloc: Global, name: &str) -> Result<Op, NoMemory> {
    Ok(Op::CreateNetwork(Name::new(alloc, name)?, 0x0a00_0000, 24))
}

// A service with this name, by the entry with this number.
fn create(
    alloc: Global,
    store: &mut Store,
    version: Version,
    name: &str,
) -> Result<Told, NoMemory> {
    let ops = list_of(alloc, service(alloc, name)?)?;
    let told = txn(store, version, ops.as_slice());
    drop(ops);
    Ok(told)
}

// The row as the entry with this number writes it.
fn rewritten(alloc: Global, row: &Service, version: Version) -> Result<Service, NoMemory>
    ensures { IfOk result (λ new. new.id ≡ row.now.id) }
{
    let mut new = row.duplicate(alloc)?;
    new.version = version;
    Ok(new)
}

fn put(alloc: Global, store: &mut Store, version: Version, row: Service) -> Result<(), NoMemory>
    requires { has_row service_id row.id store.old.tables.services ≡ true }
{
    let changes = list_of(alloc, Change::PutService(row))?;
    store.apply(version, changes)
}

// Puts the service that is there, written by the entry with this number; false where it isn't there.
fn rewrite(alloc: Global, store: &mut Store, version: Version, id: Id) -> Result<bool, NoMemory> {
    match store.service(id) {
        Some(there) => {
            let row = rewritten(alloc, there, version)?;
            put(alloc, store, version, row)?;
            Ok(true)
        }
        None => Ok(false),
    }
}

// The event of the last change, where it was one.
fn only_event(store: &Store) -> Option<Event> {
    match store.changes() {
        [event] => Some(*event),
        _ => None,
    }
}

fn of_service(entry: u64, verb: Verb, id: Id) -> Option<Event> {
    Some(Event {
        entry,
        verb,
        kind: Kind::Service,
        id,
    })
}

// The name twice, and then the first one's row by a duty, with the event after each.
fn play(
    alloc: Global,
    store: &mut Store,
) -> Result<([Told; 2], bool, [Option<Event>; 2]), NoMemory> {
    let first = create(alloc, store, 1, "web")?;
    let again = create(alloc, store, 2, "web")?;
    let created = only_event(store);
    let is_put = rewrite(alloc, store, 3, 1)?;
    Ok(([first, again], is_put, [created, only_event(store)]))
}

#[test]
fn changes_are_those_of_the_last_accepted_entry(rt: HostRuntime) -> Result<(), Fail> {
    let mut store = Store::new(rt.alloc())?;
    let played = play(rt.alloc(), &mut store);
    drop(store);
    let told = [Told::Ids(1, 1), Told::NameTaken(1)];
    let events = [
        of_service(1, Verb::Created, 1),
        of_service(3, Verb::Updated, 1),
    ];
    assert_eq!(rt; played?, (told, true, events));
    Ok(())
}

// Adds a network, a node and three services.
fn add_five(alloc: Global, ops: &mut List<Op>) -> Result<(), NoMemory> {
    add(ops, network(alloc, "net")?)?;
    add(ops, node(alloc, "n1")?)?;
    for name in ["web", "db", "api"] {
        add(ops, service(alloc, name)?)?;
    }
    Ok(())
}

// Whether it has no row and no event.
fn is_blank(store: &Store) -> bool {
    let networks = store.next_network(0).is_some();
    let nodes = store.next_node(0).is_some();
    let services = store.next_service(0).is_some();
    !(networks || nodes || services) && store.changes().is_empty()
}

// The same transaction again where memory was wanting. Nothing may have changed then.
fn try_twice(store: &mut Store, ops: &[Op]) -> Told {
    match txn(store, 1, ops) {
        Told::NoMemory if is_blank(store) => txn(store, 1, ops),
        Told::NoMemory => Told::Part,
        told => told,
    }
}

// How it was answered, and how many events there are then.
fn pass(alloc: Global, store: &mut Store, ops: &mut List<Op>) -> Result<(Told, usize), NoMemory> {
    add_five(alloc, ops)?;
    let told = try_twice(store, ops.as_slice());
    Ok((told, store.changes().len()))
}

// It passes whichever single allocation of the transaction fails.
#[test]
fn transaction_goes_through_after_want_of_memory(rt: HostRuntime) -> Result<(), Fail> {
    let mut store = Store::new(rt.alloc())?;
    let mut ops = List::new(rt.alloc());
    let passed = pass(rt.alloc(), &mut store, &mut ops);
    drop(ops);
    drop(store);
    assert_eq!(rt; passed?, (Told::Ids(5, 5), 5));
    Ok(())
}
