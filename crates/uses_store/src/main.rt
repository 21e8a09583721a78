//! A worked caller of the store: two services of one name, of which the second is refused.
//!
//! A store says of itself which worlds it stands for, and of a transaction that it is the model's in each of them. So
//! a caller can say what it means for a world of its own, without looking into the store.
#![tactic(auto)]

ghost use Rattle.std.specs.Prelude.{IfErr};
ghost use Rattle.swarm_objects.specs.World.{World};
ghost use Rattle.swarm_store.specs.Stored.{StandsFor};

use std::alloc::Global;
use std::io;
use swarm_objects::{Draft, Id, List, Name, NoMemory, Op, Refusal, Version, list_of};
use swarm_store::Store;

// The one operation that creates a service of this name.
fn creation(alloc: Global, name: &str) -> Result<List<Op>, NoMemory> {
    let name = Name::new(alloc, name)?;
    list_of(alloc, Op::CreateService(name, Draft::usual(alloc)?))
}

/// Creates a service of this name as the entry with this number, and gives the ids of what was made. A store that
/// refuses stands for the same worlds as before.
fn create(
    alloc: Global,
    store: &mut Store,
    version: Version,
    name: &str,
) -> Result<List<Id>, Refusal>
    ensures kept { (w : World) → StandsFor store.old w → IfErr result (λ refusal. StandsFor store.new w) }
{
    let Ok(ops) = creation(alloc, name) else {
        return Err(Refusal::NoMemory);
    };
    let answer = store.txn(version, ops.as_slice());
    drop(ops);
    answer
}

// What became of a creation, in words.
fn told(answer: &Result<List<Id>, Refusal>) -> (&'static str, Id) {
    match answer {
        Ok(ids) => ("created", ids.as_slice().first().copied().unwrap_or(0)),
        Err(Refusal::NameTaken(id)) => ("the name is taken by", *id),
        Err(_) => ("refused", 0),
    }
}

// Creates two services of one name, and prints what became of each.
fn create_two(rt: &impl Print, alloc: Global, store: &mut Store) -> io::Result<()> {
    for version in 1..=2 {
        let answer = create(alloc, store, version, "web");
        let (word, id) = told(&answer);
        drop(answer);
        let events = store.changes().len();
        println!(rt; "{version}: {word} {id}, {events} event")?;
    }
    Ok(())
}

fn main(rt: HostRuntime) -> io::Result<()> {
    let Ok(mut store) = Store::new(rt.alloc()) else {
        return Err(io::Error::from(io::ErrorKind::OutOfMemory));
    };
    let done = create_two(&rt, rt.alloc(), &mut store);
    // by name, as the function that owns it has one way out
    drop(store);
    done
}
