// Lists, and values that are made again.
use std::alloc::Global;
use std::test::Fail;
use swarm_objects::{Call, Duplicate, Entry, List, Name, NoMemory, Query, What, add, put_in_order};

// 7, and 3, 5 and 3 again put in order, and 1 at the end.
fn put_numbers(ids: &mut List<u64>) -> Result<(), NoMemory> {
    add(ids, 7)?;
    put_in_order(ids, 3)?;
    put_in_order(ids, 5)?;
    put_in_order(ids, 3)?;
    add(ids, 1)
}

// The last number that a walk over the list meets.
fn last_met(ids: &List<u64>) -> u64 {
    let mut latest = 0;
    for id in ids {
        latest = *id;
    }
    latest
}

// Whether the list has these numbers, how many it says that there are, whether it has none, and which is met last.
fn shown(ids: &List<u64>, wanted: &[u64]) -> (bool, usize, bool, u64) {
    (
        ids.as_slice() == wanted,
        ids.len(),
        ids.is_empty(),
        last_met(ids),
    )
}

fn shown_numbers(alloc: Global, wanted: &[u64]) -> Result<(bool, usize, bool, u64), NoMemory> {
    let mut ids = List::new(alloc);
    let put = put_numbers(&mut ids);
    let shown = shown(&ids, wanted);
    drop(ids);
    put?;
    Ok(shown)
}

#[test]
fn numbers_are_put_in_order(rt: HostRuntime) -> Result<(), Fail> {
    let shown = shown_numbers(rt.alloc(), &[3, 5, 7, 1])?;
    assert_eq!(rt; shown, (true, 4, false, 1));
    Ok(())
}

// A caller's look at the tasks of a service.
fn entry(service: Name) -> Entry {
    Entry {
        by: 3,
        what: What::Call(Call::View(Query::ListTasks(Some(service)))),
    }
}

// Whether it is that look.
fn is_entry(entry: &Entry) -> bool {
    match &entry.what {
        What::Call(Call::View(Query::ListTasks(Some(service)))) => {
            entry.by == 3 && service.as_str() == "web"
        }
        _ => false,
    }
}

fn is_copy(copy: &Result<Entry, NoMemory>) -> Result<bool, NoMemory> {
    match copy {
        Ok(entry) => Ok(is_entry(entry)),
        Err(NoMemory) => Err(NoMemory),
    }
}

// Whether the look, made again, is the same one.
fn is_made_again(alloc: Global) -> Result<bool, NoMemory> {
    let entry = entry(Name::new(alloc, "web")?);
    let copy = entry.duplicate(alloc);
    drop(entry);
    let is_same = is_copy(&copy);
    drop(copy);
    is_same
}

#[test]
fn an_entry_is_made_again(rt: HostRuntime) -> Result<(), Fail> {
    assert!(rt; is_made_again(rt.alloc())?);
    Ok(())
}
