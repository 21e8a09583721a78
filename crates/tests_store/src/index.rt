// Each answer of the index, at networks, which have their names as keys.
ghost use Rattle.std.specs.Prelude.{◌≡◌, IfOk};

use std::alloc::Global;
use std::test::Fail;
use swarm_index::keys::NAME;
use swarm_index::{IndexKey, Indexed, Row};
use swarm_objects::{Id, Name, Network, NoMemory};

fn network(alloc: Global, id: Id, name: &str) -> Result<Network, NoMemory>
    ensures { IfOk result (λ row. row.id ≡ id) }
{
    Ok(Network {
        id,
        version: 1,
        name: Name::new(alloc, name)?,
        base: 0,
        length: 24,
    })
}

// Puts a network of this id and name into the index, where none has the id.
fn put(alloc: Global, index: &mut Indexed<Network>, id: Id, name: &str) -> Result<(), NoMemory> {
    if index.get(id).is_some() {
        return Ok(());
    }
    let back = index.insert(network(alloc, id, name)?);
    let is_put = back.is_ok();
    drop(back);
    is_put.then_some(()).ok_or(NoMemory)
}

// Puts a network of this id and name in the place of the one with the id, where there is one; true where there was.
fn change(
    alloc: Global,
    index: &mut Indexed<Network>,
    id: Id,
    name: &str,
) -> Result<bool, NoMemory> {
    if index.get(id).is_none() {
        return Ok(false);
    }
    let old = index.replace(network(alloc, id, name)?);
    let is_put = old.is_ok();
    drop(old);
    is_put.then_some(true).ok_or(NoMemory)
}

// The id, or 0 where no row is.
fn id_of(row: Option<&Network>) -> Id {
    match row {
        Some(row) => row.id(),
        None => 0,
    }
}

// The id of the next network of this name.
fn named(alloc: Global, index: &Indexed<Network>, name: &str, after: Id) -> Result<Id, NoMemory> {
    let name = Name::new(alloc, name)?;
    let found = id_of(index.next_by_key(NAME, &IndexKey::Text(&name), after));
    drop(name);
    Ok(found)
}

// Three networks, of which two share a name, come into the index.
fn put_three(alloc: Global, index: &mut Indexed<Network>, room: u64) -> Result<(), NoMemory> {
    index.reserve(room)?;
    put(alloc, index, 5, "red")?;
    put(alloc, index, 2, "blue")?;
    put(alloc, index, 9, "red")
}

// The ids of look-ups by id, and of the next ones after some ids.
fn find_ids(alloc: Global, index: &mut Indexed<Network>) -> Result<([Id; 2], [Id; 3]), NoMemory> {
    put_three(alloc, index, 0)?;
    let found = [id_of(index.get(5)), id_of(index.get(4))];
    let next = [
        id_of(index.next(0)),
        id_of(index.next(2)),
        id_of(index.next(9)),
    ];
    Ok((found, next))
}

#[test]
fn rows_are_found_by_id(rt: HostRuntime) -> Result<(), Fail> {
    let mut index = Indexed::new(rt.alloc());
    let told = find_ids(rt.alloc(), &mut index);
    drop(index);
    assert_eq!(rt; told?, ([5, 0], [2, 5, 0]));
    Ok(())
}

fn find_names(alloc: Global, index: &mut Indexed<Network>) -> Result<[Id; 4], NoMemory> {
    put_three(alloc, index, 0)?;
    Ok([
        named(alloc, index, "red", 0)?,
        named(alloc, index, "red", 5)?,
        named(alloc, index, "red", 9)?,
        named(alloc, index, "green", 0)?,
    ])
}

#[test]
fn rows_are_found_by_name(rt: HostRuntime) -> Result<(), Fail> {
    let mut index = Indexed::new(rt.alloc());
    let told = find_names(rt.alloc(), &mut index);
    drop(index);
    assert_eq!(rt; told?, [5, 9, 0, 0]);
    Ok(())
}

// Whether rows 5 and 6 are replaced by one with another name, and the next ones of the old and the new name then.
fn replace(alloc: Global, index: &mut Indexed<Network>) -> Result<([bool; 2], [Id; 2]), NoMemory> {
    put_three(alloc, index, 1)?;
    let is_put = [
        change(alloc, index, 5, "blue")?,
        change(alloc, index, 6, "blue")?,
    ];
    let next = [
        named(alloc, index, "red", 0)?,
        named(alloc, index, "blue", 2)?,
    ];
    Ok((is_put, next))
}

#[test]
fn a_replaced_row_has_its_new_name(rt: HostRuntime) -> Result<(), Fail> {
    let mut index = Indexed::new(rt.alloc());
    let told = replace(rt.alloc(), &mut index);
    drop(index);
    assert_eq!(rt; told?, ([true, false], [9, 5]));
    Ok(())
}

// Whether a row of this id was there, which is removed.
fn take_out(index: &mut Indexed<Network>, id: Id) -> bool {
    let row = index.remove(id);
    let was_there = row.is_some();
    drop(row);
    was_there
}

// Whether row 5 was there, twice, and the next ones by id and by name then.
fn remove(alloc: Global, index: &mut Indexed<Network>) -> Result<([bool; 2], [Id; 2]), NoMemory> {
    put_three(alloc, index, 0)?;
    let was_there = [take_out(index, 5), take_out(index, 5)];
    let next = [id_of(index.next(2)), named(alloc, index, "red", 0)?];
    Ok((was_there, next))
}

#[test]
fn a_removed_row_is_gone(rt: HostRuntime) -> Result<(), Fail> {
    let mut index = Indexed::new(rt.alloc());
    let told = remove(rt.alloc(), &mut index);
    drop(index);
    assert_eq!(rt; told?, ([true, false], [9, 9]));
    Ok(())
}
