// Rows by rising id with the marks of their keys.
ghost use Rattle.std.specs.Prelude.{◌≡◌, ◌<◌, IfErr, IsTrue, None, OnErr, OnOk, Some, [], filter};
ghost use Rattle.std.specs.Option.{option_copied};
ghost use Rattle.swarm_index.specs.Keys.{has_key, value_of};
ghost use Rattle.swarm_objects.specs.Rows.{IsRising, drop_row, has_row, is_some_and, itself, put_row, row_above, row_at, rows_named, with_row};

use crate::boxes::Boxes;
use crate::marks::{Marks, add_marks, remove_marks};
use crate::{IndexKey, Row};
use std::alloc::Global;
use std::marker::Model;
use swarm_objects::{Id, NoMemory};

#[derive(Drop)]
pub struct Table<R: Row + Drop> {
    rows: Boxes<R>,
    marks: Marks,
}

impl<R: Row + Drop> Model for Table<R> {
    ghost use Rattle.std.specs.Prelude.{List as Seq};
    ghost use Rattle.std.specs.Map.{values_of};
    ghost use Rattle.swarm_index.specs.Inside.Marks.{IsTable};

    ghost Value = { Seq R };

    ghost view = { λ t. values_of t.rows };

    ghost invariant = { λ t. IsTable R.id_of R.key_of R.KEYS t.rows t.marks.map };
}

impl<R: Row + Drop> Table<R> {
    // The table without rows. It takes no memory.
    pub fn new(alloc: Global) -> Table<R>
        ensures { result ≡ [] }
    {
        Table {
            rows: Boxes::new(alloc),
            marks: Marks::new(alloc),
        }
    }

    // Puts a row with a new id among the others, or hands it back for want of memory.
    pub fn insert(&mut self, row: R) -> Result<(), R>
        requires { row_at R.id_of (R.id_of row) self.old ≡ None }
        ensures ok { OnOk result (self.new ≡ with_row R.id_of row self.old) }
        ensures err { OnErr result (self.new ≡ self.old) }
        ensures back { IfErr result (λ same. same ≡ row) }
        ensures order { IsRising R.id_of self.new }
    {
        if add_marks(&mut self.marks, &row, None).is_err() {
            return Err(row);
        }
        match self.rows.insert(row.id(), row) {
            Ok(()) => Ok(()),
            Err(row) => {
                remove_marks(&mut self.marks, &row, None, R::KEYS);
                Err(row)
            }
        }
    }

    // The row is exchanged with the one that has its id, or all stays as it is for want of memory.
    pub fn exchange(&mut self, row: &mut R) -> Result<(), NoMemory>
        requires { IsTrue (has_row R.id_of (R.id_of row.old) self.old) }
        ensures ok { OnOk result (self.new ≡ put_row R.id_of row.old self.old) }
        ensures old { OnOk result (row_at R.id_of (R.id_of row.old) self.old ≡ Some row.new) }
        ensures err { OnErr result (self.new ≡ self.old) }
        ensures back { OnErr result (row.new ≡ row.old) }
        ensures order { IsRising R.id_of self.new }
    {
        let Ok(()) = self.rows.exchange(&mut self.marks, row) else {
            return Err(NoMemory);
        };
        Ok(())
    }

    // Takes the row with this id out, if it is there.
    pub fn remove(&mut self, id: Id) -> Option<R>
        ensures value { result ≡ row_at R.id_of id self.old }
        ensures rows { self.new ≡ drop_row R.id_of id self.old }
        ensures order { IsRising R.id_of self.new }
    {
        match self.rows.remove(id) {
            Some(row) => {
                remove_marks(&mut self.marks, &row, None, R::KEYS);
                Some(row)
            }
            None => None,
        }
    }

    // The row with this id.
    pub fn get(&self, id: Id) -> Option<&R>
        ensures value { option_copied result ≡ row_at R.id_of id self.now }
        ensures order { IsRising R.id_of self.now }
    {
        self.rows.get(id)
    }

    // The row with the least id above this one.
    pub fn next(&self, after: Id) -> Option<&R>
        ensures value { option_copied result ≡ row_above R.id_of after self.now }
        ensures order { IsRising R.id_of self.now }
    {
        self.rows.next(after)
    }

    // Of the rows whose key of the number `which` is this one, that with the least id above `after`.
    pub fn next_by_key(&self, which: u32, key: &IndexKey<'_>, after: Id) -> Option<&R>
        requires { which < R.KEYS }
        ensures value { option_copied result
            ≡ row_above R.id_of after (filter (has_key R.key_of which (value_of key.now)) self.now) }
        ensures order { IsRising R.id_of self.now }
    {
        let digest = key.digest();
        let mut passed = after;
        while let Some(id) = self.marks.next(which, digest, passed) {
            let row = self.rows.get(id);
            if is_keyed(row, which, key) {
                return row;
            }
            passed = id;
        }
        None
    }

    // The ids of all rows with the digest that this key has, which are those with the key and maybe others, by rising
    // number.
    pub fn ids_by_key(&self, which: u32, key: &IndexKey<'_>) -> &[Id]
        requires { which < R.KEYS }
        ensures value { let has = has_key R.key_of which (value_of key.now) in
            filter has (rows_named R.id_of result.now self.now) ≡ filter has self.now }
        ensures rising { IsRising itself result.now }
        ensures order { IsRising R.id_of self.now }
    {
        self.marks.ids(which, key.digest())
    }
}

// Whether the row is there and its key of the number `which` is this one.
fn is_keyed<'a, R: Row>(row: Option<&'a R>, which: u32, key: &IndexKey<'_>) -> bool
    requires { which < R.KEYS }
    ensures { result ≡ is_some_and (has_key R.key_of which (value_of key.now)) (option_copied row.entry) }
{
    match row {
        Some(row) => has_key(row, which, key),
        None => false,
    }
}

// Whether the row's key of the number `which` is this one.
pub fn has_key<R: Row>(row: &R, which: u32, key: &IndexKey<'_>) -> bool
    requires { which < R.KEYS }
    ensures { result ≡ has_key R.key_of which (value_of key.now) row.now }
{
    match row.key(which) {
        Some(own) => own.same(key),
        None => false,
    }
}
