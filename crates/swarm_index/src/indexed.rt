// Rows by rising id.
ghost use Rattle.std.specs.Prelude.{
  ◌≡◌,
  ◌+◌,
  ◌<◌,
  ◌≤◌,
  IfErr,
  IfOk,
  IfSome,
  IsTrue,
  None,
  OnErr,
  OnOk,
  Some,
  [],
  filter,
};
ghost use Rattle.std.specs.Option.{option_copied};
ghost use Rattle.swarm_index.specs.Inside.Merged.{lesser};
ghost use Rattle.swarm_index.specs.Keys.{has_key, value_of};
ghost use Rattle.swarm_objects.specs.Rows.{IsRising, drop_row, has_row, itself, put_row, row_above, row_at, rows_named, with_row};

use crate::spare::Spare;
use crate::table::Table;
use crate::{IndexKey, Row};
use std::alloc::Global;
use std::marker::Model;
use std::mem;
use swarm_objects::{Id, NoMemory};

/// Rows by rising id. A row is found by its id by two reads, and one with a key by one hash of the key; the next row of
/// either is behind it. Contracts see the rows, and the room: how many inserts and replaces can't want memory.
#[derive(Drop)]
pub struct Indexed<R: Row + Drop> {
    table: Table<R>,
    // Rows for which the table had no memory, in the room that was reserved.
    spare: Spare<R>,
}

impl<R: Row + Drop> Model for Indexed<R> {
    ghost use Rattle.swarm_index.specs.Index.{RowsWithRoom};
    ghost use Rattle.swarm_index.specs.Inside.Merged.{IsIndex, with_all};

    ghost Value = { RowsWithRoom R };

    ghost view = { λ i. record { rows = with_all R.id_of i.spare.rows i.table; room = i.spare.room } };

    ghost invariant = { λ i. IsIndex R.id_of i.table i.spare.rows };
}

impl<R: Row + Drop> Indexed<R> {
    /// The index without rows. It takes no memory.
    pub fn new(alloc: Global) -> Indexed<R>
        ensures empty { result.rows ≡ [] }
    {
        Indexed {
            table: Table::new(alloc),
            spare: Spare::new(alloc),
        }
    }

    /// Makes the room at least `n`, or leaves all as it is for want of memory.
    pub fn reserve(&mut self, n: u64) -> Result<(), NoMemory>
        ensures ok { OnOk result (n ≤ self.new.room) }
        ensures rows { self.new.rows ≡ self.old.rows }
        ensures room { self.old.room ≤ self.new.room }
        ensures err { OnErr result (self.new ≡ self.old) }
        ensures full { OnErr result (self.old.room < n) }
    {
        self.spare.reserve(n)
    }

    /// How many inserts and replaces can't want memory.
    pub fn room(&self) -> u64
        ensures { result ≡ self.now.room }
    {
        self.spare.room()
    }

    /// Puts a row with a new id among the others, or hands it back for want of memory.
    pub fn insert(&mut self, row: R) -> Result<(), R>
        requires { row_at R.id_of (R.id_of row) self.old.rows ≡ None }
        ensures ok { OnOk result (self.new.rows ≡ with_row R.id_of row self.old.rows) }
        ensures room { self.old.room ≤ self.new.room + 1 }
        ensures err { OnErr result (self.new ≡ self.old) }
        ensures full { OnErr result (self.old.room ≡ 0) }
        ensures back { IfErr result (λ same. same ≡ row) }
        ensures order { IsRising R.id_of self.new.rows }
    {
        let Err(row) = self.table.insert(row) else {
            return Ok(());
        };
        if self.spare.is_full() {
            return Err(row);
        }
        self.spare.insert(row);
        Ok(())
    }

    /// The row takes the place of the one with its id, which is given; or it is handed back for want of memory.
    pub fn replace(&mut self, row: R) -> Result<R, R>
        requires { IsTrue (has_row R.id_of (R.id_of row) self.old.rows) }
        ensures ok { OnOk result (self.new.rows ≡ put_row R.id_of row self.old.rows) }
        ensures old { IfOk result (λ old. row_at R.id_of (R.id_of row) self.old.rows ≡ Some old) }
        ensures room { self.old.room ≤ self.new.room + 1 }
        ensures err { OnErr result (self.new ≡ self.old) }
        ensures full { OnErr result (self.old.room ≡ 0) }
        ensures back { IfErr result (λ same. same ≡ row) }
        ensures order { IsRising R.id_of self.new.rows }
    {
        let mut row = row;
        if self.spare.exchange(&mut row) {
            return Ok(row);
        }
        let Err(NoMemory) = self.table.exchange(&mut row) else {
            return Ok(row);
        };
        if self.spare.is_full() {
            return Err(row);
        }
        move_row(&mut self.table, &mut self.spare, &mut row);
        Ok(row)
    }

    /// Takes the row with this id out, if it is there. It takes no memory.
    pub fn remove(&mut self, id: Id) -> Option<R>
        ensures value { result ≡ row_at R.id_of id self.old.rows }
        ensures rows { self.new.rows ≡ drop_row R.id_of id self.old.rows }
        ensures room { self.old.room ≤ self.new.room }
        ensures order { IsRising R.id_of self.new.rows }
    {
        match self.spare.remove(id) {
            Some(row) => Some(row),
            None => self.table.remove(id),
        }
    }

    /// The row with this id.
    pub fn get(&self, id: Id) -> Option<&R>
        ensures value { option_copied result ≡ row_at R.id_of id self.now.rows }
        ensures order { IsRising R.id_of self.now.rows }
    {
        match self.spare.get(id) {
            Some(row) => Some(row),
            None => self.table.get(id),
        }
    }

    /// The row with the least id above this one.
    pub fn next(&self, after: Id) -> Option<&R>
        ensures value { option_copied result ≡ row_above R.id_of after self.now.rows }
        ensures order { IsRising R.id_of self.now.rows }
    {
        lesser(self.spare.next(after), self.table.next(after))
    }

    /// Of the rows whose key of the number `which` is this one, that with the least id above `after`.
    pub fn next_by_key(&self, which: u32, key: &IndexKey<'_>, after: Id) -> Option<&R>
        requires { which < R.KEYS }
        ensures value { option_copied result
            ≡ row_above R.id_of after (filter (has_key R.key_of which (value_of key.now)) self.now.rows) }
        ensures order { IsRising R.id_of self.now.rows }
    {
        lesser(
            self.spare.next_by_key(which, key, after),
            self.table.next_by_key(which, key, after),
        )
    }

    /// Ids by rising number: those of all rows whose key of the number `which` is this one, and maybe others. So a walk
    /// over these rows looks the key up once, and passes each row whose key is another. None where no one list has the
    /// ids, since memory was wanting for a row.
    pub fn ids_by_key(&self, which: u32, key: &IndexKey<'_>) -> Option<&[Id]>
        requires { which < R.KEYS }
        ensures value { IfSome result (λ ids.
            let has = has_key R.key_of which (value_of key.now) in
            filter has (rows_named R.id_of ids.now self.now.rows) ≡ filter has self.now.rows) }
        ensures rising { IfSome result (λ ids. IsRising itself ids.now) }
        ensures order { IsRising R.id_of self.now.rows }
    {
        if self.spare.is_empty() {
            Some(self.table.ids_by_key(which, key))
        } else {
            None
        }
    }
}

// The row goes to the spare rows, and the one with its id out of the table is given.
fn move_row<R: Row + Drop>(table: &mut Table<R>, spare: &mut Spare<R>, row: &mut R)
    requires there { IsTrue (has_row R.id_of (R.id_of row.old) table.old) }
    requires new_id { row_at R.id_of (R.id_of row.old) spare.old.rows ≡ None }
    requires fits { 0 < spare.old.room }
    ensures table { table.new ≡ drop_row R.id_of (R.id_of row.old) table.old }
    ensures spare { spare.new.rows ≡ with_row R.id_of row.old spare.old.rows }
    ensures room { spare.old.room ≤ spare.new.room + 1 }
    ensures old { row_at R.id_of (R.id_of row.old) table.old ≡ Some row.new }
    ensures order { IsRising R.id_of table.new }
{
    let Some(old) = table.remove(row.id()) else {
        unreachable!();
    };
    spare.insert(mem::replace(row, old));
}

// The one with the lesser id.
fn lesser<'a, R: Row>(one: Option<&'a R>, other: Option<&'a R>) -> Option<&'a R>
    ensures { option_copied result ≡ lesser R.id_of (option_copied one.entry) (option_copied other.entry) }
{
    match (one, other) {
        (Some(first), Some(second)) if second.id() < first.id() => Some(second),
        (Some(first), _) => Some(first),
        (None, second) => second,
    }
}
