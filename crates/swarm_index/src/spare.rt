// Rows by rising id in a vector, for those that a table refused.
ghost use Rattle.std.specs.Prelude.{
  ◌≡◌,
  ◌↔◌,
  ◌<◌,
  ◌≤◌,
  ◌+◌,
  ◌==◌,
  ◌&&◌,
  IfNone,
  IsTrue,
  None,
  OnErr,
  OnOk,
  OnSome,
  Some,
  [],
  filter,
  nat_lt,
  slice_get,
};
ghost use Rattle.std.specs.Bool.{OnFalse, OnTrue};
ghost use Rattle.std.specs.Option.{option_copied};
ghost use Rattle.swarm_index.specs.Keys.{has_key, value_of};
ghost use Rattle.swarm_objects.specs.Rows.{IsRising, drop_row, is_some_and, put_row, row_above, row_at};
ghost use Rattle.swarm_objects.specs.Rows.{rows_before, with_row};

use crate::table::has_key;
use crate::{IndexKey, Row};
use std::alloc::Global;
use std::marker::Model;
use std::mem;
use swarm_objects::{Id, NoMemory};

#[derive(Drop)]
pub struct Spare<R: Row + Drop> {
    rows: Vec<R>,
}

impl<R: Row + Drop> Model for Spare<R> {
    ghost use Rattle.std.specs.Prelude.{◌-◌};
    ghost use Rattle.std.specs.Vec.{vec_capacity, vec_len};
    ghost use Rattle.swarm_index.specs.Index.{RowsWithRoom};
    ghost use Rattle.swarm_objects.specs.Rows.{IsRising};

    ghost Value = { RowsWithRoom R };

    ghost view = { λ s. record { rows = s.rows.items; room = vec_capacity s.rows - vec_len s.rows } };

    ghost invariant = { λ s. IsRising R.id_of s.rows.items };
}

impl<R: Row + Drop> Spare<R> {
    // No rows. It takes no memory.
    pub fn new(alloc: Global) -> Spare<R>
        ensures { result.rows ≡ [] }
    {
        Spare {
            rows: Vec::new(alloc),
        }
    }

    // How many rows more take no memory.
    pub fn room(&self) -> u64
        ensures { result ≡ self.now.room }
    {
        (self.rows.capacity() - self.rows.len()) as u64
    }

    // Whether the next row takes memory.
    pub fn is_full(&self) -> bool
        ensures { result ≡ (self.now.room == 0) }
    {
        self.rows.capacity() == self.rows.len()
    }

    // Whether there are no rows.
    pub fn is_empty(&self) -> bool
        ensures { IsTrue result ↔ (self.now.rows ≡ []) }
    {
        self.rows.is_empty()
    }

    // Makes the room at least `n`, or leaves all as it is for want of memory.
    pub fn reserve(&mut self, n: u64) -> Result<(), NoMemory>
        ensures ok { OnOk result (n ≤ self.new.room) }
        ensures rows { self.new.rows ≡ self.old.rows }
        ensures room { self.old.room ≤ self.new.room }
        ensures err { OnErr result (self.new ≡ self.old) }
        ensures full { OnErr result (self.old.room < n) }
    {
        match self.rows.reserve(n as usize) {
            Ok(()) => Ok(()),
            Err(_) => Err(NoMemory),
        }
    }

    // Puts a row with a new id among the others, where there is room.
    pub fn insert(&mut self, row: R)
        requires new_id { row_at R.id_of (R.id_of row) self.old.rows ≡ None }
        requires fits { 0 < self.old.room }
        ensures rows { self.new.rows ≡ with_row R.id_of row self.old.rows }
        ensures room { self.old.room ≤ self.new.room + 1 }
    {
        let at = lesser_ids(self.rows.as_slice(), row.id());
        let Ok(()) = self.rows.insert(at, row) else {
            unreachable!();
        };
    }

    // Takes the row with this id out, if it is there.
    pub fn remove(&mut self, id: Id) -> Option<R>
        ensures value { result ≡ row_at R.id_of id self.old.rows }
        ensures rows { self.new.rows ≡ drop_row R.id_of id self.old.rows }
        ensures room { self.old.room ≤ self.new.room }
        ensures more { OnSome result (self.new.room ≡ self.old.room + 1) }
        ensures same { IfNone result (self.new ≡ self.old) }
        ensures order { IsRising R.id_of self.old.rows }
    {
        let at = lesser_ids(self.rows.as_slice(), id);
        if has_id_at(self.rows.as_slice(), at, id) {
            Some(self.rows.remove(at))
        } else {
            None
        }
    }

    // The row is exchanged with the one that has its id, if that is there.
    pub fn exchange(&mut self, row: &mut R) -> bool
        ensures rows { OnTrue result (self.new.rows ≡ put_row R.id_of row.old self.old.rows) }
        ensures old { OnTrue result (row_at R.id_of (R.id_of row.old) self.old.rows ≡ Some row.new) }
        ensures room { self.old.room ≤ self.new.room + 1 }
        ensures none { OnFalse result (row_at R.id_of (R.id_of row.old) self.old.rows ≡ None) }
        ensures same { OnFalse result (self.new ≡ self.old) }
        ensures back { OnFalse result (row.new ≡ row.old) }
    {
        !self.rows.is_empty() && self.exchange_kept(row)
    }

    // The same, where there are rows: what copies them stands apart, since an index mostly has none here.
    fn exchange_kept(&mut self, row: &mut R) -> bool
        ensures rows { OnTrue result (self.new.rows ≡ put_row R.id_of row.old self.old.rows) }
        ensures old { OnTrue result (row_at R.id_of (R.id_of row.old) self.old.rows ≡ Some row.new) }
        ensures room { self.old.room ≤ self.new.room + 1 }
        ensures none { OnFalse result (row_at R.id_of (R.id_of row.old) self.old.rows ≡ None) }
        ensures same { OnFalse result (self.new ≡ self.old) }
        ensures back { OnFalse result (row.new ≡ row.old) }
    {
        let Some(old) = self.remove(row.id()) else {
            return false;
        };
        self.insert(mem::replace(row, old));
        true
    }

    // The row with this id.
    pub fn get(&self, id: Id) -> Option<&R>
        ensures value { option_copied result ≡ row_at R.id_of id self.now.rows }
        ensures order { IsRising R.id_of self.now.rows }
    {
        self.rows.iter().find(|row| row.id() == id)
    }

    // The row with the least id above this one.
    pub fn next(&self, after: Id) -> Option<&R>
        ensures value { option_copied result ≡ row_above R.id_of after self.now.rows }
        ensures order { IsRising R.id_of self.now.rows }
    {
        self.rows.iter().find(|row| after < row.id())
    }

    // Of the rows whose key of the number `which` is this one, that with the least id above `after`.
    pub fn next_by_key(&self, which: u32, key: &IndexKey<'_>, after: Id) -> Option<&R>
        requires { which < R.KEYS }
        ensures value { option_copied result
            ≡ row_above R.id_of after (filter (has_key R.key_of which (value_of key.now)) self.now.rows) }
        ensures order { IsRising R.id_of self.now.rows }
    {
        for row in &self.rows {
            if is_beyond(row, which, key, after) {
                return Some(row);
            }
        }
        None
    }
}

// Whether the row's id is above `after`, and its key of the number `which` is this one.
fn is_beyond<R: Row>(row: &R, which: u32, key: &IndexKey<'_>, after: Id) -> bool
    requires { which < R.KEYS }
    ensures { result ≡ (nat_lt after (R.id_of row.now) && has_key R.key_of which (value_of key.now) row.now) }
{
    after < row.id() && has_key(row, which, key)
}

// How many rows stand before the first whose id isn't less.
fn lesser_ids<R: Row>(rows: &[R], id: Id) -> usize
    ensures { result ≡ rows_before R.id_of id rows.now }
{
    let mut count = 0;
    for row in rows {
        if id <= row.id() {
            return count;
        }
        count += 1;
    }
    count
}

// Whether the row at the index has the id.
fn has_id_at<R: Row>(rows: &[R], at: usize, id: Id) -> bool
    ensures { result ≡ is_some_and (λ row. R.id_of row == id) (slice_get rows.now at) }
{
    match rows.get(at) {
        Some(row) => row.id() == id,
        None => false,
    }
}
