// The marks by which rows are found by their keys: for each key of each row its number, its digest and the row's id. A
// digest is a number, so that a look-up makes no copy of a name; rows of different keys may have one digest.
ghost use Rattle.std.specs.Prelude.{◌≡◌, ◌<◌, ◌≤◌, ◌==◌, ℕ, OnErr, OnOk, Some, false};
ghost use Rattle.std.specs.Bool.{OnTrue};
ghost use Rattle.std.specs.Option.{option_copied, option_eq};
ghost use Rattle.swarm_index.specs.Inside.Ids.{has_id};
ghost use Rattle.swarm_index.specs.Inside.Marks.{
  AddsMarks,
  DropsMarks,
  ExchangesMarks,
  HasNone,
  IsNextMark,
  KeepsMarks,
  digest,
  digest_at,
  digest_in,
  fresh_digests,
  has_mark,
  is_mark,
  is_mark_at,
  same_mark,
};
ghost use Rattle.swarm_index.specs.Keys.{value_of};
ghost use Rattle.swarm_objects.specs.Rows.{IsRising, itself};
ghost use Rattle.swarm_objects.specs.Same.{same_number};

use crate::ids::Ids;
use crate::{IndexKey, Row};
use std::alloc::Global;
use std::collections::HashMap;
use swarm_objects::{Id, NoMemory};

#[derive(Drop)]
pub struct Marks {
    // the ids of the rows with a digest of the key of a number
    map: HashMap<(u32, u64), Ids>,
    alloc: Global,
}

impl Marks {
    // No marks. It takes no memory.
    pub fn new(alloc: Global) -> Marks
        ensures { (w d i : ℕ) → has_mark result.map w d i ≡ false }
    {
        Marks {
            map: HashMap::new(alloc),
            alloc,
        }
    }

    // One mark more, unless memory is wanting.
    pub fn add(&mut self, which: u32, digest: u64, id: Id) -> Result<(), NoMemory>
        ensures ok { OnOk result (AddsMarks self.old.map self.new.map (same_mark which digest id)) }
        ensures err { OnErr result (KeepsMarks self.old.map self.new.map) }
    {
        let key = (which, digest);
        if let Some(ids) = self.map.get_mut(&key) {
            return ids.add(id);
        }
        let Ok(ids) = Ids::with(self.alloc, id) else {
            return Err(NoMemory);
        };
        match self.map.insert(key, ids) {
            Ok(_) => Ok(()),
            Err(_) => Err(NoMemory),
        }
    }

    // One mark less.
    pub fn remove(&mut self, which: u32, digest: u64, id: Id)
        ensures { DropsMarks self.old.map self.new.map (same_mark which digest id) }
    {
        let key = (which, digest);
        let Some(ids) = self.map.get_mut(&key) else {
            return;
        };
        ids.remove(id);
        if ids.is_empty() {
            self.map.remove(&key);
        }
    }

    // All ids with this mark, by rising number.
    pub fn ids(&self, which: u32, digest: u64) -> &[Id]
        ensures marked { (i : ℕ) → has_id result.now i ≡ has_mark self.now.map which digest i }
        ensures order { IsRising itself result.now }
    {
        match self.map.get(&(which, digest)) {
            Some(ids) => ids.as_slice(),
            None => &[],
        }
    }

    // The least id above the number with this mark.
    pub fn next(&self, which: u32, digest: u64, after: Id) -> Option<Id>
        ensures { IsNextMark self.now.map which digest after result }
    {
        match self.map.get(&(which, digest)) {
            Some(ids) => ids.next(after),
            None => None,
        }
    }
}

// Whether both keys have one digest. Equal keys have, so the digest of a name that stays isn't worked out.
fn has_one_digest(key: &IndexKey<'_>, other: &IndexKey<'_>) -> bool
    ensures { result ≡ (digest (value_of key.now) == digest (value_of other.now)) }
{
    key.same(other) || key.digest() == other.digest()
}

// Whether the row is there and its key of this number has the digest of the other key.
fn has_digest_of<'a, R: Row>(row: Option<&'a R>, which: u32, other: &IndexKey<'_>) -> bool
    requires { which < R.KEYS }
    ensures { result
        ≡ option_eq same_number (digest_in R.key_of which (option_copied row.entry))
        (Some (digest (value_of other.now))) }
{
    match row {
        Some(row) => match row.key(which) {
            Some(key) => has_one_digest(&key, other),
            None => false,
        },
        None => false,
    }
}

// The digest of the row's key of this number, where the other row's isn't equal.
fn fresh_digest<'a, R: Row>(row: &'a R, other: Option<&'a R>, which: u32) -> Option<u64>
    requires { which < R.KEYS }
    ensures { result ≡ fresh_digests R.key_of row.now (option_copied other.entry) which }
{
    let key = row.key(which)?;
    if has_digest_of(other, which, &key) {
        return None;
    }
    Some(key.digest())
}

// The row's mark of one key comes, if the other one hasn't it.
fn add_mark<'a, R: Row>(
    marks: &mut Marks,
    row: &'a R,
    other: Option<&'a R>,
    which: u32,
) -> Result<(), NoMemory>
    requires { which < R.KEYS }
    ensures ok { OnOk result (
        AddsMarks marks.old.map marks.new.map (
        is_mark_at (fresh_digests R.key_of row.now (option_copied other.entry)) which (R.id_of row.now)
        )
        ) }
    ensures err { OnErr result (KeepsMarks marks.old.map marks.new.map) }
{
    match fresh_digest(row, other, which) {
        Some(digest) => marks.add(which, digest, row.id()),
        None => Ok(()),
    }
}

// The row's mark of one key goes, if the other one hasn't it.
fn remove_mark<'a, R: Row>(marks: &mut Marks, row: &'a R, other: Option<&'a R>, which: u32)
    requires { which < R.KEYS }
    ensures { DropsMarks marks.old.map marks.new.map (
        is_mark_at (fresh_digests R.key_of row.now (option_copied other.entry)) which (R.id_of row.now)
        ) }
{
    if let Some(digest) = fresh_digest(row, other, which) {
        marks.remove(which, digest, row.id());
    }
}

// The row's marks that the other one hasn't come, or all stays as it is for want of memory.
pub fn add_marks<'a, R: Row>(
    marks: &mut Marks,
    row: &'a R,
    other: Option<&'a R>,
) -> Result<(), NoMemory>
    requires { HasNone marks.old.map
        (is_mark (fresh_digests R.key_of row.now (option_copied other)) R.KEYS (R.id_of row.now)) }
    ensures ok { OnOk result (
        AddsMarks marks.old.map marks.new.map (
        is_mark (fresh_digests R.key_of row.now (option_copied other.entry)) R.KEYS (R.id_of row.now)
        )
        ) }
    ensures err { OnErr result (KeepsMarks marks.old.map marks.new.map) }
{
    for which in 0..R::KEYS {
        let Ok(()) = add_mark(marks, row, other, which) else {
            remove_marks(marks, row, other, which);
            return Err(NoMemory);
        };
    }
    Ok(())
}

// Of the row's first `count` keys the marks that the other one hasn't go.
pub fn remove_marks<'a, R: Row>(marks: &mut Marks, row: &'a R, other: Option<&'a R>, count: u32)
    requires { count ≤ R.KEYS }
    ensures { DropsMarks marks.old.map marks.new.map (
        is_mark (fresh_digests R.key_of row.now (option_copied other.entry)) count (R.id_of row.now)
        ) }
{
    for which in 0..count {
        remove_mark(marks, row, other, which);
    }
}

// Whether both rows have one digest of their keys of this number, or none.
fn keeps_digest<'a, R: Row>(row: &'a R, old: &'a R, which: u32) -> bool
    requires { which < R.KEYS }
    ensures { result ≡ option_eq same_number (digest_at R.key_of which row.now) (digest_at R.key_of which old.now) }
{
    match row.key(which) {
        Some(key) => has_digest_of(Some(old), which, &key),
        None => old.key(which).is_none(),
    }
}

// True only where all keys of both rows have the same digests.
fn keeps_digests<'a, R: Row>(row: &'a R, old: &'a R) -> bool
    ensures { OnTrue result ((which : ℕ) → which < R.KEYS →
        digest_at R.key_of which row.now ≡ digest_at R.key_of which old.now) }
{
    for which in 0..R::KEYS {
        if !keeps_digest(row, old, which) {
            return false;
        }
    }
    true
}

// The row's marks take the place of the old one's, or all stays as it is for want of memory.
pub fn exchange_marks<'a, R: Row>(marks: &mut Marks, row: &'a R, old: &'a R) -> Result<(), NoMemory>
    requires { HasNone marks.old.map
        (is_mark (fresh_digests R.key_of row.now (Some old.now)) R.KEYS (R.id_of row.now)) }
    ensures ok { OnOk result (
        ExchangesMarks marks.old.map marks.new.map
        (is_mark (fresh_digests R.key_of row.now (Some old.now)) R.KEYS (R.id_of row.now))
        (is_mark (fresh_digests R.key_of old.now (Some row.now)) R.KEYS (R.id_of old.now))
        ) }
    ensures err { OnErr result (KeepsMarks marks.old.map marks.new.map) }
{
    if keeps_digests(row, old) {
        return Ok(());
    }
    let Ok(()) = add_marks(marks, row, Some(old)) else {
        return Err(NoMemory);
    };
    remove_marks(marks, old, Some(row), R::KEYS);
    Ok(())
}
