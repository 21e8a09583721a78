// A map from ids to rows, by pages of 64 places. Ids are given out in order, so the directory of pages is a vector by
// their numbers: a look-up reads a place there and one on the page.
ghost use Rattle.std.specs.Prelude.{◌≡◌, ◌≤◌, ◌/◌, ◌%◌, IfErr, IfNone, IsTrue, None, OnErr, OnOk, Some, [], drop, is_some, length, slice_index_or};
ghost use Rattle.std.specs.BTreeMap.{insert_entry, is_at};
ghost use Rattle.std.specs.BTreeMap.Range.{entries_between};
ghost use Rattle.std.specs.Map.{lookup, remove_entry, set_value};
ghost use Rattle.std.specs.Option.{option_copied, option_map};
ghost use Rattle.std.specs.Ordering.{nat_cmp};
ghost use Rattle.std.specs.declared.ops.Bound.TheVariants.{Excluded, Unbounded};
ghost use Rattle.swarm_index.specs.Inside.Boxes.{ArePages, all_places, first_from, first_in, page_in, row_of, unpaged};
ghost use Rattle.swarm_index.specs.Inside.Marks.{ExchangesMarks, HasNone, KeepsMarks, fresh_digests, is_mark};
ghost use Rattle.swarm_objects.specs.Rows.{first_of};

use crate::Row;
use crate::marks::Marks;
use crate::pages::{PLACES, Page};
use std::alloc::Global;
use std::marker::Model;
use swarm_objects::{Id, NoMemory};

#[derive(Drop)]
pub struct Boxes<R: Drop> {
    // the pages by their ids' quotients; one without rows is None, and takes no memory of its own
    pages: Vec<Option<Page<R>>>,
    alloc: Global,
}

impl<R: Drop> Model for Boxes<R> {
    ghost use Rattle.std.specs.Prelude.{ℕ, List as Seq};
    ghost use Rattle.swarm_index.specs.Inside.Boxes.{ArePages, unpaged};

    ghost Value = { Seq (ℕ × R) };

    ghost view = { λ b. unpaged b.pages.items };

    ghost invariant = { λ b. ArePages b.pages.items };
}

// The number of the page that has the place for this id.
fn page_of(id: Id) -> usize
    ensures { result ≡ id / 64 }
{
    (id / PLACES) as usize
}

// Its place there.
fn place_of(id: Id) -> usize
    ensures { result ≡ id % 64 }
{
    (id % PLACES) as usize
}

// The page with this number, where it is there.
fn page_at<R: Drop>(pages: &Vec<Option<Page<R>>>, key: usize) -> Option<&Page<R>>
    ensures { option_copied result ≡ slice_index_or pages.now.items key None }
{
    if key >= pages.len() {
        return None;
    }
    match &pages[key] {
        Some(page) => Some(page),
        None => None,
    }
}

// The row at the first place from this one on that has one, on the page with this number.
fn first_from<R: Drop>(pages: &Vec<Option<Page<R>>>, key: usize, at: usize) -> Option<&R>
    ensures { option_copied result ≡ first_from at (page_in pages.now.items key) }
{
    match page_at(pages, key) {
        Some(page) => page.first(at),
        None => None,
    }
}

// The first row of the pages from this number on.
fn first_past<R: Drop>(pages: &Vec<Option<Page<R>>>, from: usize) -> Option<&R>
    ensures { option_copied result ≡ first_in (all_places (drop from pages.now.items)) }
{
    for key in from..pages.len() {
        if let Some(row) = first_from(pages, key, 0) {
            return Some(row);
        }
    }
    None
}

// Makes the directory so long. All memory is taken before the first place, so a number beyond it fails at once.
fn lengthen<R: Drop>(pages: &mut Vec<Option<Page<R>>>, count: usize) -> Result<(), NoMemory>
    ensures ok { OnOk result (count ≤ length pages.new.items) }
    ensures rows { unpaged pages.new.items ≡ unpaged pages.old.items }
    ensures whole { ArePages pages.old.items → ArePages pages.new.items }
{
    let from = pages.len();
    if count <= from {
        return Ok(());
    }
    if pages.reserve(count - from).is_err() {
        return Err(NoMemory);
    }
    for key in from..count {
        if pages.push(None).is_err() {
            return Err(NoMemory);
        }
    }
    Ok(())
}

impl<R: Drop> Boxes<R> {
    // The map without rows. It takes no memory.
    pub fn new(alloc: Global) -> Boxes<R>
        ensures { result ≡ [] }
    {
        Boxes {
            pages: Vec::new(alloc),
            alloc,
        }
    }

    // The row with a new id comes, or is handed back for want of memory.
    pub fn insert(&mut self, id: Id, row: R) -> Result<(), R>
        ensures ok { OnOk result (self.new ≡ insert_entry nat_cmp self.old id row) }
        ensures err { OnErr result (self.new ≡ self.old) }
        ensures back { IfErr result (λ same. same ≡ row) }
    {
        let row = match Box::new(self.alloc, row) {
            Ok(row) => row,
            Err(refused) => return Err(refused.value),
        };
        match self.put(id, row) {
            Ok(()) => Ok(()),
            Err(row) => Err(Box::into_inner(row)),
        }
    }

    // The same for a row in its box.
    fn put(&mut self, id: Id, row: Box<R>) -> Result<(), Box<R>>
        ensures ok { OnOk result (self.new ≡ insert_entry nat_cmp self.old id row.value) }
        ensures err { OnErr result (self.new ≡ self.old) }
        ensures back { IfErr result (λ same. same.value ≡ row.value) }
    {
        let key = page_of(id);
        let at = place_of(id);
        let Ok(()) = lengthen(&mut self.pages, key + 1) else {
            return Err(row);
        };
        if let Some(page) = &mut self.pages[key] {
            page.put(at, row);
            return Ok(());
        }
        let Ok(mut page) = Page::new(self.alloc) else {
            return Err(row);
        };
        page.put(at, row);
        self.pages[key] = Some(page);
        Ok(())
    }

    // The row with this id goes, if it is there.
    pub fn remove(&mut self, id: Id) -> Option<R>
        ensures value { result ≡ lookup (is_at (nat_cmp id)) self.old }
        ensures rows { self.new ≡ remove_entry (is_at (nat_cmp id)) self.old }
        ensures same { IfNone result (self.new ≡ self.old) }
    {
        let key = page_of(id);
        let at = place_of(id);
        if key >= self.pages.len() {
            return None;
        }
        let Some(page) = &mut self.pages[key] else {
            return None;
        };
        let Some(row) = page.take(at) else {
            return None;
        };
        if page.has_row() {
            return Some(Box::into_inner(row));
        }
        self.pages[key] = None;
        Some(Box::into_inner(row))
    }

    // The row with this id.
    pub fn get(&self, id: Id) -> Option<&R>
        ensures { option_copied result ≡ lookup (is_at (nat_cmp id)) self.now }
    {
        let key = page_of(id);
        let at = place_of(id);
        match page_at(&self.pages, key) {
            Some(page) => page.get(at),
            None => None,
        }
    }

    // The row with the least id above this one.
    pub fn next(&self, after: Id) -> Option<&R>
        ensures { option_copied result
            ≡ option_map row_of (first_of (entries_between nat_cmp (Excluded after) Unbounded self.now)) }
    {
        let key = page_of(after);
        let at = place_of(after);
        match first_from(&self.pages, key, at + 1) {
            Some(row) => Some(row),
            None => first_past(&self.pages, key + 1),
        }
    }
}

impl<R: Row + Drop> Boxes<R> {
    // The row is exchanged with the one that has its id, and so are their marks; or all stays as it is for want of
    // memory. The row is looked for once.
    pub fn exchange(&mut self, marks: &mut Marks, row: &mut R) -> Result<(), NoMemory>
        requires there { IsTrue (is_some (lookup (is_at (nat_cmp (R.id_of row.old))) self.old)) }
        requires fresh { HasNone marks.old.map (
            is_mark
            (fresh_digests R.key_of row.old (lookup (is_at (nat_cmp (R.id_of row.old))) self.old))
            R.KEYS (R.id_of row.old)
            ) }
        ensures rows { OnOk result (self.new ≡ set_value (is_at (nat_cmp (R.id_of row.old))) self.old row.old) }
        ensures old { OnOk result (lookup (is_at (nat_cmp (R.id_of row.old))) self.old ≡ Some row.new) }
        ensures marks { OnOk result (
            ExchangesMarks marks.old.map marks.new.map
            (is_mark (fresh_digests R.key_of row.old (Some row.new)) R.KEYS (R.id_of row.old))
            (is_mark (fresh_digests R.key_of row.new (Some row.old)) R.KEYS (R.id_of row.new))
            ) }
        ensures err { OnErr result (self.new ≡ self.old) }
        ensures back { OnErr result (row.new ≡ row.old) }
        ensures kept { OnErr result (KeepsMarks marks.old.map marks.new.map) }
    {
        let id = row.id();
        let key = page_of(id);
        let at = place_of(id);
        if key >= self.pages.len() {
            unreachable!()
        }
        match &mut self.pages[key] {
            Some(page) => {
                let Ok(()) = page.exchange(at, marks, row) else {
                    return Err(NoMemory);
                };
                Ok(())
            }
            None => unreachable!(),
        }
    }
}
