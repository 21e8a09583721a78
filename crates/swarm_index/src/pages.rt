// A page of 64 places for rows, each in a box: what moves within a page is small, whatever a row's size.
ghost use Rattle.std.specs.Prelude.{◌≡◌, ◌<◌, IfOk, IsTrue, None, OnErr, OnOk, Some, is_some, length, replicate, slice_set};
ghost use Rattle.std.specs.Option.{option_copied, option_map};
ghost use Rattle.swarm_index.specs.Inside.Boxes.{first_from, first_in, row_in};
ghost use Rattle.swarm_index.specs.Inside.Marks.{ExchangesMarks, HasNone, KeepsMarks, fresh_digests, is_mark};

use crate::Row;
use crate::marks::{Marks, exchange_marks};
use std::alloc::Global;
use std::marker::Model;
use std::mem;
use swarm_objects::NoMemory;

pub const PLACES: u64 = 64;

#[derive(Drop)]
pub struct Page<R: Drop> {
    places: Vec<Option<Box<R>>>,
}

impl<R: Drop> Model for Page<R> {
    ghost use Rattle.std.specs.Prelude.{List as Seq, Option};
    ghost use Rattle.swarm_index.specs.Inside.Boxes.{unboxed};

    ghost Value = { Seq (Option R) };

    ghost view = { λ p. unboxed p.places.items };
}

impl<R: Drop> Page<R> {
    // A page without rows.
    pub fn new(alloc: Global) -> Result<Page<R>, NoMemory>
        ensures { IfOk result (λ page. page ≡ replicate 64 None) }
    {
        let Ok(mut places) = Vec::with_capacity(alloc, PLACES as usize) else {
            return Err(NoMemory);
        };
        for place in 0..PLACES {
            if places.push(None).is_err() {
                return Err(NoMemory);
            }
        }
        Ok(Page { places })
    }

    // The row at a place.
    pub fn get(&self, at: usize) -> Option<&R>
        requires { at < length self.now }
        ensures { option_copied result ≡ row_in self.now at }
    {
        match &self.places[at] {
            Some(row) => Some(&**row),
            None => None,
        }
    }

    // The row at the first place from this one on that has one.
    #[tactic(auto, using(crate::proofs::InPage::first_steps))]
    pub fn first(&self, from: usize) -> Option<&R>
        ensures { option_copied result ≡ first_from from self.now }
    {
        let mut at = from;
        while at < self.places.len() {
            if let Some(row) = &self.places[at] {
                return Some(&**row);
            }
            at += 1;
        }
        None
    }

    // Whether it has a row.
    pub fn has_row(&self) -> bool
        ensures { result ≡ is_some (first_in self.now) }
    {
        match self.first(0) {
            Some(_) => true,
            None => false,
        }
    }

    // Puts the row at a place.
    pub fn put(&mut self, at: usize, row: Box<R>)
        requires { at < length self.old }
        ensures { self.new ≡ slice_set self.old at (Some row.value) }
    {
        self.places[at] = Some(row);
    }

    // Takes the row out of a place.
    pub fn take(&mut self, at: usize) -> Option<Box<R>>
        requires { at < length self.old }
        ensures row { option_map (λ row. row.value) result ≡ row_in self.old at }
        ensures page { self.new ≡ slice_set self.old at None }
    {
        mem::replace(&mut self.places[at], None)
    }
}

impl<R: Row + Drop> Page<R> {
    // The row is exchanged with the one at this place, and so are their marks; or all stays as it is for want of
    // memory.
    pub fn exchange(&mut self, at: usize, marks: &mut Marks, row: &mut R) -> Result<(), NoMemory>
        requires within { at < length self.old }
        requires there { IsTrue (is_some (row_in self.old at)) }
        requires fresh { HasNone marks.old.map (
            is_mark (fresh_digests R.key_of row.old (row_in self.old at)) R.KEYS (R.id_of row.old)
            ) }
        ensures rows { OnOk result (self.new ≡ slice_set self.old at (Some row.old)) }
        ensures old { OnOk result (row_in self.old at ≡ Some row.new) }
        ensures marks { OnOk result (
            ExchangesMarks marks.old.map marks.new.map
            (is_mark (fresh_digests R.key_of row.old (Some row.new)) R.KEYS (R.id_of row.old))
            (is_mark (fresh_digests R.key_of row.new (Some row.old)) R.KEYS (R.id_of row.new))
            ) }
        ensures err { OnErr result (self.new ≡ self.old) }
        ensures back { OnErr result (row.new ≡ row.old) }
        ensures kept { OnErr result (KeepsMarks marks.old.map marks.new.map) }
    {
        let Some(mut place) = self.take(at) else {
            unreachable!()
        };
        match exchange_marks(marks, row, &*place) {
            Ok(()) => {
                mem::swap(&mut *place, row);
                self.put(at, place);
                Ok(())
            }
            Err(_) => {
                self.put(at, place);
                Err(NoMemory)
            }
        }
    }
}
