// A set of places, from 0 up to a size, as a tree of words: it is as deep as the size has halvings, and takes memory
// for the parts alone in which a place was taken.
ghost use Rattle.std.specs.Prelude.{◌≡◌, ◌==◌, ◌||◌, ◌&&◌, ◌<◌, ◌≤◌, ◌-◌, ℕ, not, false, true, is_ok, IfOk};
ghost use Rattle.swarm_pools.specs.Places.{is_full, is_taken, IsShaped};

use crate::words::{low_ones, with_bit, without_bit};
use std::alloc::Global;
use swarm_objects::NoMemory;

// The places of a word.
const WORD: u64 = 64;

#[derive(Drop)]
pub enum Places {
    // None is taken.
    Clear,
    // Those whose bits are set.
    Word(u64),
    // The first so many, and those behind them.
    Fork {
        half: u64,
        full: bool,
        low: Box<Places>,
        high: Box<Places>,
    },
}

fn boxed(alloc: Global, places: Places) -> Result<Box<Places>, NoMemory>
    ensures { IfOk result (λ held. held.value ≡ places) }
{
    match Box::new(alloc, places) {
        Ok(held) => Ok(held),
        Err(_) => Err(NoMemory),
    }
}

// A set with this place alone.
fn alone(alloc: Global, size: u64, place: u64) -> Result<Places, NoMemory>
    requires { place < size }
    ensures shape { IfOk result (λ places. IsShaped size places) }
    ensures taken { IfOk result (λ places. (other : ℕ) → other < size → is_taken places other ≡ (other == place)) }
{
    if size <= WORD {
        return Ok(Places::Word(with_bit(0, place)));
    }
    let half = size / 2;
    let (low, high) = if place < half {
        (alone(alloc, half, place)?, Places::Clear)
    } else {
        (Places::Clear, alone(alloc, size - half, place - half)?)
    };
    Ok(Places::Fork {
        half,
        full: false,
        low: boxed(alloc, low)?,
        high: boxed(alloc, high)?,
    })
}

// Each place of both halves is taken.
fn are_full(size: u64, half: u64, low: &Places, high: &Places) -> bool
    requires { half ≤ size }
    ensures { result ≡ (is_full half low.now && is_full (size - half) high.now) }
{
    low.is_full(half) && high.is_full(size - half)
}

impl Places {
    // Each of so many places is taken.
    pub fn is_full(&self, size: u64) -> bool
        ensures { result ≡ is_full size self.now }
    {
        match self {
            Places::Clear => false,
            Places::Word(word) => low_ones(*word) >= size,
            Places::Fork { full, .. } => *full,
        }
    }

    // The least place that is free.
    pub fn least_free(&self, size: u64) -> u64
        requires shape { IsShaped size self.now }
        requires some { is_full size self.now ≡ false }
        requires size { 0 < size }
        ensures within { result < size }
        ensures free { is_taken self.now result ≡ false }
        ensures least { (place : ℕ) → place < result → is_taken self.now place ≡ true }
    {
        match self {
            Places::Clear => 0,
            Places::Word(word) => low_ones(*word),
            Places::Fork {
                half,
                low,
                high,
                ..
            } => {
                if low.is_full(*half) {
                    *half + high.least_free(size - *half)
                } else {
                    low.least_free(*half)
                }
            }
        }
    }

    // Takes the place.
    pub fn take(&mut self, alloc: Global, size: u64, place: u64) -> Result<(), NoMemory>
        requires shape { IsShaped size self.old }
        requires within { place < size }
        ensures shape { IsShaped size self.new }
        ensures taken { (other : ℕ) → other < size →
            is_taken self.new other ≡ ((is_ok result && other == place) || is_taken self.old other) }
    {
        match self {
            Places::Clear => {
                *self = alone(alloc, size, place)?;
                Ok(())
            }
            Places::Word(word) => {
                *word = with_bit(*word, place);
                Ok(())
            }
            Places::Fork {
                half,
                full,
                low,
                high,
            } => {
                let done = if place < *half {
                    low.take(alloc, *half, place)
                } else {
                    high.take(alloc, size - *half, place - *half)
                };
                *full = are_full(size, *half, low, high);
                done
            }
        }
    }

    // Gives the place back.
    pub fn give(&mut self, size: u64, place: u64)
        requires shape { IsShaped size self.old }
        requires within { place < size }
        ensures shape { IsShaped size self.new }
        ensures free { (other : ℕ) → other < size →
            is_taken self.new other ≡ (not (other == place) && is_taken self.old other) }
    {
        match self {
            Places::Clear => {}
            Places::Word(word) => *word = without_bit(*word, place),
            Places::Fork {
                half,
                full,
                low,
                high,
            } => {
                if place < *half {
                    low.give(*half, place);
                } else {
                    high.give(size - *half, place - *half);
                }
                *full = are_full(size, *half, low, high);
            }
        }
    }
}
