// Which places of a service are stale, by the bits of words.
ghost use Rattle.std.specs.Prelude.{◌/◌, ◌<◌, ◌==◌, ◌||◌, ◌≡◌, IsTrue, false, ℕ};
ghost use Rattle.swarm_update.specs.StalePlaces.{is_stale};

use crate::marks::WIDTH;

/// How many numbers a word has.
pub const WORD: u64 = 64;

/// How many words there are.
pub const WORDS: u64 = WIDTH as u64 / WORD;

/// The numbers of the places whose tasks changed. Those from the width on are none of them.
#[derive(Clone, Copy, Drop)]
pub struct StalePlaces {
    words: [u64; WORDS as usize],
}

impl StalePlaces {
    /// No place is stale.
    pub fn none() -> StalePlaces
        ensures { (number : ℕ) → is_stale result number ≡ false }
    {
        StalePlaces {
            words: [0; WORDS as usize],
        }
    }

    /// The place with this number is stale.
    pub fn has(&self, number: u64) -> bool
        requires { number < WIDTH }
        ensures { result ≡ is_stale self.now number }
    {
        self.words[(number / WORD) as usize] >> (number % WORD) & 1 == 1
    }

    /// The place with this number is stale, too.
    pub fn add(&mut self, number: u64)
        requires { number < WIDTH }
        ensures { (other : ℕ) → is_stale self.new other ≡ (other == number || is_stale self.old other) }
    {
        self.words[(number / WORD) as usize] |= 1 << (number % WORD);
    }

    /// No place with a number of this word is stale. So they aren't asked one by one.
    pub fn has_none(&self, word: u64) -> bool
        requires { word < WORDS }
        ensures { IsTrue result → (number : ℕ) → number / WORD ≡ word → is_stale self.now number ≡ false }
    {
        self.words[word as usize] == 0
    }
}
