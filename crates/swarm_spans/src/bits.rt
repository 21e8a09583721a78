// A bit for each of 1,024 rests.
ghost use Rattle.std.specs.Prelude.{◌≡◌, ◌≤◌, ◌<◌, ◌==◌, ℕ, false, true};
ghost use Rattle.swarm_spans.specs.Bits.{
  all_bits,
  has_bit,
  no_bits,
  with_bit,
  with_word,
  without_bit,
  word_of,
};

use swarm_objects::Id;

// The bits of a word.
const WORD: u64 = 64;

// The words.
pub const WORDS: usize = 16;

/// A number's bit is that of its rest by 1,024.
#[derive(Clone, Copy, Drop)]
pub struct Bits {
    words: [u64; WORDS],
}

// The number's word.
pub fn word_of(id: Id) -> usize
    ensures within { result < 16 }
    ensures word { result ≡ word_of id }
{
    (id / WORD) as usize % WORDS
}

impl Bits {
    /// How many rests there are.
    pub const COUNT: u64 = 1024;

    /// None is set.
    pub fn none() -> Bits
        ensures { result ≡ no_bits }
    {
        Bits { words: [0; WORDS] }
    }

    /// Each is set.
    pub fn all() -> Bits
        ensures { result ≡ all_bits }
    {
        Bits {
            words: [u64::MAX; WORDS],
        }
    }

    /// The number's bit is set.
    pub fn has(&self, id: Id) -> bool
        ensures { result ≡ has_bit self.now id }
    {
        self.words[word_of(id)] >> (id % WORD) & 1 == 1
    }

    /// Sets the number's bit.
    pub fn set(&mut self, id: Id)
        ensures { self.new ≡ with_bit self.old id }
    {
        self.words[word_of(id)] |= 1 << (id % WORD);
    }

    /// Clears the number's bit.
    pub fn clear(&mut self, id: Id)
        ensures { self.new ≡ without_bit self.old id }
    {
        self.words[word_of(id)] &= !(1 << (id % WORD));
    }

    /// Sets all bits of this word.
    pub fn set_word(&mut self, word: usize)
        requires { word < 16 }
        ensures { self.new ≡ with_word self.old word }
    {
        self.words[word] = u64::MAX;
    }

    /// Sets the bits that the other one has.
    pub fn join(&mut self, other: Bits)
        ensures former { (id : ℕ) → has_bit self.old id ≡ true → has_bit self.new id ≡ true }
        ensures more { (id : ℕ) → has_bit other id ≡ true → has_bit self.new id ≡ true }
    {
        for place in 0..WORDS {
            self.words[place] |= other.words[place];
        }
    }

    /// A number from this one on. None from this one up to it has its bit set, of which each word is asked once.
    pub fn from(&self, first: Id) -> Id
        ensures onwards { first ≤ result }
        ensures none { (id : ℕ) → first ≤ id → id < result → has_bit self.now id ≡ false }
    {
        let mut id = first;
        for _ in 0..=WORDS {
            let rest = self.words[word_of(id)] >> (id % WORD);
            if rest != 0 {
                return id.saturating_add(u64::from(rest.trailing_zeros()));
            }
            id = (id / WORD * WORD).saturating_add(WORD);
        }
        id
    }
}
