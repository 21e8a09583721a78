// Numbers from one to another, of which some are left out by their rests.
ghost use Rattle.std.specs.Prelude.{◌≡◌, ◌==◌, ◌≤◌, ◌<◌, ◌-◌, ◌^◌, ℕ, false, nat_le, true};
ghost use Rattle.swarm_spans.specs.Bits.{word_of};
ghost use Rattle.swarm_spans.specs.Spans.{all_of_word, beyond, empty, full, is_in, IsWider, onwards, with_id};

use crate::bits::Bits;
use swarm_objects::Id;

/// The numbers above one, up to another, whose bits are set. A world keeps one for each line of duties, and every row
/// with a duty of the line has its id in it. It may have more, since numbers share bits: one that was set for another
/// number, or not cleared while the span was wide. Such a number costs a try and nothing else.
#[derive(Clone, Copy, Drop)]
pub struct Span {
    pub after: Id,
    pub high: Id,
    pub bits: Bits,
}

impl Span {
    /// No number: no row has a duty.
    pub fn empty() -> Span
        ensures { result ≡ empty }
    {
        Span {
            after: u64::MAX,
            high: 0,
            bits: Bits::none(),
        }
    }

    /// Every number that a row can have: each row may have a duty.
    pub fn full() -> Span
        ensures { result ≡ full }
    {
        Span {
            after: 0,
            high: u64::MAX,
            bits: Bits::all(),
        }
    }

    /// Each number from this one on.
    pub fn onwards(id: Id) -> Span
        ensures { result ≡ onwards id }
    {
        Span {
            after: id.saturating_sub(1),
            high: u64::MAX,
            bits: Bits::all(),
        }
    }

    // Each number of this word of the bits.
    fn of_word(word: usize) -> Span
        requires { word < 16 }
        ensures { result ≡ all_of_word word }
    {
        let mut bits = Bits::none();
        bits.set_word(word);
        Span {
            after: 0,
            high: u64::MAX,
            bits,
        }
    }

    /// It goes on to the last number, as it does after `full`.
    pub fn is_endless(&self) -> bool
        ensures { result ≡ (self.now.high == 2 ^ 64 - 1) }
    {
        self.high == u64::MAX
    }

    /// It has none.
    pub fn is_over(&self) -> bool
        ensures { result ≡ nat_le self.now.high self.now.after }
    {
        self.high <= self.after
    }

    /// It has the number.
    pub fn has(&self, id: Id) -> bool
        ensures { result ≡ is_in self.now id }
    {
        self.after < id && id <= self.high && self.bits.has(id)
    }

    /// This one too.
    pub fn add(&mut self, id: Id)
        ensures { self.new ≡ with_id self.old id }
    {
        self.after = self.after.min(id.saturating_sub(1));
        self.high = self.high.max(id);
        self.bits.set(id);
    }

    /// Each number of this word of the bits too.
    pub fn add_word(&mut self, word: usize)
        requires { word < 16 }
        ensures wider { IsWider self.new self.old }
        ensures all { (id : ℕ) → word_of id ≡ word → 0 < id → id < 2 ^ 64 → is_in self.new id ≡ true }
    {
        self.join(Span::of_word(word));
    }

    /// What lies above. The number's bit is cleared where no number above has the same.
    pub fn pass(&mut self, id: Id)
        ensures { self.new ≡ beyond self.old id }
    {
        if self.high.saturating_sub(id) < Bits::COUNT {
            self.bits.clear(id);
        }
        self.after = id;
    }

    /// What the other one has too.
    #[tactic(auto, using(crate::proofs::Grown::join_steps))]
    pub fn join(&mut self, other: Span)
        ensures wider { IsWider self.new self.old }
        ensures all { IsWider self.new other }
    {
        self.after = self.after.min(other.after);
        self.high = self.high.max(other.high);
        self.bits.join(other.bits);
    }

    /// The last number, from this one on, up to which it has none above this one.
    pub fn skip(&self, after: Id) -> Id
        requires { after < self.now.high }
        ensures onwards { after ≤ result }
        ensures none { (id : ℕ) → after < id → id ≤ result → is_in self.now id ≡ false }
    {
        self.bits.from(after + 1) - 1
    }
}
