// When numbers are to join a span: a time for each word of a span's bits.
ghost use Rattle.std.specs.Prelude.{◌≡◌, ◌≤◌, ◌<◌, ◌⊎◌, ◌-◌, ◌^◌, ℕ, true};
ghost use Rattle.swarm_spans.specs.Spans.{is_in, IsWider};
ghost use Rattle.swarm_spans.specs.Wakes.{wake_at};

use crate::bits::{WORDS, word_of};
use crate::span::Span;
use swarm_objects::{Id, Ms};

/// For each word of a span's bits a time that is at most that of each number of the word. Rows for which something
/// ends at a time of their own are found by it without looking at all rows.
#[derive(Clone, Copy, Drop)]
pub struct Wakes {
    times: [Ms; WORDS],
}

impl Wakes {
    /// No number has a time.
    pub fn never() -> Wakes
        ensures { (id : ℕ) → wake_at result id ≡ 2 ^ 64 - 1 }
    {
        Wakes {
            times: [u64::MAX; WORDS],
        }
    }

    /// The number has this time, or an earlier one.
    pub fn lower(&mut self, id: Id, time: Ms)
        ensures own { wake_at self.new id ≤ time }
        ensures all { (other : ℕ) → wake_at self.new other ≤ wake_at self.old other }
    {
        let word = word_of(id);
        self.times[word] = self.times[word].min(time);
    }

    /// The numbers of each word whose time has come join the span, and have no time any more.
    pub fn wake(&mut self, now: Ms, span: &mut Span)
        ensures wider { IsWider span.new span.old }
        ensures woken { (id : ℕ) → 0 < id → id < 2 ^ 64 → wake_at self.old id ≤ now → is_in span.new id ≡ true }
        ensures others { (id : ℕ) → 0 < id → id < 2 ^ 64
            → (is_in span.new id ≡ true) ⊎ (wake_at self.new id ≡ wake_at self.old id) }
    {
        for word in 0..WORDS {
            if self.times[word] <= now {
                span.add_word(word);
                self.times[word] = u64::MAX;
            }
        }
    }
}
