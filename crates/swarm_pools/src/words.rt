// Sixty-four places in the bits of a word.
ghost use Rattle.std.specs.Prelude.{◌≡◌, ◌==◌, ◌||◌, ◌&&◌, ◌<◌, ◌≤◌, ℕ, not, false, true};
ghost use Rattle.swarm_pools.specs.Places.{has_bit, low_ones};

/// How many bits from the lowest one on are set without a gap.
pub fn low_ones(word: u64) -> u64
    ensures value { result ≡ low_ones word }
    ensures most { result ≤ 64 }
    ensures set { (place : ℕ) → place < result → has_bit word place ≡ true }
    ensures clear { result < 64 → has_bit word result ≡ false }
{
    u64::from(word.trailing_ones())
}

/// The word with this bit set.
pub fn with_bit(word: u64, place: u64) -> u64
    requires { place < 64 }
    ensures { (other : ℕ) → has_bit result other ≡ (other == place || has_bit word other) }
{
    word | 1 << place
}

// The word with this bit clear.
pub fn without_bit(word: u64, place: u64) -> u64
    requires { place < 64 }
    ensures { (other : ℕ) → other < 64 → has_bit result other ≡ (not (other == place) && has_bit word other) }
{
    word & !(1 << place)
}
