// Rows and their keys.
ghost use Rattle.std.specs.Prelude.{◌≡◌, ◌<◌, ℕ, Option as Optional, fold};
ghost use Rattle.std.specs.Option.{option_map};
ghost use Rattle.swarm_index.specs.Inside.Marks.{digest, mix};
ghost use Rattle.swarm_index.specs.Keys.{KeyValue, same_key, value_of};

use swarm_objects::{Id, Name};

/// The only key of a node, a service or a network: its name.
pub const NAME: u32 = 0;

/// A task's key `Num` of its service.
pub const SERVICE: u32 = 0;

/// A task's key `Num` of the node that it was given.
pub const NODE: u32 = 1;

/// A task's key `Pair` of its service and its slot, where it stands in one.
pub const SLOT: u32 = 2;

/// A task's key `Pair` of its service and the node that is its place, where that is one.
pub const HOST: u32 = 3;

/// What a row is found by, beside its id.
#[derive(Clone, Copy)]
pub enum IndexKey<'a> {
    Num(u64),
    Pair(u64, u64),
    Text(&'a Name),
}

// What the digests of two numbers are mixed by: odd, so that each number of 64 bits is a product once.
const FACTOR: u64 = 1_099_511_628_211;

// One number of two.
fn mix(a: u64, b: u64) -> u64
    ensures { result ≡ mix a b }
{
    a.wrapping_mul(FACTOR).wrapping_add(b)
}

// A number for a text.
fn text_digest(bytes: &[u8]) -> u64
    ensures { result ≡ fold mix 0 bytes.now }
{
    let mut digest = 0;
    for byte in bytes {
        digest = mix(digest, u64::from(*byte));
    }
    digest
}

impl IndexKey<'_> {
    // A number for the key; different keys may have one.
    pub(crate) fn digest(&self) -> u64
        ensures { result ≡ digest (value_of self.now) }
    {
        match self {
            IndexKey::Num(number) => *number,
            IndexKey::Pair(first, second) => mix(*first, *second),
            IndexKey::Text(name) => text_digest(name.as_str().as_bytes()),
        }
    }

    // Whether the other key is the same.
    pub(crate) fn same(&self, other: &IndexKey<'_>) -> bool
        ensures { result ≡ same_key (value_of self.now) (value_of other.now) }
    {
        match (self, other) {
            (IndexKey::Num(a), IndexKey::Num(b)) => a == b,
            (IndexKey::Pair(a, b), IndexKey::Pair(c, d)) => a == c && b == d,
            (IndexKey::Text(a), IndexKey::Text(b)) => a.as_str() == b.as_str(),
            _ => false,
        }
    }
}

/// A row of an index. Many rows may have one key.
pub trait Row {
    /// How many kinds of key there are.
    ghost KEYS: { ℕ };

    /// The id.
    ghost id_of: { Self → ℕ };

    /// The key of this number, where the row has it.
    ghost key_of: { ℕ → Self → Optional KeyValue };

    /// How many kinds of key there are.
    const KEYS: u32;

    /// The id.
    fn id(&self) -> Id
        ensures { result ≡ id_of self.now };

    /// The key of this number, where the row has it.
    fn key(&self, which: u32) -> Option<IndexKey<'_>>
        requires { which < KEYS }
        ensures { option_map value_of result ≡ key_of which self.now };
}
