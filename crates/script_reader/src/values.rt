// What stands in one word of a call, where it is no field.
ghost use Rattle.std.specs.Prelude.{◌≡◌, find};
ghost use Rattle.std.specs.Str.{bytes_eq};
ghost use Rattle.swarm_objects.specs.Values.Texts.{state_text};
ghost use Rattle.script_grammar.specs.Calls.{address_of, all_of, begins_version, budget_of, filter_of, is_budget, may_write, range_of, state_of, subnet_of, version_of};

use script_fields::{byte_number, number_of, split_at};
use script_grammar::Form;
use swarm_objects::limits::LARGEST_BUDGET;
use swarm_objects::{Filter, Kind, TaskState};

/// The version that the word `@V` gives, if it is one.
pub fn version_of(word: &[u8]) -> Option<u64>
    ensures { result ≡ version_of word.now }
{
    match word {
        [b'@', number @ ..] => number_of(number),
        _ => None,
    }
}

/// Whether the word can only be a version.
pub const fn begins_version(word: &[u8]) -> bool
    ensures { result ≡ begins_version word.now }
{
    match word {
        [] => false,
        [b, ..] => *b == b'@',
    }
}

// The first byte is the highest.
const fn address_of(a: u8, b: u8, c: u8, d: u8) -> u32
    ensures { result ≡ address_of a b c d }
{
    ((a as u32 * 256 + b as u32) * 256 + c as u32) * 256 + d as u32
}

// A.B.C.D/L
fn range_of(text: &[u8]) -> Option<(u32, u8)>
    ensures { result ≡ range_of text.now }
{
    let (a, rest) = split_at(b'.', text)?;
    let (b, rest) = split_at(b'.', rest)?;
    let (c, rest) = split_at(b'.', rest)?;
    let (d, length) = split_at(b'/', rest)?;
    let a = byte_number(a)?;
    let b = byte_number(b)?;
    let c = byte_number(c)?;
    let d = byte_number(d)?;
    let length = byte_number(length)?;
    Some((address_of(a, b, c, d), length))
}

/// The lowest address and the length of a network's range that the word `subnet=A.B.C.D/L` gives, if it is one.
pub fn subnet_of(word: &[u8]) -> Option<(u32, u8)>
    ensures { result ≡ subnet_of word.now }
{
    let (key, value) = split_at(b'=', word)?;
    if key == b"subnet".as_slice() {
        range_of(value)
    } else {
        None
    }
}

fn is_budget(turns: u64) -> bool
    ensures { result ≡ is_budget turns }
{
    (1..=LARGEST_BUDGET).contains(&turns)
}

// A journal leaves out the largest, which holds where no number is given.
fn may_write(form: Form, turns: u64) -> bool
    ensures { result ≡ may_write form turns }
{
    match form {
        Form::Script => is_budget(turns),
        Form::Journal => is_budget(turns) && turns != LARGEST_BUDGET,
    }
}

/// The turns that the word gives a settle line, if it may.
pub fn budget_of(form: Form, word: &[u8]) -> Option<u64>
    ensures { result ≡ budget_of form word.now }
{
    match number_of(word) {
        Some(turns) if may_write(form, turns) => Some(turns),
        _ => None,
    }
}

// The first of these states with this name.
fn named_state(states: &[TaskState], word: &[u8]) -> Option<TaskState>
    ensures { result ≡ find (λ s. bytes_eq (state_text s) word.now) states.now }
{
    for state in states {
        if state.as_str().as_bytes() == word {
            return Some(*state);
        }
    }
    None
}

/// The state of a task that the word names, if it does.
pub fn state_of(word: &[u8]) -> Option<TaskState>
    ensures { result ≡ state_of word.now }
{
    named_state(&TaskState::ALL, word)
}

const fn all_of(kind: Option<Kind>) -> Filter
    ensures { result ≡ all_of kind }
{
    Filter { kind, id: None }
}

/// What a new watcher is told by the word that names a kind, or all of them.
pub fn filter_of(word: &[u8]) -> Option<Filter>
    ensures { result ≡ filter_of word.now }
{
    if word == b"all".as_slice() {
        Some(all_of(None))
    } else if word == b"node".as_slice() {
        Some(all_of(Some(Kind::Node)))
    } else if word == b"service".as_slice() {
        Some(all_of(Some(Kind::Service)))
    } else if word == b"task".as_slice() {
        Some(all_of(Some(Kind::Task)))
    } else if word == b"network".as_slice() {
        Some(all_of(Some(Kind::Network)))
    } else {
        None
    }
}
