// The machine that reads constraints, byte by byte.
ghost use Rattle.std.specs.Prelude.{◌≡◌, ◌+◌, ◌<◌, ◌≤◌, length, nat_eq, slice_index};
ghost use Rattle.std.specs.List.{starts_with};
ghost use Rattle.std.specs.Str.{bytes_eq, str_eq_ignore_ascii_case, str_to_ascii_lowercase};
ghost use Rattle.swarm_filters.specs.Machine.{behind_key, key_words, label_words, platform_words, byte_step, word_begun};
ghost use Rattle.swarm_filters.specs.declared.state.State.TheVariants.{AfterSign, InKey, InLabel, InValue, Start};
ghost use Rattle.swarm_filters.specs.Inside.States.{FoundFits, OptionFits, StateFits, key_at, option_shown, part, shown};

use crate::state::{Found, Parts, Span, State};
use swarm_objects::names::{is_name, is_value};

/// Whether the bytes are the word, in letters of either case.
pub fn is_word(word: &[u8], bytes: &[u8]) -> bool
    requires { str_to_ascii_lowercase word.now ≡ word.now }
    ensures { result ≡ bytes_eq word.now (str_to_ascii_lowercase bytes.now) }
{
    word.eq_ignore_ascii_case(bytes)
}

// Whether the word begins with the bytes, in letters of either case.
fn begins_word(word: &[u8], bytes: &[u8]) -> bool
    requires { str_to_ascii_lowercase word.now ≡ word.now }
    ensures { result ≡ starts_with nat_eq word.now (str_to_ascii_lowercase bytes.now) }
{
    bytes.len() <= word.len() && is_same_text(bytes, &word[..bytes.len()])
}

// Whether two texts are equal in letters of either case.
fn is_same_text(one: &[u8], two: &[u8]) -> bool
    ensures { result ≡ str_eq_ignore_ascii_case one.now two.now }
{
    one.eq_ignore_ascii_case(two)
}

// A key whose first bytes these are.
fn key_begun(text: &[u8], from: usize, end: usize) -> Option<State>
    requires order { from ≤ end }
    requires within { end ≤ length text.now }
    ensures shows { option_shown text.now end result
        ≡ word_begun (str_to_ascii_lowercase (part text.now from end)) key_words }
    ensures fits { OptionFits end result }
{
    let bytes = &text[from..end];
    if is_word(b"node.id", bytes) {
        Some(State::AfterKey(Found::NodeId))
    } else if begins_word(b"node.id", bytes) {
        Some(State::InKey(from))
    } else if is_word(b"node.hostname", bytes) {
        Some(State::AfterKey(Found::Hostname))
    } else if begins_word(b"node.hostname", bytes) {
        Some(State::InKey(from))
    } else if is_word(b"node.role", bytes) {
        Some(State::AfterKey(Found::Role))
    } else if begins_word(b"node.role", bytes) {
        Some(State::InKey(from))
    } else {
        platform_begun(text, from, end)
    }
}

fn platform_begun(text: &[u8], from: usize, end: usize) -> Option<State>
    requires order { from ≤ end }
    requires within { end ≤ length text.now }
    ensures shows { option_shown text.now end result
        ≡ word_begun (str_to_ascii_lowercase (part text.now from end)) platform_words }
    ensures fits { OptionFits end result }
{
    let bytes = &text[from..end];
    if is_word(b"node.platform.os", bytes) {
        Some(State::AfterKey(Found::Os))
    } else if begins_word(b"node.platform.os", bytes) {
        Some(State::InKey(from))
    } else if is_word(b"node.platform.arch", bytes) {
        Some(State::AfterKey(Found::Arch))
    } else if begins_word(b"node.platform.arch", bytes) {
        Some(State::InKey(from))
    } else {
        label_begun(text, from, end)
    }
}

fn label_begun(text: &[u8], from: usize, end: usize) -> Option<State>
    requires order { from ≤ end }
    requires within { end ≤ length text.now }
    ensures shows { option_shown text.now end result
        ≡ word_begun (str_to_ascii_lowercase (part text.now from end)) label_words }
    ensures fits { OptionFits end result }
{
    let bytes = &text[from..end];
    if is_word(b"node.labels.", bytes) {
        Some(State::InLabel(false, end))
    } else if begins_word(b"node.labels.", bytes) {
        Some(State::InKey(from))
    } else if is_word(b"engine.labels.", bytes) {
        Some(State::InLabel(true, end))
    } else if begins_word(b"engine.labels.", bytes) {
        Some(State::InKey(from))
    } else {
        None
    }
}

// What a byte behind a whole key makes.
fn behind_key(text: &[u8], place: usize, found: Found, byte: u8) -> Option<State>
    requires { FoundFits place found }
    ensures shows { option_shown text.now place result ≡ behind_key (key_at text.now found) byte }
    ensures fits { OptionFits place result }
{
    match byte {
        b' ' => Some(State::AfterKey(found)),
        b'=' => Some(State::InSign(found, true)),
        b'!' => Some(State::InSign(found, false)),
        _ => None,
    }
}

// What a byte inside a label's name or behind it makes.
fn label_step(text: &[u8], place: usize, engine: bool, from: usize) -> Option<State>
    requires below { place < length text.now }
    requires order { from ≤ place }
    ensures shows { option_shown text.now (place + 1) result
        ≡ byte_step (shown text.now place (InLabel engine from)) (slice_index text.now place) }
    ensures fits { OptionFits (place + 1) result }
{
    if is_name(&text[from..place + 1]) {
        return Some(State::InLabel(engine, from));
    }
    if !is_name(&text[from..place]) {
        return None;
    }
    let name = Span { from, end: place };
    behind_key(text, place + 1, Found::Label(engine, name), text[place])
}

// What a byte inside a value or behind it makes.
fn value_step(text: &[u8], place: usize, parts: Parts) -> Option<State>
    requires below { place < length text.now }
    requires found { FoundFits place parts.found }
    requires order { parts.value.from ≤ place }
    requires end { parts.value.end ≡ place }
    ensures shows { option_shown text.now (place + 1) result
        ≡ byte_step
        (shown text.now place (InValue parts.found parts.equal parts.value.from))
        (slice_index text.now place) }
    ensures fits { OptionFits (place + 1) result }
{
    if text[place] == b' ' {
        return Some(State::Finished(parts));
    }
    if !is_value(&text[parts.value.from..place + 1]) {
        return None;
    }
    Some(State::InValue(parts.found, parts.equal, parts.value.from))
}

// What a byte behind a sign makes.
fn value_begun(text: &[u8], place: usize, found: Found, equal: bool) -> Option<State>
    requires below { place < length text.now }
    requires found { FoundFits place found }
    ensures shows { option_shown text.now (place + 1) result
        ≡ byte_step (shown text.now place (AfterSign found equal)) (slice_index text.now place) }
    ensures fits { OptionFits (place + 1) result }
{
    if text[place] == b' ' {
        return Some(State::AfterSign(found, equal));
    }
    if !is_value(&text[place..place + 1]) {
        return None;
    }
    Some(State::InValue(found, equal, place))
}

fn start_step(text: &[u8], place: usize) -> Option<State>
    requires below { place < length text.now }
    ensures shows { option_shown text.now (place + 1) result
        ≡ byte_step (shown text.now place Start) (slice_index text.now place) }
    ensures fits { OptionFits (place + 1) result }
{
    if text[place] == b' ' {
        return Some(State::Start);
    }
    key_begun(text, place, place + 1)
}

fn key_step(text: &[u8], place: usize, from: usize) -> Option<State>
    requires below { place < length text.now }
    requires order { from ≤ place }
    ensures shows { option_shown text.now (place + 1) result
        ≡ byte_step (shown text.now place (InKey from)) (slice_index text.now place) }
    ensures fits { OptionFits (place + 1) result }
{
    key_begun(text, from, place + 1)
}

// What was read with one byte more.
pub fn byte_step(text: &[u8], place: usize, state: State) -> Option<State>
    requires below { place < length text.now }
    requires fits { StateFits place state }
    ensures shows { option_shown text.now (place + 1) result
        ≡ byte_step (shown text.now place state) (slice_index text.now place) }
    ensures fits { OptionFits (place + 1) result }
{
    match state {
        State::Start => start_step(text, place),
        State::InKey(from) => key_step(text, place, from),
        State::InLabel(engine, from) => label_step(text, place, engine, from),
        State::AfterKey(found) => behind_key(text, place + 1, found, text[place]),
        State::InSign(found, equal) => {
            if text[place] == b'=' {
                Some(State::AfterSign(found, equal))
            } else {
                None
            }
        }
        State::AfterSign(found, equal) => value_begun(text, place, found, equal),
        State::InValue(found, equal, from) => {
            let value = Span { from, end: place };
            value_step(
                text,
                place,
                Parts {
                    found,
                    equal,
                    value,
                },
            )
        }
        State::Finished(parts) => {
            if text[place] == b' ' {
                Some(State::Finished(parts))
            } else {
                None
            }
        }
    }
}
