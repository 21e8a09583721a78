// Constraints from their texts.
ghost use Rattle.std.specs.Prelude.{◌≡◌, length, IfErr, IfOk, IsTrue};
ghost use Rattle.swarm_filters.specs.Grammar.{HoldsExactly, IsConstraint, IsFault, IsOnly};
ghost use Rattle.swarm_filters.specs.Machine.{constraint_of, whole_of};
ghost use Rattle.swarm_filters.specs.Inside.States.{FoundFits, OptionPartsFit, PartsRead, SpanFits, StateFits};
ghost use Rattle.swarm_filters.specs.Inside.States.{key_at, option_whole, shown, span_of, whole_at};
ghost use Rattle.swarm_filters.specs.Spellings.{key_has_text};
ghost use Rattle.swarm_objects.specs.Names.{is_value};
ghost use Rattle.swarm_filters.specs.Faults.{IsAnswer, IsParseFault};

use crate::machine::byte_step;
use crate::state::{Found, Parts, Span, State};
use std::alloc::Global;
use swarm_objects::names::name_of;
use swarm_objects::{Constraint, Key, Name, NoMemory};
use thiserror::Error;

/// Why a text gave no constraint.
#[derive(Debug, Drop, Error)]
pub enum ParseFault {
    /// The place of the first byte that no constraint continues; the text's length where it is cut.
    #[error("no constraint goes on so at byte {0}")]
    BadConstraint(u64),
    #[error("out of memory")]
    NoMemory,
}

impl From<NoMemory> for ParseFault {
    ghost use Rattle.swarm_filters.specs.declared.constraint.ParseFault.TheVariants.{NoMemory as OutOfMemory};

    ghost from_gives = { λ _ f. f ≡ OutOfMemory };

    fn from(_: NoMemory) -> ParseFault {
        ParseFault::NoMemory
    }
}

/// The constraint that a text is: a key, `==` or `!=` and a value, with any spaces at the ends and round the sign.
pub fn parse_constraint(alloc: Global, text: &str) -> Result<Constraint, ParseFault>
    ensures read { IfOk result (λ c. IsConstraint text.now c) }
    ensures one { IfOk result (λ c. IsOnly text.now c) }
    ensures fault { IfErr result (λ f. IsParseFault text.now f) }
    ensures meaning { IsAnswer (constraint_of text.now) result }
{
    let bytes = text.as_bytes();
    match read(bytes) {
        Ok(parts) => Ok(made(alloc, bytes, parts)?),
        Err(place) => Err(ParseFault::BadConstraint(place as u64)),
    }
}

/// The constraint that a word's bytes are, if they are one.
pub fn read_constraint(alloc: Global, word: &[u8]) -> Result<Option<Constraint>, NoMemory>
    ensures form { IfOk result (λ constraint. HoldsExactly (IsConstraint word.now) constraint) }
    ensures meaning { IfOk result (λ constraint. constraint ≡ constraint_of word.now) }
{
    match read(word) {
        Ok(parts) => Ok(Some(made(alloc, word, parts)?)),
        Err(_) => Ok(None),
    }
}

// The parts of a constraint, or the place of the first byte that none continues.
fn read(text: &[u8]) -> Result<Parts, usize>
    ensures parts { IfOk result (λ p. PartsRead text.now p) }
    ensures place { IfErr result (λ place. IsFault text.now place) }
{
    let mut state = State::Start;
    for place in 0..text.len() {
        match byte_step(text, place, state) {
            Some(next) => state = next,
            None => return Err(place),
        }
    }
    match whole(text, state) {
        Some(parts) => Ok(parts),
        None => Err(text.len()),
    }
}

// The constraint that is whole at the end of the text.
fn whole(text: &[u8], state: State) -> Option<Parts>
    requires { StateFits (length text.now) state }
    ensures shows { option_whole text.now result ≡ whole_of (shown text.now (length text.now) state) }
    ensures fits { OptionPartsFit (length text.now) result }
{
    match state {
        State::InValue(found, equal, from) => {
            let value = Span {
                from,
                end: text.len(),
            };
            Some(Parts {
                found,
                equal,
                value,
            })
        }
        State::Finished(parts) => Some(parts),
        _ => None,
    }
}

// The constraint with these parts.
fn made(alloc: Global, text: &[u8], parts: Parts) -> Result<Constraint, NoMemory>
    requires { PartsRead text.now parts }
    ensures { IfOk result (λ c. c ≡ whole_at text.now parts) }
{
    Ok(Constraint {
        key: key_of(alloc, text, parts.found)?,
        equal: parts.equal,
        value: name_at(alloc, text, parts.value)?,
    })
}

fn key_of(alloc: Global, text: &[u8], found: Found) -> Result<Key, NoMemory>
    requires fits { FoundFits (length text.now) found }
    requires named { IsTrue (key_has_text (key_at text.now found)) }
    ensures { IfOk result (λ key. key ≡ key_at text.now found) }
{
    match found {
        Found::NodeId => Ok(Key::NodeId),
        Found::Hostname => Ok(Key::Hostname),
        Found::Role => Ok(Key::Role),
        Found::Os => Ok(Key::Os),
        Found::Arch => Ok(Key::Arch),
        Found::Label(false, name) => Ok(Key::Label(name_at(alloc, text, name)?)),
        Found::Label(true, name) => Ok(Key::Engine(name_at(alloc, text, name)?)),
    }
}

fn name_at(alloc: Global, text: &[u8], span: Span) -> Result<Name, NoMemory>
    requires fits { SpanFits (length text.now) span }
    requires valued { IsTrue (is_value (span_of text.now span)) }
    ensures { IfOk result (λ name. name ≡ span_of text.now span) }
{
    name_of(alloc, &text[span.from..span.end])
}
