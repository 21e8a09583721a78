// The lines of a script.
ghost use Rattle.std.specs.Prelude.{◌≡◌, ◌⊎◌, Err, IfOk, true};
ghost use Rattle.script_grammar.specs.Lines.{LineSays, is_blank, is_long, is_printable, line_of, line_runs, line_step, line_whole, meaning_of, script_grammar, wait_of};
ghost use Rattle.script_grammar.specs.HasText.{line_has_text};
ghost use Rattle.script_grammar.specs.Machines.{ended, meaning};
ghost use Rattle.script_grammar.specs.Words.{words_of};

use crate::calls::{step, whole};
use script_fields::{Words, number_of};
use script_grammar::{Form, Line, LineFault, LineState, State};
use std::alloc::Global;
use swarm_objects::limits::{LONGEST_LINE, LONGEST_TIME};
use swarm_objects::{Call, List, Ms, NoMemory};

fn wait_of(word: &[u8]) -> Option<Ms>
    ensures { result ≡ wait_of word.now }
{
    match number_of(word) {
        Some(ms) if 1 <= ms && ms <= LONGEST_TIME => Some(ms),
        _ => None,
    }
}

// The call with one word more.
fn call_step(alloc: Global, state: State, word: &[u8]) -> Result<Option<LineState>, NoMemory>
    ensures { IfOk result (λ next. next ≡ line_step (LineState.Call state) word.now) }
{
    match step(alloc, Form::Script, state, word)? {
        Some(next) => Ok(Some(LineState::Call(next))),
        None => Ok(None),
    }
}

/// How far a line of a script has been read with one word more, where that may stand there.
pub fn line_step(
    alloc: Global,
    state: LineState,
    word: &[u8],
) -> Result<Option<LineState>, NoMemory>
    ensures { IfOk result (λ next. next ≡ line_step state word.now) }
{
    match state {
        LineState::Opening if word == b"wait".as_slice() => Ok(Some(LineState::Wait)),
        LineState::Opening => call_step(alloc, State::Opening(List::new(alloc)), word),
        LineState::Call(state) => call_step(alloc, state, word),
        LineState::Wait => match wait_of(word) {
            Some(ms) => Ok(Some(LineState::Waited(ms))),
            None => Ok(None),
        },
        LineState::Waited(_) => Ok(None),
    }
}

// A settle line isn't yet a call: the world is settled first.
fn line_of(call: Call) -> Line
    ensures { result ≡ line_of call }
{
    match call {
        Call::Settle(budget) => Line::Settle(budget),
        call => Line::Call(call),
    }
}

/// The line, where it is whole.
pub fn line_whole(alloc: Global, state: LineState) -> Result<Option<Line>, NoMemory>
    ensures { IfOk result (λ line. line ≡ line_whole state) }
{
    match state {
        LineState::Call(state) => match whole(alloc, state)? {
            Some(call) => Ok(Some(line_of(call))),
            None => Ok(None),
        },
        LineState::Waited(ms) => Ok(Some(Line::Wait(ms))),
        LineState::Opening | LineState::Wait => Ok(None),
    }
}

// The words are at their end.
fn ended(alloc: Global, state: LineState) -> Result<Line, LineFault>
    ensures { (result ≡ ended (line_whole state)) ⊎ (result ≡ Err LineFault.NoMemory) }
{
    match line_whole(alloc, state) {
        Ok(Some(line)) => Ok(line),
        Ok(None) => Err(LineFault::Cut),
        Err(NoMemory) => Err(LineFault::NoMemory),
    }
}

fn read_words(alloc: Global, text: &[u8]) -> Result<Line, LineFault>
    ensures { (result ≡ meaning script_grammar (words_of text.now)) ⊎ (result ≡ Err LineFault.NoMemory) }
{
    let mut words = Words::new(text);
    let mut state = LineState::Opening;
    let mut place = 1;
    while let Some(word) = words.take() {
        match line_step(alloc, state, word) {
            Ok(Some(next)) => state = next,
            Ok(None) => return Err(LineFault::Word(place)),
            Err(NoMemory) => return Err(LineFault::NoMemory),
        }
        place += 1;
    }
    ended(alloc, state)
}

/// Whether each byte is one from 32 to 126.
pub fn is_printable(text: &[u8]) -> bool
    ensures { result ≡ is_printable text.now }
{
    text.iter().all(|b| (32..=126).contains(b))
}

// An empty line or a comment.
fn is_blank(text: &[u8]) -> bool
    ensures { result ≡ is_blank text.now }
{
    match text {
        [] => true,
        [b, ..] => *b == b'#',
    }
}

fn read_text(alloc: Global, text: &[u8]) -> Result<Line, LineFault>
    ensures { (result ≡ meaning_of text.now) ⊎ (result ≡ Err LineFault.NoMemory) }
{
    if text.len() > LONGEST_LINE {
        return Err(LineFault::Long);
    }
    if !is_printable(text) {
        return Err(LineFault::Byte);
    }
    if is_blank(text) {
        return Ok(Line::Blank);
    }
    read_words(alloc, text)
}

/// Reads one line of a script, given without its newline.
///
/// A line is empty, a comment that begins with `#`, `wait MS`, or a call, with single spaces
/// between its words. The error is the first of the line's faults, in the order of `LineFault`, or
/// want of memory, which may come in place of any answer.
pub fn read_line(alloc: Global, text: &[u8]) -> Result<Line, LineFault>
    ensures meaning { (result ≡ meaning_of text.now) ⊎ (result ≡ Err LineFault.NoMemory) }
    // by the grammar, and not by the order of reading
    ensures grammar { LineSays text.now result ⊎ (result ≡ Err LineFault.NoMemory) }
    // its call may be written into a journal, and doesn't halt the world
    ensures text { IfOk result (λ line. line_has_text line ≡ true) }
    ensures runs { IfOk result (λ line. line_runs line ≡ true) }
{
    read_text(alloc, text)
}
