// The lines of a journal.
ghost use Rattle.std.specs.Prelude.{◌≡◌, ◌⊎◌, Err, IfOk, true};
ghost use Rattle.script_grammar.specs.Entries.{EntrySays, before_newline, call_entry, duty_entry, ends_line, entry_meaning, entry_step, entry_whole, is_long_entry, journal_grammar};
ghost use Rattle.script_grammar.specs.HasText.{has_text};
ghost use Rattle.script_grammar.specs.Machines.{ended, meaning};
ghost use Rattle.script_grammar.specs.Texts.{entry_text};
ghost use Rattle.script_grammar.specs.Words.{words_of};

use crate::calls::{step, whole};
use crate::duties::{duty_step, duty_whole};
use crate::lines::is_printable;
use script_fields::{Words, number_of};
use script_grammar::{DutyState, EntryState, Form, LineFault, State};
use std::alloc::Global;
use swarm_objects::limits::LONGEST_ENTRY;
use swarm_objects::{Entry, List, NoMemory, What};

// The call with one word more.
fn call_step(
    alloc: Global,
    by: u64,
    state: State,
    word: &[u8],
) -> Result<Option<EntryState>, NoMemory>
    ensures { IfOk result (λ next. next ≡ entry_step (EntryState.Call by state) word.now) }
{
    match step(alloc, Form::Journal, state, word)? {
        Some(next) => Ok(Some(EntryState::Call(by, next))),
        None => Ok(None),
    }
}

// The caller's number.
fn caller(word: &[u8]) -> Option<EntryState>
    ensures { result ≡ entry_step EntryState.Opening word.now }
{
    let by = number_of(word)?;
    Some(EntryState::Caller(by))
}

// The duty with one word more.
fn in_duty(by: u64, duty: DutyState, word: &[u8]) -> Option<EntryState>
    ensures { result ≡ entry_step (EntryState.Duty by duty) word.now }
{
    let next = duty_step(duty, word)?;
    Some(EntryState::Duty(by, next))
}

/// How far a journal's entry has been read with one word more, where that may stand there.
pub fn entry_step(
    alloc: Global,
    state: EntryState,
    word: &[u8],
) -> Result<Option<EntryState>, NoMemory>
    ensures { IfOk result (λ next. next ≡ entry_step state word.now) }
{
    match state {
        EntryState::Opening => Ok(caller(word)),
        EntryState::Caller(by) if word == b"duty".as_slice() => {
            Ok(Some(EntryState::Duty(by, DutyState::Opening)))
        }
        EntryState::Caller(by) => call_step(alloc, by, State::Opening(List::new(alloc)), word),
        EntryState::Call(by, state) => call_step(alloc, by, state, word),
        EntryState::Duty(by, duty) => Ok(in_duty(by, duty, word)),
    }
}

fn duty_entry(by: u64, duty: DutyState) -> Option<Entry>
    ensures { result ≡ entry_whole (EntryState.Duty by duty) }
{
    let duty = duty_whole(duty)?;
    Some(Entry {
        by,
        what: What::Duty(duty),
    })
}

/// The entry, where it is whole.
pub fn entry_whole(alloc: Global, state: EntryState) -> Result<Option<Entry>, NoMemory>
    ensures { IfOk result (λ entry. entry ≡ entry_whole state) }
{
    match state {
        EntryState::Opening | EntryState::Caller(_) => Ok(None),
        EntryState::Call(by, state) => match whole(alloc, state)? {
            Some(call) => Ok(Some(Entry {
                by,
                what: What::Call(call),
            })),
            None => Ok(None),
        },
        EntryState::Duty(by, duty) => Ok(duty_entry(by, duty)),
    }
}

// The words are at their end.
fn ended(alloc: Global, state: EntryState) -> Result<Entry, LineFault>
    ensures { (result ≡ ended (entry_whole state)) ⊎ (result ≡ Err LineFault.NoMemory) }
{
    match entry_whole(alloc, state) {
        Ok(Some(entry)) => Ok(entry),
        Ok(None) => Err(LineFault::Cut),
        Err(NoMemory) => Err(LineFault::NoMemory),
    }
}

fn read_words(alloc: Global, text: &[u8]) -> Result<Entry, LineFault>
    ensures { (result ≡ meaning journal_grammar (words_of text.now)) ⊎ (result ≡ Err LineFault.NoMemory) }
{
    let mut words = Words::new(text);
    let mut state = EntryState::Opening;
    let mut place = 1;
    while let Some(word) = words.take() {
        match entry_step(alloc, state, word) {
            Ok(Some(next)) => state = next,
            Ok(None) => return Err(LineFault::Word(place)),
            Err(NoMemory) => return Err(LineFault::NoMemory),
        }
        place += 1;
    }
    ended(alloc, state)
}

fn ends_line(line: &[u8]) -> bool
    ensures { result ≡ ends_line line.now }
{
    line.ends_with(b"\n")
}

// Without the newline at its end, where it has one.
fn before_newline(line: &[u8]) -> &[u8]
    ensures { result.now ≡ before_newline line.now }
{
    match line.strip_suffix(b"\n".as_slice()) {
        Some(text) => text,
        None => line,
    }
}

fn read_text(alloc: Global, line: &[u8]) -> Result<Entry, LineFault>
    ensures { (result ≡ entry_meaning line.now) ⊎ (result ≡ Err LineFault.NoMemory) }
{
    if line.len() > LONGEST_ENTRY {
        return Err(LineFault::Long);
    }
    let text = before_newline(line);
    if !is_printable(text) {
        return Err(LineFault::Byte);
    }
    match read_words(alloc, text) {
        Ok(_) if !ends_line(line) => Err(LineFault::Cut),
        result => result,
    }
}

/// Reads one line of a journal, given with its newline where it has one.
///
/// A line is the caller's number, then a call or `duty` with the duty, and each in its one
/// spelling. A whole entry without its newline is cut. The error is the first of the line's faults,
/// in the order of `LineFault`, or want of memory, which may come in place of any answer.
pub fn read_entry(alloc: Global, line: &[u8]) -> Result<Entry, LineFault>
    ensures meaning { (result ≡ entry_meaning line.now) ⊎ (result ≡ Err LineFault.NoMemory) }
    // by the grammar, and not by the order of reading
    ensures grammar { EntrySays line.now result ⊎ (result ≡ Err LineFault.NoMemory) }
    // it is the one text of the entry, so that two texts of one entry are equal
    ensures one { IfOk result (λ entry. line.now ≡ entry_text entry) }
    ensures text { IfOk result (λ entry. has_text entry ≡ true) }
{
    read_text(alloc, line)
}
