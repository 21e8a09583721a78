// What the words ask for.
ghost use Rattle.std.specs.Prelude.{◌≡◌, ◌≢◌, None, map, string_bytes};
ghost use Rattle.swarm_command.specs.CommandLine.{IsReading, form_of};

use crate::commands::swarm_command;
use crate::finds::found_form;
use crate::spellings::{asks, spells};
use clap::error::ErrorKind;
use std::alloc::Global;

/// The line that answers other words.
pub const USAGE: &[u8] = b"usage: swarm run [--workers K] | swarm replay | swarm make N [--run]\n";

/// What words ask for.
#[derive(Clone, Copy, Debug, PartialEq, Eq)]
pub enum Form {
    /// A script is run beside so many workers.
    Run(u32),
    /// A journal is replayed.
    Replay,
    /// The script of this number is written.
    Make(u64),
    /// It is run instead, and what came of it is summed up.
    MakeRun(u64),
}

/// Why words ask for nothing.
#[derive(Clone, Copy, Debug, PartialEq, Eq)]
pub enum WordFault {
    /// The program doesn't take them.
    Other,
    /// It takes them, and there was no memory to read them.
    NoMemory,
}

// How reading ends where memory was wanting: what needs none decides whether that is told.
fn unread(words: &[String]) -> Result<Form, WordFault>
    ensures { IsReading (form_of (map string_bytes words.now)) result }
{
    if asks(words) {
        Err(WordFault::NoMemory)
    } else {
        Err(WordFault::Other)
    }
}

// How reading ends where clap fails.
fn refusal(kind: ErrorKind, words: &[String]) -> Result<Form, WordFault>
    ensures { (kind ≢ ErrorKind.OutOfMemory → form_of (map string_bytes words.now) ≡ None)
        → IsReading (form_of (map string_bytes words.now)) result }
{
    match kind {
        ErrorKind::OutOfMemory => unread(words),
        _ => Err(WordFault::Other),
    }
}

/// What the words after the program's name ask for.
pub fn read_words(alloc: Global, words: &[String]) -> Result<Form, WordFault>
    ensures { IsReading (form_of (map string_bytes words.now)) result }
{
    let Ok(command) = swarm_command(alloc) else {
        return unread(words);
    };
    let matches = match command.try_get_matches_from(words) {
        Ok(matches) => matches,
        Err(error) => return refusal(error.kind(), words),
    };
    // clap takes `--` too, and what it found doesn't tell that
    match found_form(&matches) {
        Some(form) => {
            if spells(form, words) {
                Ok(form)
            } else {
                Err(WordFault::Other)
            }
        }
        None => Err(WordFault::Other),
    }
}
