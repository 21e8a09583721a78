// What a replay finds, and the line that tells it.
ghost use Rattle.std.specs.Prelude.{◌≡◌, IfOk, string_bytes};
ghost use Rattle.swarm_replay.specs.Replay.{verdict_status, verdict_text};

use script_grammar::LineFault;
use std::alloc::{AllocError, Global};
use std::fmt::Write;
use swarm_input::{FaultText, bad_line, put_line_fault};

/// Why a line of a journal is outside the grammar.
#[derive(Clone, Copy, Debug, PartialEq, Eq)]
pub enum EntryFault {
    /// The first line isn't the head line.
    Head,
    /// It is a line more than a whole history has.
    Size,
    /// The line's text can't be read.
    Text(LineFault),
}

/// How a replay ends. The first of several causes decides.
#[derive(Clone, Copy, Debug, PartialEq, Eq)]
pub enum Verdict {
    /// All entries are legal, one after the other, and they are so many.
    Legal(u64),
    /// The entry with this number may not follow the earlier ones.
    Illegal(u64),
    /// The line with this number is the first that is outside the grammar.
    BadLine(u64, EntryFault),
    /// The source failed.
    ReadFault,
    NoMemory,
}

impl Verdict {
    /// The program's exit status.
    pub fn status(self) -> u8
        ensures { result ≡ verdict_status self }
    {
        match self {
            Verdict::Legal(_) => 0,
            Verdict::ReadFault => 3,
            Verdict::NoMemory => 5,
            Verdict::BadLine(_, _) => 6,
            Verdict::Illegal(_) => 8,
        }
    }
}

impl FaultText for EntryFault {
    ghost use Rattle.swarm_replay.specs.Replay.{entry_fault_text};

    ghost told = { entry_fault_text };

    fn put_to(&self, text: &mut String) -> Result<(), AllocError> {
        match self {
            EntryFault::Head => text.push_str("Head"),
            EntryFault::Size => text.push_str("Size"),
            EntryFault::Text(fault) => put_line_fault(text, *fault),
        }
    }
}

fn legal(alloc: Global, count: u64) -> Result<String, AllocError>
    ensures { IfOk result (λ text. string_bytes text ≡ verdict_text (Verdict.Legal count)) }
{
    let mut text = String::new(alloc);
    writeln!(text, "legal {count}")?;
    Ok(text)
}

fn illegal(alloc: Global, number: u64) -> Result<String, AllocError>
    ensures { IfOk result (λ text. string_bytes text ≡ verdict_text (Verdict.Illegal number)) }
{
    let mut text = String::new(alloc);
    writeln!(text, "illegal {number}")?;
    Ok(text)
}

/// The line that tells the verdict. A fault of the source and want of memory have none.
pub fn verdict_text(alloc: Global, verdict: Verdict) -> Result<String, AllocError>
    ensures { IfOk result (λ text. string_bytes text ≡ verdict_text verdict) }
{
    match verdict {
        Verdict::Legal(count) => legal(alloc, count),
        Verdict::Illegal(number) => illegal(alloc, number),
        Verdict::BadLine(number, fault) => bad_line(alloc, number, &fault),
        Verdict::ReadFault | Verdict::NoMemory => Ok(String::new(alloc)),
    }
}
