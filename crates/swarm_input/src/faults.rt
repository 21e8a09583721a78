// Faults of a script's lines, and the line that tells one.
ghost use Rattle.std.specs.Prelude.{List, ℕ, ◌≡◌, IfOk, string_bytes};
ghost use Rattle.swarm_objects.specs.Writers.{Puts};
ghost use Rattle.swarm_input.specs.Script.{line_fault_text, bad_line_text};

use script_grammar::LineFault;
use std::alloc::{AllocError, Global};
use std::fmt::Write;

/// Why a script isn't done beyond a line.
#[derive(Clone, Copy, Debug, PartialEq, Eq)]
pub enum Fault {
    /// The script's first byte beyond 16 MiB is one of the line's.
    Size,
    /// The line's text can't be read.
    Text(LineFault),
}

/// Why a text isn't put.
#[derive(Clone, Copy, Debug, PartialEq, Eq)]
pub enum WriteFault {
    /// The sink failed.
    Failed,
    NoMemory,
}

/// Puts what tells a fault of a line's text.
pub fn put_line_fault(text: &mut String, fault: LineFault) -> Result<(), AllocError>
    ensures { Puts result text.old text.new (line_fault_text fault) }
{
    match fault {
        LineFault::Long => text.push_str("Long"),
        LineFault::Byte => text.push_str("Byte"),
        LineFault::Word(place) => write!(text, "Word {place}"),
        LineFault::Cut => text.push_str("Cut"),
        LineFault::NoMemory => text.push_str("NoMemory"),
    }
}

/// Why a line is outside its grammar.
pub trait FaultText {
    /// The text that tells it.
    ghost told: { Self → List ℕ };

    /// Puts that text.
    fn put_to(&self, text: &mut String) -> Result<(), AllocError>
        ensures { Puts result text.old text.new (told self.now) };
}

impl FaultText for Fault {
    ghost use Rattle.swarm_input.specs.Script.{fault_text};

    ghost told = { fault_text };

    fn put_to(&self, text: &mut String) -> Result<(), AllocError> {
        match self {
            Fault::Size => text.push_str("Size"),
            Fault::Text(fault) => put_line_fault(text, *fault),
        }
    }
}

/// The line that tells the first line outside the grammar, with its number from 1.
pub fn bad_line<F: FaultText>(alloc: Global, number: u64, fault: &F) -> Result<String, AllocError>
    ensures { IfOk result (λ text. string_bytes text ≡ bad_line_text number (F.told fault.now)) }
{
    let mut text = String::new(alloc);
    write!(text, "bad line {number} ")?;
    fault.put_to(&mut text)?;
    text.push_str("\n")?;
    Ok(text)
}
