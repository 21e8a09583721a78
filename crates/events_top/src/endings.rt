// How the going over a journal ends, and what tells it.
ghost use Rattle.std.specs.Prelude.{◌≡◌, IfOk, string_bytes};
ghost use Rattle.events_top.specs.Endings.{ending_status, ending_text, illegal_text, why_not};
ghost use Rattle.swarm_plain.specs.Plain.{world_of};
ghost use Rattle.swarm_replay.specs.Replay.{verdict_text};

use std::alloc::{AllocError, Global};
use std::fmt::Write;
use swarm_input::bad_line;
use swarm_objects::limits::MOST_ENTRIES;
use swarm_plain::Plain;
use swarm_replay::Verdict;

/// How the going over a journal ends. The first of several causes decides.
#[derive(Clone, Copy, Debug, PartialEq, Eq)]
pub enum Ending {
    /// What a replay finds of the journal.
    Judged(Verdict),
    /// The sink of the lines failed.
    OutFault,
}

impl Ending {
    /// The program's exit status.
    pub fn status(self) -> u8
        ensures { result ≡ ending_status self }
    {
        match self {
            Ending::Judged(verdict) => verdict.status(),
            Ending::OutFault => 4,
        }
    }
}

/// Why an entry that may not follow may not, by the world that it comes after.
pub fn why_not(plain: &Plain) -> &'static str
    ensures { result.now ≡ why_not (world_of plain.now) }
{
    if plain.halted {
        "after Halt"
    } else if plain.entries >= MOST_ENTRIES {
        "no room"
    } else {
        "not due"
    }
}

fn illegal(alloc: Global, number: u64, why: &str) -> Result<String, AllocError>
    ensures { IfOk result (λ text. string_bytes text ≡ illegal_text number why.now) }
{
    let mut text = String::new(alloc);
    write!(text, "illegal {number}\n{why}\n")?;
    Ok(text)
}

/// What tells the ending, where it is a fault of the journal: the line of a replay, and of an entry that isn't legal
/// why it isn't on a second line.
pub fn ending_text(alloc: Global, ending: Ending, why: &str) -> Result<String, AllocError>
    ensures { IfOk result (λ text. string_bytes text ≡ ending_text ending why.now) }
{
    match ending {
        Ending::Judged(Verdict::Illegal(number)) => illegal(alloc, number, why),
        Ending::Judged(Verdict::BadLine(number, fault)) => bad_line(alloc, number, &fault),
        _ => Ok(String::new(alloc)),
    }
}
