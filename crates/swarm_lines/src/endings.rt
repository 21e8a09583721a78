// How a run ends.
ghost use Rattle.std.specs.Prelude.{◌≡◌};
ghost use Rattle.swarm_lines.specs.Endings.{exit_status};

use swarm_input::Fault;

/// How a run ended. Of several causes the first decides, but want of memory that is met after another one goes before
/// it.
#[derive(Clone, Copy, Debug, PartialEq, Eq)]
pub enum Ending {
    /// The script was read to its end, and no line was refused.
    Done,
    /// The script was read to its end, and a line was refused.
    Refused,
    /// The script's source failed.
    ReadFault,
    /// The sink of the replies failed.
    OutFault,
    /// The sink of the journal failed.
    JournalFault,
    /// Memory was wanting.
    NoMemory,
    /// Memory was wanting after the line with this number was found outside the grammar.
    NoMemoryAt(u64, Fault),
    /// The line with this number is the first that is outside the grammar.
    BadLine(u64, Fault),
    /// The history had no room for a line's next entry.
    Full,
}

impl Ending {
    /// The program's exit status.
    pub fn status(self) -> u8
        ensures { result ≡ exit_status self }
    {
        match self {
            Ending::Done => 0,
            Ending::Refused => 1,
            Ending::ReadFault => 3,
            Ending::OutFault | Ending::JournalFault => 4,
            Ending::NoMemory | Ending::NoMemoryAt(_, _) => 5,
            Ending::BadLine(_, _) => 6,
            Ending::Full => 7,
        }
    }
}
