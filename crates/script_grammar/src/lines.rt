// What lines say, and how far one has been read.
use crate::{DutyState, State};
use swarm_objects::{Call, Ms};

/// What a line of a script says.
#[derive(Drop)]
pub enum Line {
    /// Nothing: an empty line or a comment.
    Blank,
    /// Any call but a settle call.
    Call(Call),
    /// The clock moves on by so much, duties done.
    Wait(Ms),
    /// Settle the world in at most so many turns.
    Settle(u64),
}

/// Why a line can't be read. Of the faults of a line the first counts.
#[derive(Clone, Copy, Debug, PartialEq, Eq)]
pub enum LineFault {
    /// It has over 8,192 bytes, without its newline. The line of an entry has over 8,224 with it.
    Long,
    /// It has a byte outside 32 to 126.
    Byte,
    /// Its word of this number, from 1, is the first that no line with the earlier words has there.
    Word(u64),
    /// It ends before it is whole.
    Cut,
    /// Memory was wanting, whatever the line says.
    NoMemory,
}

/// How far a line of a script has been read.
#[derive(Drop)]
pub enum LineState {
    Opening,
    Call(State),
    /// A wait line that wants its time.
    Wait,
    Waited(Ms),
}

/// How far a journal's entry has been read. The number is the caller's.
#[derive(Drop)]
pub enum EntryState {
    Opening,
    Caller(u64),
    Call(u64, State),
    Duty(u64, DutyState),
}
