// A source read line by line.
ghost use Rattle.std.specs.Prelude.{◌≡◌, [], ◌+◌, ◌-◌, ◌<◌, ◌≤◌, length, take, IfOk, OnOk, IfErr, OnErr, IfSome, IfNone, true, false, Err, if◌then◌else◌};
ghost use Rattle.std.specs.Io.KnownBytes.{IsAtEnd};
ghost use Rattle.swarm_objects.specs.Limits.{longest_line};
ghost use Rattle.swarm_objects.specs.Outside.{Rose};
ghost use Rattle.swarm_input.specs.Held.{has_newline_in};
ghost use Rattle.swarm_input.specs.Script.{most_bytes};
ghost use Rattle.swarm_input.specs.LineBuffer.{to_read, TakesOn, MeansFault, SeesNext, IsOpen, IsNotBad, IsLineAt, HasFound, Cuts, HandsOut};

use crate::faults::Fault;
use crate::held::{CHUNK, Held, TakeFault, newline_in};
use script_grammar::LineFault;
use std::alloc::{AllocError, Global};
use std::marker::Model;
use swarm_objects::limits::{LONGEST_LINE, LONGEST_SCRIPT};
use swarm_objects::{List, Source};

/// The most bytes of a script.
const SCRIPT: u64 = LONGEST_SCRIPT;

/// The most bytes of a line, without its newline.
const LINE: usize = LONGEST_LINE;

/// A line of an input.
#[derive(Drop)]
pub struct ScriptLine {
    /// The bytes before the newline.
    pub text: List<u8>,
    /// Only the last line may lack it.
    pub newline: bool,
}

/// Why no line was read.
#[derive(Clone, Copy, Debug, PartialEq, Eq)]
pub enum ReadFault {
    /// The source failed.
    Failed,
    /// The next line is outside the grammar, whatever its further bytes are.
    Bad(Fault),
    NoMemory,
}

/// The lines of a source: the bytes that were taken and not yet given, and how far the reading is.
#[derive(Drop)]
pub struct Input {
    held: Held,
    read: u64,
}

impl Model for Input {
    ghost use Rattle.std.specs.Prelude.{length, ◌≤◌, ◌+◌};
    ghost use Rattle.swarm_input.specs.LineBuffer.{LineBuffer};
    ghost use Rattle.swarm_input.specs.Script.{most_bytes};

    ghost Value = { LineBuffer };

    ghost view = { λ i. record { bytes = i.held.bytes; read = i.read; finished = i.held.finished } };

    ghost invariant = { λ i. (i.read ≤ most_bytes) × (i.read + length i.held.bytes ≤ most_bytes + 1) };
}

// The first bytes, at most so many.
fn front(bytes: &[u8], most: usize) -> &[u8]
    ensures { result.now ≡ take most bytes.now }
{
    if bytes.len() <= most {
        bytes
    } else {
        &bytes[..most]
    }
}

// What is seen of a line of which no newline is among its first bytes.
fn look_open(read: u64, bytes: &[u8]) -> Result<Option<usize>, ReadFault>
    requires read { read ≤ most_bytes }
    requires size { length bytes.now ≤ most_bytes + 1 }
    requires none { has_newline_in (take (longest_line + 1) bytes.now) ≡ false }
    ensures { SeesNext (record { bytes = bytes.now; read = read; finished = false }) result }
{
    if bytes.len() > LINE {
        if read + LINE as u64 <= SCRIPT {
            return Err(ReadFault::Bad(Fault::Text(LineFault::Long)));
        }
        return Err(ReadFault::Bad(Fault::Size));
    }
    if read + bytes.len() as u64 > SCRIPT {
        return Err(ReadFault::Bad(Fault::Size));
    }
    Ok(None)
}

// What is seen of the line that begins with these bytes, where so many were read before it: the place of its newline,
// if that is at hand.
fn look_at(read: u64, bytes: &[u8]) -> Result<Option<usize>, ReadFault>
    requires read { read ≤ most_bytes }
    requires size { length bytes.now ≤ most_bytes + 1 }
    ensures { SeesNext (record { bytes = bytes.now; read = read; finished = false }) result }
{
    match newline_in(front(bytes, LINE + 1)) {
        Some(place) => {
            if read + place as u64 >= SCRIPT {
                return Err(ReadFault::Bad(Fault::Size));
            }
            Ok(Some(place))
        }
        None => look_open(read, bytes),
    }
}

// The line of these bytes, which may end with its newline.
fn line_of(bytes: List<u8>, newline: bool) -> ScriptLine
    ensures newline { result.newline ≡ newline }
    ensures text { result.text ≡ take (length bytes - (if newline then 1 else 0)) bytes }
{
    let mut text = bytes;
    if newline {
        text.truncate(text.len().saturating_sub(1));
    }
    ScriptLine { text, newline }
}

impl Input {
    /// Nothing is taken yet.
    pub fn new(alloc: Global) -> Input
        ensures { result ≡ record { bytes = []; read = 0; finished = false } }
    {
        Input {
            held: Held::new(alloc),
            read: 0,
        }
    }

    // What is seen of the next line: where its newline stands, if it is at hand.
    fn look(&self) -> Result<Option<usize>, ReadFault>
        ensures sees { SeesNext self.now result }
        ensures few { self.now.read + length self.now.bytes ≤ most_bytes + 1 }
    {
        look_at(self.read, self.held.bytes())
    }

    // Takes some bytes of the source, at most up to the first beyond the script's limit. Says whether there were any.
    fn take_some<S: Source>(&mut self, script: &mut S) -> Result<bool, ReadFault>
        requires { IsOpen self.old }
        ensures takes { TakesOn self.old self.new (S.left script.old) (S.left script.new) }
        ensures some { IfOk result (λ some. some ≡ true → length self.old.bytes < length self.new.bytes) }
        ensures end { IfOk result (λ some. some ≡ false → (self.new ≡ self.old) × IsAtEnd (S.left script.new)) }
        ensures err { OnErr result (self.new ≡ self.old) }
        ensures later { S.faults script.old ≤ S.faults script.new }
        ensures cause { result ≡ Err ReadFault.Failed → Rose (S.faults script.old) (S.faults script.new) }
        ensures kept { OnOk result (S.faults script.new ≡ S.faults script.old) }
        ensures risen { S.faults script.old < S.faults script.new → result ≡ Err ReadFault.Failed }
        ensures faults { IfErr result (λ fault. IsNotBad fault) }
        ensures few { self.new.read + length self.new.bytes ≤ most_bytes + 1 }
    {
        let room = SCRIPT + 1 - self.read - self.held.len() as u64;
        let most = room.min(CHUNK as u64) as usize;
        match self.held.take_some(script, most) {
            Ok(some) => Ok(some),
            Err(TakeFault::Failed) => Err(ReadFault::Failed),
            Err(TakeFault::NoMemory) => Err(ReadFault::NoMemory),
        }
    }

    // Takes bytes until the next line's newline is at hand, and says where it stands; there is none only at the end
    // of the source.
    fn fill<S: Source>(&mut self, script: &mut S) -> Result<Option<usize>, ReadFault>
        requires { self.old.finished ≡ false }
        ensures takes { TakesOn self.old self.new (S.left script.old) (S.left script.new) }
        ensures found { IfOk result (λ place. HasFound self.new (S.left script.new) place) }
        ensures fault { IfErr result (λ fault. MeansFault fault self.old.read
            (to_read self.new (S.left script.new)) self.new) }
        ensures few { self.new.read + length self.new.bytes ≤ most_bytes + 1 }
        ensures later { S.faults script.old ≤ S.faults script.new }
        ensures cause { result ≡ Err ReadFault.Failed → Rose (S.faults script.old) (S.faults script.new) }
        ensures kept { OnOk result (S.faults script.new ≡ S.faults script.old) }
        ensures risen { S.faults script.old < S.faults script.new → result ≡ Err ReadFault.Failed }
    {
        loop {
            match self.look() {
                Ok(None) => {}
                seen => return seen,
            }
            match self.take_some(script) {
                Ok(true) => {}
                Ok(false) => return Ok(None),
                Err(fault) => return Err(fault),
            }
        }
    }

    // Gives the line whose newline stands at this place, or where there is none all that is held as the last line, if
    // any.
    fn cut(&mut self, place: Option<usize>) -> Result<Option<ScriptLine>, AllocError>
        requires line { IfSome place (λ at. IsLineAt self.old at) }
        requires last { IfNone place (IsOpen self.old) }
        ensures cuts { IfOk result (λ line. Cuts self.old self.new place line) }
        ensures err { OnErr result (self.new ≡ self.old) }
        ensures few { self.new.read + length self.new.bytes ≤ most_bytes + 1 }
    {
        let Some(bytes) = self.held.cut(place)? else {
            return Ok(None);
        };
        self.read += bytes.len() as u64;
        Ok(Some(line_of(bytes, place.is_some())))
    }

    /// Reads the next line; there is none at the end of the source. The source is that of all earlier calls. It is
    /// asked for bytes only where no whole line is at hand.
    pub fn next_line<S: Source>(&mut self, script: &mut S) -> Result<Option<ScriptLine>, ReadFault>
        ensures line { IfOk result (λ line. HandsOut self.old self.new (S.left script.old) (S.left script.new) line) }
        ensures fault { IfErr result (λ fault. MeansFault fault self.old.read
            (to_read self.old (S.left script.old)) self.new) }
        ensures takes { OnErr result (TakesOn self.old self.new (S.left script.old) (S.left script.new)) }
        ensures few { self.new.read + length self.new.bytes ≤ most_bytes + 1 }
        ensures later { S.faults script.old ≤ S.faults script.new }
        ensures cause { result ≡ Err ReadFault.Failed → Rose (S.faults script.old) (S.faults script.new) }
        ensures kept { OnOk result (S.faults script.new ≡ S.faults script.old) }
        ensures risen { S.faults script.old < S.faults script.new → result ≡ Err ReadFault.Failed }
    {
        if self.held.is_finished() {
            return Ok(None);
        }
        let place = match self.fill(script) {
            Ok(place) => place,
            Err(fault) => return Err(fault),
        };
        match self.cut(place) {
            Ok(line) => Ok(line),
            Err(AllocError) => Err(ReadFault::NoMemory),
        }
    }
}
