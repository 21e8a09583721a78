// The bytes of a source that were taken and are no line's yet.
ghost use Rattle.std.specs.Prelude.{◌≡◌, [], ◌+◌, ◌<◌, ◌≤◌, length, take, drop, ◌||◌, is_none, IfOk, OnOk, OnErr, IfSome, IfNone, true, false, Err, vec_len, vec_capacity};
ghost use Rattle.std.specs.List.{position};
ghost use Rattle.std.specs.Io.KnownBytes.{IsAtEnd};
ghost use Rattle.swarm_objects.specs.Outside.{Rose};
ghost use Rattle.swarm_input.specs.Lines.{is_newline};
ghost use Rattle.swarm_input.specs.Script.{most_bytes};
ghost use Rattle.swarm_input.specs.Held.{CutsNext, IsNewlineAt, TakesMore, has_newline_in, line_size};

use std::alloc::{AllocError, Global};
use std::marker::Model;
use swarm_objects::{Failed, List, Source};

/// How many bytes are asked for at once.
pub const CHUNK: usize = 4_096;

/// Why no bytes were taken.
#[derive(Clone, Copy, Debug, PartialEq, Eq)]
pub enum TakeFault {
    /// The source failed.
    Failed,
    NoMemory,
}

impl From<AllocError> for TakeFault {
    ghost use Rattle.std.specs.Prelude.{◌≡◌};
    ghost use Rattle.swarm_input.specs.declared.held.TakeFault.TheVariants.{NoMemory};

    ghost from_gives = { λ _ e. e ≡ NoMemory };

    fn from(_: AllocError) -> TakeFault {
        TakeFault::NoMemory
    }
}

/// The bytes that were taken and not yet given, of a source that is read line by line.
#[derive(Drop)]
pub struct Held {
    alloc: Global,
    buffer: Vec<u8>,
    start: usize,
    finished: bool,
}

impl Model for Held {
    ghost use Rattle.std.specs.Prelude.{drop, ◌≤◌, vec_len};
    ghost use Rattle.swarm_input.specs.Held.{HeldBytes};

    ghost Value = { HeldBytes };

    ghost view = { λ h. record { bytes = drop h.start h.buffer.items; finished = h.finished } };

    ghost invariant = { λ h. h.start ≤ vec_len h.buffer };
}

/// Where the first newline stands.
pub fn newline_in(bytes: &[u8]) -> Option<usize>
    ensures { result ≡ position is_newline bytes.now }
{
    bytes.iter().position(|b| *b == b'\n')
}

// The same bytes, with room for a chunk behind them.
fn with_room(alloc: Global, bytes: &[u8]) -> Result<Vec<u8>, AllocError>
    requires { length bytes.now ≤ most_bytes + 1 }
    ensures items { IfOk result (λ buffer. buffer.items ≡ bytes.now) }
    ensures room { IfOk result (λ buffer. vec_len buffer + 4096 ≤ vec_capacity buffer) }
{
    let mut buffer = Vec::with_capacity(alloc, bytes.len() + CHUNK)?;
    buffer.extend_from_slice(bytes)?;
    Ok(buffer)
}

// The first bytes, so many.
fn first(bytes: &[u8], count: usize) -> &[u8]
    requires { count ≤ length bytes.now }
    ensures { result.now ≡ take count bytes.now }
{
    &bytes[..count]
}

fn copied(alloc: Global, bytes: &[u8]) -> Result<List<u8>, AllocError>
    ensures { IfOk result (λ same. same ≡ bytes.now) }
{
    let items = bytes.to_vec(alloc)?;
    Ok(List::from_vec(items))
}

// How many of so many bytes are the next line's, whose newline stands at this place, if it has one.
fn line_size(held: usize, place: Option<usize>) -> usize
    requires { IfSome place (λ at. at < held) }
    ensures { result ≡ line_size held place }
{
    match place {
        Some(place) => place + 1,
        None => held,
    }
}

impl Held {
    /// Nothing is taken yet.
    pub fn new(alloc: Global) -> Held
        ensures { result ≡ record { bytes = []; finished = false } }
    {
        Held {
            alloc,
            buffer: Vec::new(alloc),
            start: 0,
            finished: false,
        }
    }

    /// How many bytes are held.
    pub fn len(&self) -> usize
        ensures { result ≡ length self.now.bytes }
    {
        self.buffer.len() - self.start
    }

    /// The last line was given, and it had no newline.
    pub fn is_finished(&self) -> bool
        ensures { result ≡ self.now.finished }
    {
        self.finished
    }

    /// The bytes that are held.
    pub fn bytes(&self) -> &[u8]
        ensures { result.now ≡ self.now.bytes }
    {
        &self.buffer[self.start..]
    }

    /// Takes some bytes of the source, at most so many. Says whether there were any.
    pub fn take_some<S: Source>(&mut self, source: &mut S, most: usize) -> Result<bool, TakeFault>
        requires size { length self.old.bytes ≤ most_bytes + 1 }
        requires some { 0 < most }
        requires chunk { most ≤ 4096 }
        ensures takes { TakesMore self.old self.new (S.left source.old) (S.left source.new) }
        ensures some { IfOk result (λ some. some ≡ true → length self.old.bytes < length self.new.bytes) }
        ensures end { IfOk result (λ some. some ≡ false → (self.new ≡ self.old) × IsAtEnd (S.left source.new)) }
        ensures err { OnErr result (self.new ≡ self.old) }
        ensures few { length self.new.bytes ≤ length self.old.bytes + most }
        ensures later { S.faults source.old ≤ S.faults source.new }
        ensures cause { result ≡ Err TakeFault.Failed → Rose (S.faults source.old) (S.faults source.new) }
        ensures kept { OnOk result (S.faults source.new ≡ S.faults source.old) }
        ensures risen { S.faults source.old < S.faults source.new → result ≡ Err TakeFault.Failed }
    {
        // the room is made first, so that no byte is lost where memory is wanting
        let mut buffer = with_room(self.alloc, &self.buffer[self.start..])?;
        let mut chunk = [0u8; CHUNK];
        let count = match source.take(&mut chunk[..most]) {
            Ok(count) => count,
            Err(Failed) => return Err(TakeFault::Failed),
        };
        if count == 0 {
            return Ok(false);
        }
        buffer.extend_from_slice(&chunk[..count])?;
        self.buffer = buffer;
        self.start = 0;
        Ok(true)
    }

    // A copy of the first held bytes, so many.
    fn copy_first(&self, count: usize) -> Result<List<u8>, AllocError>
        requires { count ≤ length self.now.bytes }
        ensures { IfOk result (λ line. line ≡ take count self.now.bytes) }
    {
        copied(self.alloc, first(&self.buffer[self.start..], count))
    }

    // Gives up the first held bytes, so many; they may be the last line's, which has no newline.
    fn advance(&mut self, count: usize, last: bool)
        requires { count ≤ length self.old.bytes }
        ensures bytes { self.new.bytes ≡ drop count self.old.bytes }
        ensures finished { self.new.finished ≡ (self.old.finished || last) }
    {
        self.start += count;
        self.finished |= last;
    }

    /// Gives the bytes of the line whose newline stands at this place, with it, or where there is none all that is held
    /// as the last line, if any.
    pub fn cut(&mut self, place: Option<usize>) -> Result<Option<List<u8>>, AllocError>
        requires line { IfSome place (λ at. IsNewlineAt self.old.bytes at) }
        requires last { IfNone place (has_newline_in self.old.bytes ≡ false) }
        ensures cuts { IfOk result (λ line. CutsNext self.old self.new place line) }
        ensures err { OnErr result (self.new ≡ self.old) }
    {
        let count = line_size(self.len(), place);
        if count == 0 {
            return Ok(None);
        }
        let line = self.copy_first(count)?;
        self.advance(count, place.is_none());
        Ok(Some(line))
    }
}
