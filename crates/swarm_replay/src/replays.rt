// A journal, replayed on the plain world.
ghost use Rattle.std.specs.Prelude.{◌≡◌, ◌≢◌, [], ◌<◌, ◌≤◌, length, codes, false, OnOk, Err};
ghost use Rattle.std.specs.Str.{bytes_eq};
ghost use Rattle.swarm_objects.specs.Outside.{Rose};
ghost use Rattle.swarm_objects.specs.World.{empty_world};
ghost use Rattle.swarm_replay.specs.Replay.{IsPutStatus, IsReplay, TellsVerdict, verdict_text};
ghost use Rattle.swarm_input.specs.Streams.{HasRisen, stream};
ghost use Rattle.swarm_replay.specs.Inside.ReplaySteps.{EndsFull, DoesEntry, DoesRead, IsJudged, IsStepped, ReadsHead, PutsText, TakesEntry, stopped, told_status, untold, without_reply};

use crate::entry_lines::{EntryLines, Stop};
use crate::verdicts::{EntryFault, Verdict, verdict_text};
use script_grammar::LineFault;
use script_reader::read_entry;
use std::alloc::Global;
use swarm_duties::{Replay, StepFault};
use swarm_input::WriteFault;
use swarm_objects::limits::MOST_ENTRIES;
use swarm_objects::{Entry, Reply, Sink, Source, What};

/// As many entries as a whole history can have.
const MOST: u64 = MOST_ENTRIES + 1;

fn is_head(line: &[u8]) -> bool
    ensures { result ≡ bytes_eq line.now (codes "swarm journal 1\n") }
{
    line == b"swarm journal 1\n".as_slice()
}

/// How the reading ends where the line with this number can't be read.
pub fn stopped(number: u64, stop: Stop) -> Verdict
    ensures { result ≡ stopped number stop }
{
    match stop {
        Stop::Failed => Verdict::ReadFault,
        Stop::Long => Verdict::BadLine(number, EntryFault::Text(LineFault::Long)),
        Stop::NoMemory => Verdict::NoMemory,
    }
}

/// Reads the head line, or says how the reading ends there. Nothing was read before.
pub fn read_head<S: Source>(input: &mut EntryLines, source: &mut S) -> Result<(), Verdict>
    requires { input.old ≡ record { bytes = []; finished = false } }
    ensures head { ReadsHead result input.old input.new (S.left source.old) (S.left source.new) }
    ensures few { length input.new.bytes ≤ 12320 }
    ensures later { S.faults source.old ≤ S.faults source.new }
    ensures cause { result ≡ Err Verdict.ReadFault → Rose (S.faults source.old) (S.faults source.new) }
    ensures kept { OnOk result (S.faults source.new ≡ S.faults source.old) }
    ensures risen { S.faults source.old < S.faults source.new → result ≡ Err Verdict.ReadFault }
{
    match input.next_line(source) {
        Ok(Some(line)) => {
            if is_head(line.as_slice()) {
                Ok(())
            } else {
                Err(Verdict::BadLine(1, EntryFault::Head))
            }
        }
        Ok(None) => Err(Verdict::BadLine(1, EntryFault::Head)),
        Err(Stop::Long) => Err(Verdict::BadLine(1, EntryFault::Head)),
        Err(Stop::Failed) => Err(Verdict::ReadFault),
        Err(Stop::NoMemory) => Err(Verdict::NoMemory),
    }
}

// What a step came to, its reply left out.
fn without_reply(stepped: &Result<Reply, StepFault>) -> Result<(), StepFault>
    ensures { result ≡ without_reply stepped.now }
{
    match stepped {
        Ok(_) => Ok(()),
        Err(fault) => Err(*fault),
    }
}

// Does an entry as the next one; nobody asks for its reply.
fn step(world: &mut Replay, what: &What) -> Result<(), StepFault>
    ensures { IsStepped world.old what.now result world.new }
{
    let stepped = world.step(what);
    let done = without_reply(&stepped);
    drop(stepped);
    done
}

// Does an entry after so many, or says how the reading ends there.
fn do_entry(world: &mut Replay, count: u64, what: &What) -> Result<(), Verdict>
    requires { count < 300001 }
    ensures { DoesEntry count world.old what.now result world.new }
{
    match step(world, what) {
        Ok(done) => Ok(done),
        Err(StepFault::Illegal) => Err(Verdict::Illegal(count + 1)),
        Err(StepFault::NoMemory) => Err(Verdict::NoMemory),
    }
}

// Does the entry that a line was read as, after so many, or says how the reading ends there.
fn do_read(world: &mut Replay, count: u64, read: &Result<Entry, LineFault>) -> Result<(), Verdict>
    requires { count < 300001 }
    ensures { DoesRead count world.old read.now result world.new }
{
    match read {
        Ok(entry) => do_entry(world, count, &entry.what),
        Err(LineFault::NoMemory) => Err(Verdict::NoMemory),
        Err(fault) => Err(Verdict::BadLine(count + 2, EntryFault::Text(*fault))),
    }
}

// Reads the line of an entry and does it, after so many entries, or says how the reading ends there.
fn take_entry(alloc: Global, world: &mut Replay, count: u64, line: &[u8]) -> Result<(), Verdict>
    requires { count < 300001 }
    ensures { TakesEntry count world.old line.now result world.new }
{
    let read = read_entry(alloc, line);
    let done = do_read(world, count, &read);
    drop(read);
    done
}

/// How the reading ends after as many entries as there can be: a byte more is a line too many.
pub fn read_end<S: Source>(input: &mut EntryLines, source: &mut S, count: u64) -> Verdict
    requires { count ≡ 300001 }
    ensures ends { EndsFull count result input.old input.new (S.left source.old) (S.left source.new) }
    ensures later { S.faults source.old ≤ S.faults source.new }
    ensures cause { result ≡ Verdict.ReadFault → Rose (S.faults source.old) (S.faults source.new) }
    ensures risen { S.faults source.old < S.faults source.new → result ≡ Verdict.ReadFault }
    ensures few { length input.new.bytes ≤ 12320 }
{
    match input.has_more(source) {
        Ok(true) => Verdict::BadLine(count + 2, EntryFault::Size),
        Ok(false) => Verdict::Legal(count),
        Err(stop) => stopped(count + 2, stop),
    }
}

// Reads a journal line by line and does each entry in turn, and says how that ended.
fn read_entries<S: Source>(
    alloc: Global,
    input: &mut EntryLines,
    world: &mut Replay,
    source: &mut S,
) -> Verdict
    requires held { input.old ≡ record { bytes = []; finished = false } }
    requires world { world.old ≡ empty_world }
    ensures { IsJudged result (stream S.left S.faults source.old source.new) }
{
    match read_head(input, source) {
        Ok(()) => {}
        Err(verdict) => return verdict,
    }
    let mut count = 0u64;
    while count < MOST {
        let line = match input.next_line(source) {
            Ok(Some(line)) => line,
            Ok(None) => return Verdict::Legal(count),
            Err(stop) => return stopped(count + 2, stop),
        };
        match take_entry(alloc, world, count, line.as_slice()) {
            Ok(()) => {}
            Err(verdict) => return verdict,
        }
        count += 1;
    }
    read_end(input, source, count)
}

/// Reads a journal line by line and does each entry in turn, and says how that ended. No list of entries is
/// kept.
pub fn read_journal<S: Source>(alloc: Global, source: &mut S) -> Verdict
    ensures { IsJudged result (stream S.left S.faults source.old source.new) }
{
    let mut input = EntryLines::new(alloc);
    let mut world = Replay::new(alloc);
    let verdict = read_entries(alloc, &mut input, &mut world, source);
    drop(world);
    drop(input);
    verdict
}

// Puts the line that tells the verdict.
fn put_verdict<O: Sink>(alloc: Global, out: &mut O, verdict: Verdict) -> Result<(), WriteFault>
    ensures bytes { PutsText result (stream O.written O.faults out.old out.new) (verdict_text verdict) }
    ensures risen { HasRisen (stream O.written O.faults out.old out.new) → result ≡ Err WriteFault.Failed }
{
    let Ok(text) = verdict_text(alloc, verdict) else {
        return Err(WriteFault::NoMemory);
    };
    match out.put(text.as_bytes()) {
        Ok(()) => Ok(()),
        Err(_) => Err(WriteFault::Failed),
    }
}

// The status where the line couldn't be put: only that everything is legal is then not said.
fn untold(verdict: Verdict) -> u8
    ensures { result ≡ untold verdict }
{
    match verdict {
        Verdict::Legal(_) => 4,
        _ => verdict.status(),
    }
}

fn told_status(verdict: Verdict, told: Result<(), WriteFault>) -> u8
    ensures { result ≡ told_status verdict told }
{
    match told {
        Ok(()) => verdict.status(),
        Err(WriteFault::NoMemory) => 5,
        Err(WriteFault::Failed) => untold(verdict),
    }
}

// Puts the line that tells the verdict, if it has one, and gives the status.
fn tell_verdict<O: Sink>(alloc: Global, out: &mut O, verdict: Verdict) -> u8
    ensures tells { TellsVerdict verdict (stream O.written O.faults out.old out.new) result }
    ensures risen { HasRisen (stream O.written O.faults out.old out.new) → IsPutStatus result }
{
    match verdict {
        Verdict::ReadFault | Verdict::NoMemory => verdict.status(),
        _ => told_status(verdict, put_verdict(alloc, out, verdict)),
    }
}

/// Replays the journal that the source has left, puts what was found to `out`, and gives the exit status.
pub fn replay<S: Source, O: Sink>(alloc: Global, source: &mut S, out: &mut O) -> u8
    ensures replay { IsReplay (stream S.left S.faults source.old source.new)
        (stream O.written O.faults out.old out.new) result }
    ensures words { result ≢ 2 }
{
    let verdict = read_journal(alloc, source);
    tell_verdict(alloc, out, verdict)
}
