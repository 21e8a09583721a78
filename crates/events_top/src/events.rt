// A journal gone over entry by entry, with a line of events for each.
ghost use Rattle.std.specs.Prelude.{◌≡◌, ◌⊎◌, [], ◌<◌, false, IfOk, IsTrue, OnOk, Err};
ghost use Rattle.events_top.specs.Endings.{ending_text, why_not};
ghost use Rattle.events_top.specs.Events.{IsEvents, TellsEnding};
ghost use Rattle.events_top.specs.Inside.Steps.{DoesBoth, PutsEnding, PutsTold, TellsEntry, TellsJournal, TellsLine, TellsRead, TellsStep, is_fault, told_status};
ghost use Rattle.script_grammar.specs.HasText.{has_text};
ghost use Rattle.swarm_input.specs.Streams.{HasRisen, stream};
ghost use Rattle.swarm_model.specs.History.{step};
ghost use Rattle.swarm_model.specs.Outcome.{Gives};
ghost use Rattle.swarm_objects.specs.World.{World, empty_world};

use crate::endings::{Ending, ending_text, why_not};
use events_text::entry_line;
use script_grammar::LineFault;
use script_reader::read_entry;
use std::alloc::Global;
use swarm_duties::{Replay, StepFault};
use swarm_input::WriteFault;
use swarm_objects::limits::MOST_ENTRIES;
use swarm_objects::{Entry, List, Reply, Sink, Source};
use swarm_replay::entry_lines::EntryLines;
use swarm_replay::{EntryFault, Verdict, read_end, read_head, stopped};

/// As many entries as a whole history can have.
const MOST: u64 = MOST_ENTRIES + 1;

// Makes the line of an entry that was done on the world after it, and does it on the world before it too.
fn tell_step(
    alloc: Global,
    before: &mut Replay,
    entry: &Entry,
    reply: &Reply,
    after: &Replay,
) -> Result<List<u8>, Verdict>
    requires text { IsTrue (has_text entry.now) }
    requires step { Gives (step before.old entry.now.what) reply.now after.now }
    ensures { TellsStep before.old entry.now after.now result before.new }
{
    let Ok(text) = entry_line(alloc, before.plain(), entry, reply, after.plain()) else {
        return Err(Verdict::NoMemory);
    };
    match before.step(&entry.what) {
        Ok(_) => Ok(text),
        Err(_) => Err(Verdict::NoMemory),
    }
}

// Does an entry after so many on both worlds, which are equal, and makes its line, or says how the reading ends there.
fn do_entry(
    alloc: Global,
    before: &mut Replay,
    after: &mut Replay,
    count: u64,
    entry: &Entry,
) -> Result<List<u8>, Verdict>
    requires count { count < 300001 }
    requires text { IsTrue (has_text entry.now) }
    requires same { before.old ≡ after.old }
    ensures { DoesBoth count after.old entry.now result before.new after.new }
{
    match after.step(&entry.what) {
        Ok(reply) => {
            let told = tell_step(alloc, before, entry, &reply, after);
            drop(reply);
            told
        }
        Err(StepFault::Illegal) => Err(Verdict::Illegal(count + 1)),
        Err(StepFault::NoMemory) => Err(Verdict::NoMemory),
    }
}

// Does the entry that a line was read as, or says how the reading ends there.
fn do_read(
    alloc: Global,
    before: &mut Replay,
    after: &mut Replay,
    count: u64,
    read: &Result<Entry, LineFault>,
) -> Result<List<u8>, Verdict>
    requires count { count < 300001 }
    requires text { IfOk read.now (λ entry. IsTrue (has_text entry)) }
    requires same { before.old ≡ after.old }
    ensures { TellsRead count after.old read.now result before.new after.new }
{
    match read {
        Ok(entry) => do_entry(alloc, before, after, count, entry),
        Err(LineFault::NoMemory) => Err(Verdict::NoMemory),
        Err(fault) => Err(Verdict::BadLine(count + 2, EntryFault::Text(*fault))),
    }
}

// Reads the line of an entry, does it and makes its line of events, or says how the reading ends there.
fn take_entry(
    alloc: Global,
    before: &mut Replay,
    after: &mut Replay,
    count: u64,
    line: &[u8],
) -> Result<List<u8>, Verdict>
    requires count { count < 300001 }
    requires same { before.old ≡ after.old }
    ensures { TellsEntry count after.old line.now result before.new after.new }
{
    let read = read_entry(alloc, line);
    let told = do_read(alloc, before, after, count, &read);
    drop(read);
    told
}

// Puts the line of events, where there is one.
fn put_told<O: Sink>(out: &mut O, told: &Result<List<u8>, Verdict>) -> Result<(), Ending>
    ensures puts { PutsTold told.now result (stream O.written O.faults out.old out.new) }
    ensures kept { OnOk result (O.faults out.new ≡ O.faults out.old) }
    ensures risen { O.faults out.old < O.faults out.new → result ≡ Err Ending.OutFault }
{
    match told {
        Ok(text) => match out.put(text.as_slice()) {
            Ok(()) => Ok(()),
            Err(_) => Err(Ending::OutFault),
        },
        Err(verdict) => Err(Ending::Judged(*verdict)),
    }
}

// Reads the line of an entry, does it and puts its line of events, or says how the reading ends there.
fn tell_line<O: Sink>(
    alloc: Global,
    before: &mut Replay,
    after: &mut Replay,
    count: u64,
    line: &[u8],
    out: &mut O,
) -> Result<(), Ending>
    requires count { count < 300001 }
    requires same { before.old ≡ after.old }
    ensures tells { TellsLine count after.old line.now result before.new after.new
        (stream O.written O.faults out.old out.new) }
    ensures kept { OnOk result (O.faults out.new ≡ O.faults out.old) }
    ensures risen { O.faults out.old < O.faults out.new → result ≡ Err Ending.OutFault }
{
    let told = take_entry(alloc, before, after, count, line);
    let done = put_told(out, &told);
    drop(told);
    done
}

// Reads a journal line by line, does each entry in turn and puts its line of events, and says how that ended. Both
// worlds are those after the entries so far.
fn tell_entries<S: Source, O: Sink>(
    alloc: Global,
    input: &mut EntryLines,
    before: &mut Replay,
    after: &mut Replay,
    source: &mut S,
    out: &mut O,
) -> Ending
    requires held { input.old ≡ record { bytes = []; finished = false } }
    requires before { before.old ≡ empty_world }
    requires after { after.old ≡ empty_world }
    ensures tells { TellsJournal result (stream S.left S.faults source.old source.new)
        (stream O.written O.faults out.old out.new) after.new }
    ensures risen { HasRisen (stream O.written O.faults out.old out.new) → result ≡ Ending.OutFault }
{
    match read_head(input, source) {
        Ok(()) => {}
        Err(verdict) => return Ending::Judged(verdict),
    }
    let mut count = 0u64;
    while count < MOST {
        let line = match input.next_line(source) {
            Ok(Some(line)) => line,
            Ok(None) => return Ending::Judged(Verdict::Legal(count)),
            Err(stop) => return Ending::Judged(stopped(count + 2, stop)),
        };
        match tell_line(alloc, before, after, count, line.as_slice(), out) {
            Ok(()) => {}
            Err(ending) => return ending,
        }
        count += 1;
    }
    Ending::Judged(read_end(input, source, count))
}

// How the going over a journal ended, and why an entry that came next would not be legal.
#[derive(Clone, Copy)]
struct Told {
    ending: Ending,
    why: &'static str,
}

// Goes over the journal that the source has left. No list of entries is kept.
fn tell_journal<S: Source, O: Sink>(alloc: Global, source: &mut S, out: &mut O) -> Told
    ensures tells { (w : World) × (result.why.now ≡ why_not w)
        × TellsJournal result.ending (stream S.left S.faults source.old source.new)
        (stream O.written O.faults out.old out.new) w }
    ensures risen { HasRisen (stream O.written O.faults out.old out.new) → result.ending ≡ Ending.OutFault }
{
    let mut input = EntryLines::new(alloc);
    let mut before = Replay::new(alloc);
    let mut after = Replay::new(alloc);
    let ending = tell_entries(alloc, &mut input, &mut before, &mut after, source, out);
    let why = why_not(after.plain());
    drop(after);
    drop(before);
    drop(input);
    Told { ending, why }
}

// Puts what tells the ending.
fn put_ending<E: Sink>(
    alloc: Global,
    err: &mut E,
    ending: Ending,
    why: &str,
) -> Result<(), WriteFault>
    ensures bytes { PutsEnding result (stream E.written E.faults err.old err.new) (ending_text ending why.now) }
    ensures risen { HasRisen (stream E.written E.faults err.old err.new) → result ≡ Err WriteFault.Failed }
{
    let Ok(text) = ending_text(alloc, ending, why) else {
        return Err(WriteFault::NoMemory);
    };
    match err.put(text.as_bytes()) {
        Ok(()) => Ok(()),
        Err(_) => Err(WriteFault::Failed),
    }
}

fn told_status(ending: Ending, told: Result<(), WriteFault>) -> u8
    ensures { result ≡ told_status ending told }
{
    match told {
        Err(WriteFault::NoMemory) => 5,
        Ok(()) | Err(WriteFault::Failed) => ending.status(),
    }
}

// It is a fault of the journal.
fn is_fault(ending: Ending) -> bool
    ensures { result ≡ is_fault ending }
{
    matches!(
        ending,
        Ending::Judged(Verdict::Illegal(_) | Verdict::BadLine(_, _))
    )
}

// Puts what tells the ending, where it is a fault of the journal, and gives the status.
fn tell_ending<E: Sink>(alloc: Global, err: &mut E, ending: Ending, why: &str) -> u8
    ensures tells { (w : World) → why.now ≡ why_not w →
        TellsEnding ending w (stream E.written E.faults err.old err.new) result }
    ensures risen { HasRisen (stream E.written E.faults err.old err.new) → (result ≡ 6) ⊎ (result ≡ 8) }
{
    if is_fault(ending) {
        told_status(ending, put_ending(alloc, err, ending, why))
    } else {
        ending.status()
    }
}

/// Goes over the journal that the source has left, as a replay does: puts a line of events to `out` for each entry, up
/// to the first that can't be read or may not follow. What ends the reading before the journal's end is told to `err`
/// as a replay tells it, and of an entry that may not follow also why. Gives the exit status, which is a replay's.
pub fn tell_events<S: Source, O: Sink, E: Sink>(
    alloc: Global,
    source: &mut S,
    out: &mut O,
    err: &mut E,
) -> u8
    ensures { IsEvents (stream S.left S.faults source.old source.new)
        (stream O.written O.faults out.old out.new) (stream E.written E.faults err.old err.new) result }
{
    let told = tell_journal(alloc, source, out);
    tell_ending(alloc, err, told.ending, told.why)
}
