// A number's script, and the line that sums up its run.
ghost use Rattle.std.specs.Prelude.{◌≡◌, ◌≢◌, ◌≤◌, IfOk, None, length, string_bytes};
ghost use Rattle.script_maker.specs.Script.{most_number};
ghost use Rattle.swarm_input.specs.Script.{reading};
ghost use Rattle.swarm_input.specs.Streams.{stream};
ghost use Rattle.swarm_lines.specs.Endings.{exit_status};
ghost use Rattle.swarm_model.specs.History.{IsLegal, replay};
ghost use Rattle.swarm_top.specs.Inside.Makes.{PutsAs, is_whole, put_status};
ghost use Rattle.swarm_top.specs.Make.{IsMake, IsMakeRun, IsSummed};
ghost use Rattle.swarm_top.specs.Summary.{summary};

use crate::runs::run_beside;
use crate::summaries::summary_of;
use script_maker::script;
use std::alloc::{AllocError, Global};
use std::sync::Wait;
use std::thread::Threads;
use swarm_lines::Ending;
use swarm_objects::{Failed, Gate, NoMemory, PlainSink, PlainSource, Sink};
use swarm_world::World;

// The status where all that is left to do was to put a text.
fn put_status(put: Result<(), Failed>, ending: Ending) -> u8
    ensures { result ≡ put_status put (exit_status ending) }
{
    match put {
        Ok(()) => ending.status(),
        Err(_) => Ending::OutFault.status(),
    }
}

// Puts the text. Gives the status, which is that of the ending where the sink takes it.
fn put_text<O: Sink>(out: &mut O, text: &[u8], ending: Ending) -> u8
    ensures { PutsAs text.now (exit_status ending) (stream O.written O.faults out.old out.new) result }
{
    put_status(out.put(text), ending)
}

/// Puts the script of the number.
pub fn make<O: Sink>(alloc: Global, number: u64, out: &mut O) -> u8
    requires { number ≤ most_number }
    ensures make { IsMake number (stream O.written O.faults out.old out.new) result }
    ensures words { result ≢ 2 }
{
    match script(alloc, number) {
        Ok(text) => put_text(out, text.as_bytes(), Ending::Done),
        Err(_) => Ending::NoMemory.status(),
    }
}

// The reading came to the script's end.
fn is_whole(ending: Ending) -> bool
    ensures { result ≡ is_whole ending }
{
    match ending {
        Ending::Done | Ending::Refused => true,
        _ => false,
    }
}

// The line that sums up the world, which has so many entries.
fn sum_up(alloc: Global, world: World, entries: u64) -> Result<String, AllocError>
    requires legal { IsLegal world }
    requires entries { entries ≡ length world }
    ensures { IfOk result (λ text. string_bytes text ≡ summary (replay world)) }
{
    let text = summary_of(alloc, &world, entries);
    drop(world);
    text
}

// Puts the line that sums up a run that came to the script's end.
fn put_summary<O: Sink>(
    alloc: Global,
    world: World,
    entries: u64,
    out: &mut O,
    ending: Ending,
) -> u8
    requires legal { IsLegal world }
    requires entries { entries ≡ length world }
    ensures { PutsAs (summary (replay world)) (exit_status ending) (stream O.written O.faults out.old out.new) result }
{
    match sum_up(alloc, world, entries) {
        Ok(text) => put_text(out, text.as_bytes(), ending),
        Err(_) => Ending::NoMemory.status(),
    }
}

// Runs the script without workers, and puts the line that sums up what came of it.
fn run_text<R: Threads + Wait + Sync, O: Sink, G: Gate + Sync>(
    rt: &R,
    alloc: Global,
    text: String,
    out: &mut O,
    gate: &G,
) -> u8
    ensures { let script = reading (string_bytes text) in
        script.bad ≡ None → IsSummed script (stream O.written O.faults out.old out.new) result }
{
    let mut lines = PlainSource::new(text.into_bytes());
    let mut replies = PlainSink::new();
    let (ending, world) = match run_beside(rt, alloc, 0, &mut lines, &mut replies, gate) {
        Ok(back) => back,
        Err(NoMemory) => return Ending::NoMemory.status(),
    };
    let entries = world.len();
    if is_whole(ending) {
        put_summary(alloc, world, entries, out, ending)
    } else {
        drop(world);
        ending.status()
    }
}

/// Runs the script of the number, and puts the line that sums up what came of it. The replies aren't shown.
pub fn make_run<R: Threads + Wait + Sync, O: Sink, G: Gate + Sync>(
    rt: &R,
    alloc: Global,
    number: u64,
    out: &mut O,
    gate: &G,
) -> u8
    requires { number ≤ most_number }
    ensures make_run { IsMakeRun number (stream O.written O.faults out.old out.new) result }
    ensures words { result ≢ 2 }
{
    match script(alloc, number) {
        Ok(text) => run_text(rt, alloc, text, out, gate),
        Err(_) => Ending::NoMemory.status(),
    }
}
