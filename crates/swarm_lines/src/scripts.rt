// A script, read to its end, and how the reading ended.
ghost use Rattle.std.specs.Prelude.{◌≡◌, [], ◌≤◌};
ghost use Rattle.swarm_input.specs.Streams.{stream};
ghost use Rattle.swarm_lines.specs.Endings.{ending_of, whole_ending, TellsEnding};
ghost use Rattle.swarm_lines.specs.ScriptSteps.{IsRead};
ghost use Rattle.swarm_model.specs.Own.{own};
ghost use Rattle.turn_cell.specs.Passes.{number_of, seen, IsPassOf};

use crate::endings::Ending;
use crate::lines::{say, take_line};
use std::alloc::Global;
use std::sync::Wait;
use swarm_cluster::{Cluster, Pass};
use swarm_input::{Fault, Input, ReadFault, bad_line};
use swarm_objects::{Sink, Source};

// How the run ends by a fault of the reader at the line with this number.
fn ending_of(number: u64, fault: ReadFault) -> Ending
    ensures { result ≡ ending_of number fault }
{
    match fault {
        ReadFault::Failed => Ending::ReadFault,
        ReadFault::Bad(fault) => Ending::BadLine(number, fault),
        ReadFault::NoMemory => Ending::NoMemory,
    }
}

// How the run ends after the whole script.
fn whole_ending(refused: bool) -> Ending
    ensures { result ≡ whole_ending refused }
{
    if refused {
        Ending::Refused
    } else {
        Ending::Done
    }
}

/// Reads the script to its end, and does what each line says. Says how that ended.
pub fn read_script<R: Wait, S: Source, O: Sink>(
    rt: &R,
    alloc: Global,
    cluster: &Cluster,
    pass: &mut Pass,
    script: &mut S,
    out: &mut O,
) -> Ending
    requires pass { IsPassOf cluster.now.cell pass.old × (number_of pass.old ≡ 0) }
    requires none { own 0 (seen pass.old) ≡ [] }
    ensures pass { IsPassOf cluster.now.cell pass.new × (number_of pass.new ≡ 0) }
    ensures read { IsRead result (stream S.left S.faults script.old script.new) (stream O.written O.faults out.old
        out.new) (seen pass.new) }
{
    let mut input = Input::new(alloc);
    let mut refused = false;
    let mut number = 0u64;
    loop {
        let line = match input.next_line(script) {
            Ok(Some(line)) => line,
            Ok(None) => return whole_ending(refused),
            Err(fault) => return ending_of(number + 1, fault),
        };
        number += 1;
        let said = match say(alloc, number, line.text.as_slice()) {
            Ok(said) => said,
            Err(ending) => return ending,
        };
        match take_line(rt, alloc, cluster, pass, out, said) {
            Ok(answer) => refused |= answer,
            Err(ending) => return ending,
        }
    }
}

// Puts the line that tells the first line outside the grammar. Says how the run ends then.
fn put_bad_line<O: Sink>(alloc: Global, out: &mut O, number: u64, fault: Fault) -> Ending
    ensures tells { TellsEnding (Ending.BadLine number fault) result (stream O.written O.faults out.old out.new) }
    ensures later { O.faults out.old ≤ O.faults out.new }
{
    let Ok(text) = bad_line(alloc, number, &fault) else {
        return Ending::NoMemoryAt(number, fault);
    };
    // the status stands, also where this can't be put
    match out.put(text.as_bytes()) {
        Ok(()) => Ending::BadLine(number, fault),
        Err(_) => Ending::BadLine(number, fault),
    }
}

/// Puts how the reading ended, where that has a text. Says how the run ends then.
pub fn tell_ending<O: Sink>(alloc: Global, out: &mut O, ending: Ending) -> Ending
    ensures tells { TellsEnding ending result (stream O.written O.faults out.old out.new) }
    ensures later { O.faults out.old ≤ O.faults out.new }
{
    match ending {
        Ending::BadLine(number, fault) => put_bad_line(alloc, out, number, fault),
        other => other,
    }
}
