// A script's lines, each called and answered.
ghost use Rattle.std.specs.Prelude.{◌≡◌, ◌≢◌, ◌<◌, ◌≤◌, ℕ, List, Option, IfOk, OnOk, Err};
ghost use Rattle.script_grammar.specs.Lines.{meaning_of};
ghost use Rattle.swarm_input.specs.Script.{in_text};
ghost use Rattle.swarm_lines.specs.Fitting.{IsFitLine};
ghost use Rattle.swarm_lines.specs.Inside.LineSteps.{DoesLine, PutsAnswer, PutsReply, SaysLine, ending_by};
ghost use Rattle.swarm_lines.specs.Serial.{is_refused};
ghost use Rattle.swarm_objects.specs.Outside.{HasCause, PutsPiece, Rose};
ghost use Rattle.turn_cell.specs.Passes.{number_of, seen, IsPassOf};

use crate::caller;
use crate::endings::Ending;
use crate::stretches::{take_duties, wait};
use crate::unanswered::Unanswered;
use script_grammar::{Line, LineFault};
use script_reader::read_line;
use std::alloc::Global;
use std::sync::Wait;
use swarm_cluster::{Cluster, Pass};
use swarm_input::Fault;
use swarm_objects::{Call, Failed, Ms, Reply, Sink};
use swarm_print::reply_text;

fn is_refused(reply: &Reply) -> bool
    ensures { result ≡ is_refused reply.now }
{
    matches!(reply, Reply::Refused(_))
}

// How the run ends where a call or a duty is no entry.
fn ending_by(cause: Unanswered) -> Ending
    ensures { result ≡ ending_by cause }
{
    match cause {
        Unanswered::Full => Ending::Full,
        Unanswered::NoMemory => Ending::NoMemory,
    }
}

// Puts a text, if it isn't empty.
fn put_text<O: Sink>(out: &mut O, text: &[u8]) -> Result<(), Failed>
    ensures bytes { PutsPiece (O.written out.old) (O.written out.new) text.now result }
    ensures cause { HasCause (O.faults out.old) (O.faults out.new) result }
{
    if text.is_empty() {
        return Ok(());
    }
    out.put(text)
}

// Puts the text of a reply. Says whether it was a refusal, or how the run ends.
fn put_reply<O: Sink>(alloc: Global, out: &mut O, reply: &Reply) -> Result<bool, Ending>
    ensures puts { PutsReply reply.now result (O.written out.old) (O.written out.new) }
    ensures later { O.faults out.old ≤ O.faults out.new }
    ensures cause { result ≡ Err Ending.OutFault → Rose (O.faults out.old) (O.faults out.new) }
    ensures kept { OnOk result (O.faults out.new ≡ O.faults out.old) }
    ensures risen { O.faults out.old < O.faults out.new → result ≡ Err Ending.OutFault }
{
    let text = match reply_text(alloc, reply) {
        Ok(text) => text,
        Err(_) => return Err(Ending::NoMemory),
    };
    match put_text(out, text.as_slice()) {
        Ok(()) => Ok(is_refused(reply)),
        Err(_) => Err(Ending::OutFault),
    }
}

// Puts the text of what a call was answered. Says whether it was refused, or how the run ends.
fn put_answer<O: Sink>(
    alloc: Global,
    out: &mut O,
    answered: &Result<Reply, Unanswered>,
) -> Result<bool, Ending>
    ensures puts { PutsAnswer answered.now result (O.written out.old) (O.written out.new) }
    ensures later { O.faults out.old ≤ O.faults out.new }
    ensures cause { result ≡ Err Ending.OutFault → Rose (O.faults out.old) (O.faults out.new) }
    ensures kept { OnOk result (O.faults out.new ≡ O.faults out.old) }
    ensures risen { O.faults out.old < O.faults out.new → result ≡ Err Ending.OutFault }
{
    match answered {
        Ok(reply) => put_reply(alloc, out, reply),
        Err(Unanswered::Full) => Err(Ending::Full),
        Err(Unanswered::NoMemory) => Err(Ending::NoMemory),
    }
}

// Makes a line's call and puts the text of its reply. Says whether it was refused, or how the run ends.
fn answer<R: Wait, O: Sink>(
    rt: &R,
    alloc: Global,
    cluster: &Cluster,
    pass: &mut Pass,
    out: &mut O,
    call: Call,
) -> Result<bool, Ending>
    requires pass { IsPassOf cluster.now.cell pass.old × (number_of pass.old ≡ 0) }
    ensures pass { IsPassOf cluster.now.cell pass.new × (number_of pass.new ≡ 0) }
    ensures line { DoesLine result (Line.Call call) (seen pass.old) (seen pass.new) (O.written out.old)
        (O.written out.new) }
    ensures later { O.faults out.old ≤ O.faults out.new }
    ensures cause { result ≡ Err Ending.OutFault → Rose (O.faults out.old) (O.faults out.new) }
    ensures kept { OnOk result (O.faults out.new ≡ O.faults out.old) }
    ensures risen { O.faults out.old < O.faults out.new → result ≡ Err Ending.OutFault }
{
    let answered = caller::call(rt, cluster, pass, call);
    let put = put_answer(alloc, out, &answered);
    drop(answered);
    put
}

// Does a settle line: the duties, in a pause of the workers, and then the call that asks.
fn settle<R: Wait, O: Sink>(
    rt: &R,
    alloc: Global,
    cluster: &Cluster,
    pass: &mut Pass,
    out: &mut O,
    budget: u64,
) -> Result<bool, Ending>
    requires pass { IsPassOf cluster.now.cell pass.old × (number_of pass.old ≡ 0) }
    ensures pass { IsPassOf cluster.now.cell pass.new × (number_of pass.new ≡ 0) }
    ensures line { DoesLine result (Line.Settle budget) (seen pass.old) (seen pass.new) (O.written out.old)
        (O.written out.new) }
    ensures later { O.faults out.old ≤ O.faults out.new }
    ensures cause { result ≡ Err Ending.OutFault → Rose (O.faults out.old) (O.faults out.new) }
    ensures kept { OnOk result (O.faults out.new ≡ O.faults out.old) }
    ensures risen { O.faults out.old < O.faults out.new → result ≡ Err Ending.OutFault }
{
    let _pause = cluster.pause();
    match take_duties(rt, cluster, pass, budget) {
        Ok(_) => answer(rt, alloc, cluster, pass, out, Call::Settle(budget)),
        Err(cause) => Err(ending_by(cause)),
    }
}

// Does a wait line, in a pause of the workers. It puts nothing out.
fn wait_out<R: Wait>(rt: &R, cluster: &Cluster, pass: &mut Pass, ms: Ms) -> Result<bool, Ending>
    requires pass { IsPassOf cluster.now.cell pass.old × (number_of pass.old ≡ 0) }
    ensures pass { IsPassOf cluster.now.cell pass.new × (number_of pass.new ≡ 0) }
    ensures line { (out : Option (List ℕ)) → DoesLine result (Line.Wait ms) (seen pass.old) (seen pass.new) out out }
    ensures other { result ≢ Err Ending.OutFault }
{
    let _pause = cluster.pause();
    match wait(rt, cluster, pass, ms) {
        Ok(()) => Ok(false),
        Err(cause) => Err(ending_by(cause)),
    }
}

/// Does what a line says. Says whether a call of it was refused, or how the run ends.
pub fn take_line<R: Wait, O: Sink>(
    rt: &R,
    alloc: Global,
    cluster: &Cluster,
    pass: &mut Pass,
    out: &mut O,
    said: Line,
) -> Result<bool, Ending>
    requires pass { IsPassOf cluster.now.cell pass.old × (number_of pass.old ≡ 0) }
    ensures pass { IsPassOf cluster.now.cell pass.new × (number_of pass.new ≡ 0) }
    ensures line { DoesLine result said (seen pass.old) (seen pass.new) (O.written out.old) (O.written out.new) }
    ensures later { O.faults out.old ≤ O.faults out.new }
    ensures cause { result ≡ Err Ending.OutFault → Rose (O.faults out.old) (O.faults out.new) }
    ensures kept { OnOk result (O.faults out.new ≡ O.faults out.old) }
    ensures risen { O.faults out.old < O.faults out.new → result ≡ Err Ending.OutFault }
{
    match said {
        Line::Blank => Ok(false),
        Line::Call(call) => answer(rt, alloc, cluster, pass, out, call),
        Line::Settle(budget) => settle(rt, alloc, cluster, pass, out, budget),
        Line::Wait(ms) => wait_out(rt, cluster, pass, ms),
    }
}

/// Reads a line's text, or says how the run ends there.
pub fn say(alloc: Global, number: u64, line: &[u8]) -> Result<Line, Ending>
    ensures says { SaysLine number (in_text (meaning_of line.now)) result }
    ensures fit { IfOk result IsFitLine }
{
    match read_line(alloc, line) {
        Ok(said) => Ok(said),
        Err(LineFault::NoMemory) => Err(Ending::NoMemory),
        Err(fault) => Err(Ending::BadLine(number, Fault::Text(fault))),
    }
}
