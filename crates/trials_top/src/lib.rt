//! The top call, and the replay of a journal, under their own contracts, one function each: the must-fail edits put
//! wrong bodies in their place.
//!
//! The clauses of each function are word for word those of the call, so what they refuse, the call's contract refuses.
#![tactic(auto)]

ghost use Rattle.std.specs.Prelude.{◌≡◌, ◌≢◌, ◌↔◌, string_bytes, map, true, false, ℕ, Some, None};
ghost use Rattle.swarm_command.specs.CommandLine.{form_of, is_replay, made_number, run_number, run_workers, usage};
ghost use Rattle.swarm_input.specs.Streams.{stream, PutsUnlessFailed};
ghost use Rattle.swarm_replay.specs.Replay.{IsReplay};
ghost use Rattle.swarm_top.specs.Make.{IsMake, IsMakeRun};
ghost use Rattle.swarm_top.specs.Theorem.{IsRun};

use std::alloc::Global;
use std::sync::Wait;
use std::thread::Threads;
use swarm_objects::{Gate, Sink, Source};

/// `swarm_top::swarm`.
pub fn swarm<R, S, O, J, G>(
    rt: &R,
    alloc: Global,
    words: &[String],
    script: &mut S,
    out: &mut O,
    journal: &mut J,
    gate: &G,
) -> u8
where
    R: Threads + Wait + Sync,
    S: Source,
    O: Sink,
    J: Sink,
    G: Gate + Sync,
    ensures words { let given = map (λ word. string_bytes word) words.now in
        result ≡ 2 ↔ (form_of given ≡ None) }
    ensures run { (workers : ℕ) → run_workers (map (λ word. string_bytes word) words.now) ≡ Some workers →
        IsRun workers (stream S.left S.faults script.old script.new) (stream O.written O.faults out.old out.new)
        (stream J.written J.faults journal.old journal.new) result }
    ensures replay { is_replay (map (λ word. string_bytes word) words.now) ≡ true →
        IsReplay (stream S.left S.faults script.old script.new) (stream O.written O.faults out.old out.new) result }
    ensures make { (number : ℕ) → made_number (map (λ word. string_bytes word) words.now) ≡ Some number →
        IsMake number (stream O.written O.faults out.old out.new) result }
    ensures make_run { (number : ℕ) → run_number (map (λ word. string_bytes word) words.now) ≡ Some number →
        IsMakeRun number (stream O.written O.faults out.old out.new) result }
    ensures usage { result ≡ 2 → PutsUnlessFailed (stream O.written O.faults out.old out.new) usage }
    ensures unread { result ≡ 2 → script.new ≡ script.old }
    ensures untouched { let given = map (λ word. string_bytes word) words.now in
        run_workers given ≡ None → is_replay given ≡ false → script.new ≡ script.old }
    ensures unwritten { run_workers (map (λ word. string_bytes word) words.now) ≡ None → journal.new ≡ journal.old }
{
    let status = swarm_top::swarm(rt, alloc, words, script, out, journal, gate);
    status
}

/// `swarm_replay::replay`.
pub fn replay<S: Source, O: Sink>(alloc: Global, source: &mut S, out: &mut O) -> u8
    ensures replay { IsReplay (stream S.left S.faults source.old source.new)
        (stream O.written O.faults out.old out.new) result }
    ensures words { result ≢ 2 }
{
    let status = swarm_replay::replay(alloc, source, out);
    status
}
