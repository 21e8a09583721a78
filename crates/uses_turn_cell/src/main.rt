//! A worked caller of the turn cell: two threads write into one log, each under a number of its own.
//!
//! However the threads take turns, the log that comes out at the end has of each caller exactly the entries that its
//! pass knows of. So what `close` says needs no lock to be looked into, and no test of interleavings.
#![tactic(auto)]

ghost use Rattle.std.specs.Prelude.{◌≡◌, length, IfOk};
ghost use Rattle.turn_cell.specs.Passes.{number_of, cell_seats, mine, IsPassOf};
ghost use Rattle.turn_cell.specs.Entries.{mine_of};

use std::alloc::Global;
use std::process::ExitCode;
use std::sync::Wait;
use std::thread;
use std::thread::Threads;
use swarm_objects::{List, NoMemory, add, list_of};
use turn_cell::{Counted, Pass, TurnCell, TurnWork};

// Who wrote: the number of each entry's caller.
#[derive(Drop)]
struct Log {
    callers: List<u64>,
}

impl Counted for Log {
    type Item = u64;

    ghost entries = { λ log. log.callers };

    ghost caller = { λ by. by };

    fn count(&self) -> u64 {
        self.callers.as_slice().len() as u64
    }
}

// Writes one entry, if memory is there, and answers how many there are then.
#[derive(Drop)]
struct Writing {
    by: u64,
}

impl TurnWork<Log> for Writing {
    type Answer = u64;

    ghost number = { λ work. work.by };

    ghost relates = { λ work before after answer. answer ≡ length after };

    fn caller(&self) -> u64 {
        self.by
    }

    fn run(self, value: &mut Log) -> u64 {
        let _ = value.callers.push(self.by);
        value.count()
    }
}

// Writes so many entries, and waits before each for its turn.
fn write<R: Wait>(rt: &R, cell: &TurnCell<Log>, mut pass: Pass<Log>, count: u64) -> Pass<Log>
    requires { IsPassOf cell.now pass }
    ensures cell { IsPassOf cell.now result }
    ensures number { number_of result ≡ number_of pass }
{
    for _ in 0..count {
        let work = Writing { by: pass.number() };
        cell.with_turn(rt, &mut pass, work);
    }
    pass
}

// A cell round the empty log, and the passes of callers 0 and 1.
fn two_seats(alloc: Global) -> Result<(TurnCell<Log>, Pass<Log>, Pass<Log>), NoMemory>
    ensures seats { IfOk result (λ r. cell_seats r.0 ≡ 2) }
    ensures first { IfOk result (λ r. IsPassOf r.0 r.1 × (number_of r.1 ≡ 0)) }
    ensures second { IfOk result (λ r. IsPassOf r.0 r.2 × (number_of r.2 ≡ 1)) }
{
    let callers = List::new(alloc);
    let (cell, passes) = TurnCell::new(alloc, Log { callers }, 2)?;
    let mut passes = passes.into_vec();
    match (passes.pop(), passes.pop()) {
        (Some(second), Some(first)) => Ok((cell, first, second)),
        _ => unreachable!(),
    }
}

// The log, once both passes have come back.
fn log_of(
    alloc: Global,
    cell: TurnCell<Log>,
    first: Pass<Log>,
    second: Pass<Log>,
) -> Result<List<u64>, NoMemory>
    requires seats { cell_seats cell ≡ 2 }
    requires first { IsPassOf cell first × (number_of first ≡ 0) }
    requires second { IsPassOf cell second × (number_of second ≡ 1) }
    ensures first { IfOk result (λ log. mine_of (λ by. by) 0 log ≡ mine first) }
    ensures second { IfOk result (λ log. mine_of (λ by. by) 1 log ≡ mine second) }
{
    let mut passes = list_of(alloc, first)?;
    add(&mut passes, second)?;
    let Log { callers } = cell.close(passes);
    Ok(callers)
}

// The log that two threads have written, the first so many entries and the second so many.
fn written<R: Threads + Wait + Sync>(
    rt: &R,
    alloc: Global,
    by_first: u64,
    by_second: u64,
) -> Result<List<u64>, NoMemory> {
    let (cell, first, second) = two_seats(alloc)?;
    let shared = &cell;
    let (first, second) = thread::join(
        rt,
        || -> Pass<Log>
            requires { IsPassOf shared.now first }
            ensures { IsPassOf shared.entry.now result × (number_of result ≡ number_of first) }
        { write(rt, shared, first, by_first) },
        || -> Pass<Log>
            requires { IsPassOf shared.now second }
            ensures { IsPassOf shared.entry.now result × (number_of result ≡ number_of second) }
        { write(rt, shared, second, by_second) },
    );
    log_of(alloc, cell, first, second)
}

fn main(rt: HostRuntime) -> ExitCode {
    let Ok(log) = written(&rt, rt.alloc(), 100, 200) else {
        return ExitCode::FAILURE;
    };
    let callers = log.as_slice();
    let (all, firsts) = (callers.len(), callers.iter().filter(|by| **by == 0).count());
    match println!(rt; "{all} entries, {firsts} of them by the first caller") {
        Ok(()) => ExitCode::SUCCESS,
        Err(_) => ExitCode::FAILURE,
    }
}
