//! What no clause of the turn cell says: that turns come to their end, and that a look waits for nobody.
ghost use Rattle.std.specs.Prelude.{◌≡◌, length, IfOk};
ghost use Rattle.turn_cell.specs.Passes.{number_of, cell_seats, IsPassOf};

use std::alloc::Global;
use std::sync::Wait;
use std::sync::atomic::{AtomicU64, Ordering};
use std::test::Fail;
use std::thread;
use swarm_objects::{List, NoMemory};
use turn_cell::{Counted, Pass, TurnCell, TurnWork};

// An entry is the number of its caller.
#[derive(Drop)]
struct Log {
    callers: List<u64>,
}

impl Counted for Log {
    type Item = u64;

    ghost entries = { λ log. log.callers };

    ghost caller = { λ by. by };

    fn count(&self) -> u64 {
        self.callers.as_slice().len() as u64
    }
}

// Appends the caller's number, if memory is there, and answers the length after it.
#[derive(Drop)]
struct Append {
    by: u64,
}

impl TurnWork<Log> for Append {
    type Answer = u64;

    ghost number = { λ work. work.by };

    ghost relates = { λ work before after answer. answer ≡ length after };

    fn caller(&self) -> u64 {
        self.by
    }

    fn run(self, value: &mut Log) -> u64 {
        let _ = value.callers.push(self.by);
        value.count()
    }
}

// A gate that threads hold and open, with so many looks at most.
#[derive(Drop)]
struct Gate {
    opened: AtomicU64,
    missed: AtomicU64,
}

impl Gate {
    fn new() -> Gate {
        Gate {
            opened: AtomicU64::new(0),
            missed: AtomicU64::new(0),
        }
    }

    fn open(&self) {
        self.opened.store(1, Ordering::SeqCst);
    }

    fn pass(&self) {
        for _ in 0..10_000_000u64 {
            if self.opened.load(Ordering::SeqCst) == 1 {
                return;
            }
            thread::yield_now();
        }
        self.missed.store(1, Ordering::SeqCst);
    }

    fn was_missed(&self) -> bool {
        self.missed.load(Ordering::SeqCst) == 1
    }
}

// Says that it has the turn, and keeps it until the gate is open.
#[derive(Drop)]
struct Hold<'a> {
    by: u64,
    entered: &'a Gate,
    until: &'a Gate,
}

impl<'a> TurnWork<Log> for Hold<'a> {
    type Answer = u64;

    ghost number = { λ work. work.by };

    ghost relates = { λ work before after answer. answer ≡ length after };

    fn caller(&self) -> u64 {
        self.by
    }

    fn run(self, value: &mut Log) -> u64 {
        self.entered.open();
        self.until.pass();
        let _ = value.callers.push(self.by);
        value.count()
    }
}

// Makes so many turns.
fn turns<R: Wait>(rt: &R, cell: &TurnCell<Log>, mut pass: Pass<Log>, count: u64) -> Pass<Log>
    requires { IsPassOf cell.now pass }
    ensures cell { IsPassOf cell.now result }
    ensures number { number_of result ≡ number_of pass }
{
    for _ in 0..count {
        let work = Append { by: pass.number() };
        cell.with_turn(rt, &mut pass, work);
    }
    pass
}

// A cell with two passes.
fn open_two(alloc: Global) -> Result<(TurnCell<Log>, Pass<Log>, Pass<Log>), NoMemory>
    ensures cell { IfOk result (λ r. cell_seats r.0 ≡ 2) }
    ensures first { IfOk result (λ r. IsPassOf r.0 r.1 × (number_of r.1 ≡ 0)) }
    ensures second { IfOk result (λ r. IsPassOf r.0 r.2 × (number_of r.2 ≡ 1)) }
{
    let log = Log {
        callers: List::new(alloc),
    };
    let (cell, passes) = TurnCell::new(alloc, log, 2)?;
    let mut passes = passes.into_vec();
    let Some(second) = passes.pop() else {
        return Err(NoMemory);
    };
    let Some(first) = passes.pop() else {
        return Err(NoMemory);
    };
    Ok((cell, first, second))
}

// The callers in order, once both passes have come back.
fn close_two(
    alloc: Global,
    cell: TurnCell<Log>,
    first: Pass<Log>,
    second: Pass<Log>,
) -> Result<List<u64>, NoMemory>
    requires cell { (cell_seats cell ≡ 2) × IsPassOf cell first × IsPassOf cell second }
    requires numbers { (number_of first ≡ 0) × (number_of second ≡ 1) }
{
    let mut passes = List::new(alloc);
    let Ok(()) = passes.push(second) else {
        return Err(NoMemory);
    };
    let Ok(()) = passes.push(first) else {
        return Err(NoMemory);
    };
    let Log { callers } = cell.close(passes);
    Ok(callers)
}

#[test]
fn two_threads_take_turns(rt: HostRuntime) -> Result<(), Fail> {
    let (cell, first, second) = open_two(rt.alloc())?;
    let (handle, shared) = (&rt, &cell);
    let (first, second) = thread::join(
        handle,
        || -> Pass<Log>
            requires { IsPassOf shared.now first }
            ensures { IsPassOf shared.entry.now result × (number_of result ≡ number_of first) }
        { turns(handle, shared, first, 100) },
        || -> Pass<Log>
            requires { IsPassOf shared.now second }
            ensures { IsPassOf shared.entry.now result × (number_of result ≡ number_of second) }
        { turns(handle, shared, second, 200) },
    );
    let callers = close_two(rt.alloc(), cell, first, second)?;
    let callers = callers.as_slice();
    assert_eq!(rt; callers.len(), 300);
    assert_eq!(rt; callers.iter().filter(|by| **by == 0).count(), 100);
    Ok(())
}

#[test]
fn a_count_shows_anothers_entry(rt: HostRuntime) -> Result<(), Fail> {
    let (cell, mut first, mut second) = open_two(rt.alloc())?;
    assert_eq!(rt; cell.count(&mut second), 0);
    assert_eq!(rt; cell.with_turn(&rt, &mut first, Append { by: 0 }), 1);
    assert_eq!(rt; cell.count(&mut second), 1);
    assert_eq!(rt; cell.with_turn(&rt, &mut second, Append { by: 1 }), 2);
    assert_eq!(rt; cell.count(&mut first), 2);
    Ok(())
}

// Keeps the turn from one gate to the next.
fn hold_turn<R: Wait>(
    rt: &R,
    cell: &TurnCell<Log>,
    mut pass: Pass<Log>,
    entered: &Gate,
    until: &Gate,
) -> Pass<Log>
    requires { IsPassOf cell.now pass }
    ensures cell { IsPassOf cell.now result }
    ensures number { number_of result ≡ number_of pass }
{
    let work = Hold {
        by: pass.number(),
        entered,
        until,
    };
    cell.with_turn(rt, &mut pass, work);
    pass
}

// Counts while another has the turn, lets it go, and makes a turn.
fn count_and_follow<R: Wait>(
    rt: &R,
    cell: &TurnCell<Log>,
    mut pass: Pass<Log>,
    entered: &Gate,
    counted: &Gate,
) -> (Pass<Log>, u64, u64)
    requires { IsPassOf cell.now pass }
    ensures cell { IsPassOf cell.now result.0 }
    ensures number { number_of result.0 ≡ number_of pass }
{
    entered.pass();
    let meanwhile = cell.count(&mut pass);
    counted.open();
    let work = Append { by: pass.number() };
    let after = cell.with_turn(rt, &mut pass, work);
    (pass, meanwhile, after)
}

#[test]
fn two_threads_are_inside_a_call(rt: HostRuntime) -> Result<(), Fail> {
    let (cell, first, second) = open_two(rt.alloc())?;
    let (entered, counted) = (Gate::new(), Gate::new());
    let (handle, shared, enter, until) = (&rt, &cell, &entered, &counted);
    let (first, (second, meanwhile, after)) = thread::join(
        handle,
        || -> Pass<Log>
            requires { IsPassOf shared.now first }
            ensures { IsPassOf shared.entry.now result × (number_of result ≡ number_of first) }
        { hold_turn(handle, shared, first, enter, until) },
        || -> (Pass<Log>, u64, u64)
            requires { IsPassOf shared.now second }
            ensures { IsPassOf shared.entry.now result.0 × (number_of result.0 ≡ number_of second) }
        { count_and_follow(handle, shared, second, enter, until) },
    );
    assert!(rt; !entered.was_missed() && !counted.was_missed());
    assert_eq!(rt; (meanwhile, after), (0, 2));
    let callers = close_two(rt.alloc(), cell, first, second)?;
    assert_eq!(rt; callers.as_slice(), [0, 1].as_slice());
    Ok(())
}
