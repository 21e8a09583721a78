//! A worked caller of the plain world: a node, a service of two tasks, and all that the control loops do until nothing
//! is left to be done.
//!
//! A `Replay` is a world that a legal history makes, so its caller keeps no history: it asks whether the world has
//! settled, does the duty that is named or lets time go by, and asks again. That settled means matched is the settle
//! test's promise, and `run_until_settled` hands it on.
#![tactic(auto)]

ghost use Rattle.std.specs.Prelude.{◌≡◌, IfOk};
ghost use Rattle.swarm_settle.specs.Matched.{IsMatched};
ghost use Rattle.swarm_objects.specs.declared.duties.Settle.TheVariants.{Settled};

use std::alloc::Global;
use std::process::ExitCode;
use swarm_duties::{Replay, StepFault, settle};
use swarm_objects::limits::LONGEST_TICK;
use swarm_objects::{
    Call, Draft, List, Mode, Ms, Name, NoMemory, NodeDraft, Op, Settle, What, add,
};
use swarm_plain::Plain;

/// The most entries that the world may take to settle.
const MOST: u64 = 1_000;

// A node joins.
fn add_node(alloc: Global, ops: &mut List<Op>) -> Result<(), NoMemory> {
    let name = Name::new(alloc, "n1")?;
    match NodeDraft::usual(alloc) {
        Ok(draft) => add(ops, Op::CreateNode(name, draft)),
        Err(fault) => Err(fault),
    }
}

// A service of two tasks is created.
fn add_service(alloc: Global, ops: &mut List<Op>) -> Result<(), NoMemory> {
    let name = Name::new(alloc, "web")?;
    let mut draft = Draft::usual(alloc)?;
    draft.spec.mode = Mode::Replicated(2);
    add(ops, Op::CreateService(name, draft))
}

fn add_both(alloc: Global, ops: &mut List<Op>) -> Result<(), NoMemory> {
    add_node(alloc, ops)?;
    add_service(alloc, ops)
}

fn opening(alloc: Global) -> Result<What, NoMemory> {
    let mut ops = List::new(alloc);
    match add_both(alloc, &mut ops) {
        Ok(()) => Ok(What::Call(Call::Txn(ops))),
        Err(fault) => {
            drop(ops);
            Err(fault)
        }
    }
}

// The duty that is due, or the time till what is waited for. Nothing where neither would go on.
fn next_entry(answer: Settle, now: Ms) -> Option<What> {
    match answer {
        Settle::Busy(duty) => Some(What::Duty(duty)),
        Settle::Waiting(time, _, _) => {
            let ms = LONGEST_TICK.min(time.saturating_sub(now));
            Some(What::Call(Call::Tick(ms)))
        }
        Settle::Held(_, _) | Settle::Paused(_) | Settle::Settled => None,
    }
}

// The settle test.
fn settled(replay: &Replay) -> Result<Settle, StepFault>
    ensures { IfOk result (λ answer. answer ≡ Settled → IsMatched replay.now) }
{
    match settle(replay.plain()) {
        Ok(answer) => Ok(answer),
        Err(NoMemory) => Err(StepFault::NoMemory),
    }
}

// Does the entry, whose reply nobody asks for. Both are dropped by name, at the one way out.
fn step(replay: &mut Replay, what: What) -> Result<(), StepFault> {
    let stepped = replay.step(&what);
    drop(what);
    let done = match &stepped {
        Ok(_) => Ok(()),
        Err(fault) => Err(*fault),
    };
    drop(stepped);
    done
}

/// Goes on until nothing is due or waited for, by at most so many entries. Says how the world stands then; where that
/// is `Settled`, what runs is what the specifications ask for.
fn run_until_settled(replay: &mut Replay, most: u64) -> Result<Settle, StepFault>
    ensures { IfOk result (λ answer. answer ≡ Settled → IsMatched replay.new) }
{
    for _ in 0..most {
        let answer = settled(replay)?;
        let Some(what) = next_entry(answer, replay.plain().clock) else {
            return Ok(answer);
        };
        step(replay, what)?;
    }
    settled(replay)
}

// The opening and all that follows.
fn run(alloc: Global, replay: &mut Replay) -> Result<Settle, StepFault>
    ensures { IfOk result (λ answer. answer ≡ Settled → IsMatched replay.new) }
{
    let Ok(what) = opening(alloc) else {
        return Err(StepFault::NoMemory);
    };
    step(replay, what)?;
    run_until_settled(replay, MOST)
}

// Prints how the world stands.
fn tell(rt: &impl Print, plain: &Plain, answer: Settle) -> ExitCode {
    let told = match answer {
        Settle::Settled => "settled",
        _ => "not settled",
    };
    let (entries, clock, tasks) = (plain.entries, plain.clock, plain.tasks.len());
    match println!(rt; "{told} after {entries} entries at {clock} ms, with {tasks} tasks") {
        Ok(()) => ExitCode::SUCCESS,
        Err(_) => ExitCode::FAILURE,
    }
}

fn main(rt: HostRuntime) -> ExitCode {
    let mut replay = Replay::new(rt.alloc());
    let code = match run(rt.alloc(), &mut replay) {
        Ok(answer) => tell(&rt, replay.plain(), answer),
        Err(_) => ExitCode::FAILURE,
    };
    drop(replay);
    code
}
