// The duties of one loop, and the answers to the settle test and to a view.
ghost use Rattle.swarm_objects.specs.Usable.{IsUsableWorld};
ghost use Rattle.swarm_plain.specs.Plain.{world_of};

use crate::worlds::{begin, copy_of, do_all, enter};
use std::alloc::Global;
use std::test::Fail;
use swarm_duties::{Replay, answer, duties, settle_call};
use swarm_objects::{Call, Duty, NoMemory, Query, Refusal, Reply, Role, Settle, ViewReply, What};
use swarm_plain::Plain;

// The first of what a node with one task has to have done.
const FIRST_DUTIES: [Duty; 2] = [Duty::ReplicatedCreate(2, 1), Duty::Address(3)];

// What comes after these.
const LATER_DUTIES: [Duty; 2] = [Duty::Explain(3), Duty::Register(1)];

// The first duty of the loop, and how many it has.
fn first_of(replay: &Replay, role: Role) -> Result<(Option<Duty>, usize), NoMemory> {
    let all = duties(replay.plain(), role)?;
    let told = (all.as_slice().first().copied(), all.len());
    drop(all);
    Ok(told)
}

// The same of a node and a service of one replica: what its agent has to do, what the scheduler has, and what it has
// after these duties.
fn find_duties(alloc: Global, replay: &mut Replay) -> Result<[(Option<Duty>, usize); 3], Fail> {
    begin(alloc, replay, &["n1"])?;
    let agents = first_of(replay, Role::Agents)?;
    let before = first_of(replay, Role::Scheduler)?;
    do_all(replay, &FIRST_DUTIES)?;
    Ok([agents, before, first_of(replay, Role::Scheduler)?])
}

#[test]
fn duties_of_one_loop(rt: HostRuntime) -> Result<(), Fail> {
    let mut replay = Replay::new(rt.alloc());
    let told = find_duties(rt.alloc(), &mut replay);
    drop(replay);
    let register = (Some(Duty::Register(1)), 1);
    let explain = (Some(Duty::Explain(3)), 1);
    assert_eq!(rt; told?, [register, (None, 0), explain]);
    Ok(())
}

// What is told of a reply.
#[derive(Clone, Copy, Debug, PartialEq, Eq)]
enum Told {
    Settle(u64, Settle),
    Nodes(usize),
    Halted,
    Other,
}

fn told_of(reply: &Reply) -> Told {
    match reply {
        Reply::Settle(budget, settle) => Told::Settle(*budget, *settle),
        Reply::View(ViewReply::Nodes(rows)) => Told::Nodes(rows.len()),
        Reply::Refused(Refusal::Halted) => Told::Halted,
        _ => Told::Other,
    }
}

// The answer to the settle test, and how many entries there are then.
fn ask_settle(plain: &mut Plain) -> (Told, u64)
    requires { IsUsableWorld (world_of plain.old) }
{
    let reply = settle_call(plain, 7);
    let told = told_of(&reply);
    drop(reply);
    (told, plain.entries)
}

// The same for any call.
fn ask(plain: &mut Plain, call: &Call) -> (Told, u64)
    requires { IsUsableWorld (world_of plain.old) }
{
    let reply = answer(plain, call);
    let told = told_of(&reply);
    drop(reply);
    (told, plain.entries)
}

// The same on a copy of the world.
fn settle_told(replay: &Replay) -> Result<(Told, u64), NoMemory> {
    let mut plain = copy_of(replay)?;
    let told = ask_settle(&mut plain);
    drop(plain);
    Ok(told)
}

// The answer to the call on a copy of the world.
fn copy_told(replay: &Replay, call: &Call) -> Result<(Told, u64), NoMemory> {
    let mut plain = copy_of(replay)?;
    let told = ask(&mut plain, call);
    drop(plain);
    Ok(told)
}

fn call_told(replay: &Replay, call: Call) -> Result<(Told, u64), NoMemory> {
    let told = copy_told(replay, &call);
    drop(call);
    told
}

// The settle test after the first duties, and both calls after four.
fn answers(alloc: Global, replay: &mut Replay) -> Result<[(Told, u64); 3], Fail> {
    begin(alloc, replay, &["n1"])?;
    do_all(replay, &FIRST_DUTIES)?;
    let settle = settle_told(replay)?;
    do_all(replay, &LATER_DUTIES)?;
    let settle_call = call_told(replay, Call::Settle(8))?;
    let view = call_told(replay, Call::View(Query::ListNodes))?;
    Ok([settle, settle_call, view])
}

#[test]
fn answers_to_calls(rt: HostRuntime) -> Result<(), Fail> {
    let mut replay = Replay::new(rt.alloc());
    let told = answers(rt.alloc(), &mut replay);
    drop(replay);
    let explain = Settle::Busy(Duty::Explain(3));
    let place = Settle::Busy(Duty::Place(3, 1));
    assert_eq!(rt;
        told?,
        [
            (Told::Settle(7, explain), 4),
            (Told::Settle(8, place), 6),
            (Told::Nodes(1), 6)
        ]
    );
    Ok(())
}

fn answer_after_halt(alloc: Global, replay: &mut Replay) -> Result<(Told, u64), Fail> {
    begin(alloc, replay, &["n1"])?;
    enter(replay, What::Call(Call::Halt))?;
    Ok(settle_told(replay)?)
}

#[test]
fn halted_world_is_not_settled(rt: HostRuntime) -> Result<(), Fail> {
    let mut replay = Replay::new(rt.alloc());
    let told = answer_after_halt(rt.alloc(), &mut replay);
    drop(replay);
    assert_eq!(rt; told?, (Told::Halted, 2));
    Ok(())
}
