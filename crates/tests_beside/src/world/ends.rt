// Ends of histories: one that has no room, and then Halt.
use crate::world::told::Told;
use std::alloc::Global;
use swarm_objects::limits::MOST_ENTRIES;
use swarm_objects::{Call, NoMemory, Refusal, Reply, Role};
use swarm_world::{Turn, World};

/// What a call is answered, as far as it is asked for here.
#[derive(Clone, Copy)]
enum Outcome {
    Ticked,
    HaltDone,
    Halted,
    Full(u64),
    Other,
}

fn outcome_of(reply: &Reply) -> Outcome {
    match reply {
        Reply::Ticked => Outcome::Ticked,
        Reply::HaltDone => Outcome::HaltDone,
        Reply::Refused(Refusal::Halted) => Outcome::Halted,
        Reply::Refused(Refusal::Full(count)) => Outcome::Full(*count),
        _ => Outcome::Other,
    }
}

// The one owner of a reply, so that the proof goes through its parts once.
fn answer(world: &mut World, by: u64, call: Call) -> Outcome {
    let reply = world.call(by, call);
    let outcome = outcome_of(&reply);
    drop(reply);
    outcome
}

// A turn is idle where no loop has a duty, and a tick is done where there is room.
fn fill(world: &mut World) -> bool {
    if world.turn(7, Role::Agents) != Turn::Idle {
        return false;
    }
    for _ in 0..MOST_ENTRIES {
        if !matches!(answer(world, 7, Call::Tick(1)), Outcome::Ticked) {
            return false;
        }
    }
    true
}

fn is_full(world: &mut World) -> bool {
    matches!(answer(world, 7, Call::Tick(1)), Outcome::Full(MOST_ENTRIES))
        && world.turn(7, Role::Agents) == Turn::Full(MOST_ENTRIES)
}

// Halt has room, and nothing follows it.
fn halts(world: &mut World) -> bool {
    matches!(answer(world, 8, Call::Halt), Outcome::HaltDone)
        && matches!(answer(world, 7, Call::Halt), Outcome::Halted)
        && world.turn(7, Role::Agents) == Turn::Halted
        && world.len() == MOST_ENTRIES + 1
}

fn ends(alloc: Global) -> Result<bool, NoMemory> {
    let mut world = World::new(alloc)?;
    let ends = fill(&mut world) && is_full(&mut world) && halts(&mut world);
    drop(world);
    Ok(ends)
}

/// Tells whether a history fills and ends as it must.
pub(crate) fn tell_ends(alloc: Global, told: &mut Told) -> Result<(), NoMemory> {
    if ends(alloc)? {
        told.push(b"a full history takes Halt alone, and nothing follows it\n")
    } else {
        told.push(b"a full history goes on or doesn't end\n")
    }
}
