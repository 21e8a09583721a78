// A worker's turns.
ghost use Rattle.std.specs.Prelude.{◌≡◌, ◌<◌, ◌≤◌, length, IfErr};
ghost use Rattle.swarm_world.specs.Laws.{IsLawful};
ghost use Rattle.turn_cell.specs.Passes.{number_of, seen, known, mine, IsPassOf, Extends};
ghost use Rattle.swarm_loops.specs.Ends.{EndsWork};
ghost use Rattle.swarm_loops.specs.Turns.{AddsTurns};

use crate::ends::WorkEnd;
use std::sync::Wait;
use swarm_cluster::{Cluster, Pass};
use swarm_objects::{Gate, Role};
use swarm_world::Turn;

// How many turns in a row found no duty, and the history's length at the first of them.
#[derive(Clone, Copy)]
struct Idle {
    turns: usize,
    since: u64,
}

impl Idle {
    const NONE: Idle = Idle { turns: 0, since: 0 };
}

// One turn of the control loop at this place of the list. Where it has no duty, gives the history's length.
fn make_turn<R: Wait>(
    rt: &R,
    cluster: &Cluster,
    pass: &mut Pass,
    roles: &[Role],
    place: usize,
) -> Result<Option<u64>, WorkEnd>
    requires pass { IsPassOf cluster.now.cell pass.old }
    requires place { place < length roles.now }
    ensures pass { IsPassOf cluster.now.cell pass.new }
    ensures extends { Extends pass.old pass.new }
    ensures known { known pass.new ≡ length (seen pass.new) }
    ensures lawful { IsLawful (seen pass.new) }
    ensures adds { AddsTurns roles.now (mine pass.old) (mine pass.new) (seen pass.new) }
    ensures end { IfErr result (λ end. EndsWork end (seen pass.new)) }
{
    let answer = cluster.turn(rt, pass, roles[place]);
    match answer.reply {
        Turn::Did(_) => Ok(None),
        Turn::Idle => Ok(Some(answer.at)),
        Turn::Halted => Err(WorkEnd::Halted),
        Turn::Full(_) => Err(WorkEnd::Full),
        Turn::NoMemory => Err(WorkEnd::NoMemory),
    }
}

// One turn more, which found no duty at this length of the history, or did one. Where as many in a row found none as
// there are loops, waits for news since the first of them.
fn rest_if_idle<R: Wait>(
    rt: &R,
    cluster: &Cluster,
    pass: &mut Pass,
    idle: Idle,
    found: Option<u64>,
    loops: usize,
) -> Idle
    requires pass { IsPassOf cluster.now.cell pass.old }
    requires idle { idle.turns < loops }
    ensures pass { IsPassOf cluster.now.cell pass.new × (number_of pass.new ≡ number_of pass.old) }
    ensures known { known pass.old ≤ known pass.new }
    ensures seen { (seen pass.new ≡ seen pass.old) × (mine pass.new ≡ mine pass.old) }
    ensures idle { result.turns < loops }
{
    let Some(at) = found else {
        return Idle::NONE;
    };
    let turns = idle.turns + 1;
    let since = if idle.turns == 0 { at } else { idle.since };
    if turns < loops {
        return Idle { turns, since };
    }
    cluster.rest(rt, pass, since);
    Idle::NONE
}

// The place after this one, from the last place on the first.
fn after(place: usize, loops: usize) -> usize
    requires { place < loops }
    ensures { result < loops }
{
    (place + 1) % loops
}

/// Makes turns of the control loops, one loop after the other, until the history has ended, is full or memory is
/// wanting, and says which. Where no loop has a duty it waits for news, and in a pause for its end. The gate is called
/// before each turn. The pass is lent, so that no want of memory loses it.
#[tactic(auto, using(crate::proofs::Adding::adds_then, crate::proofs::Adding::adds_none))]
pub fn work_on<G: Gate, R: Wait>(
    rt: &R,
    cluster: &Cluster,
    pass: &mut Pass,
    roles: &[Role],
    gate: &G,
) -> WorkEnd
    requires pass { IsPassOf cluster.now.cell pass.old }
    requires roles { 0 < length roles.now }
    ensures pass { IsPassOf cluster.now.cell pass.new }
    ensures extends { Extends pass.old pass.new }
    ensures lawful { IsLawful (seen pass.new) }
    ensures adds { AddsTurns roles.now (mine pass.old) (mine pass.new) (seen pass.new) }
    ensures end { EndsWork result (seen pass.new) }
{
    let mut turn: u64 = 0;
    let mut place = 0;
    let mut idle = Idle::NONE;
    for _ in rt.forever() {
        turn = turn.saturating_add(1);
        gate.before(rt, pass.number(), turn);
        cluster.wait_out_pauses(rt);
        let found = match make_turn(rt, cluster, pass, roles, place) {
            Ok(found) => found,
            Err(end) => return end,
        };
        idle = rest_if_idle(rt, cluster, pass, idle, found, roles.len());
        place = after(place, roles.len());
    }
    unreachable!()
}

/// The same with a pass of one's own, which comes back.
pub fn work<G: Gate, R: Wait>(
    rt: &R,
    cluster: &Cluster,
    mut pass: Pass,
    roles: &[Role],
    gate: &G,
) -> (Pass, WorkEnd)
    requires pass { IsPassOf cluster.now.cell pass }
    requires roles { 0 < length roles.now }
    ensures pass { IsPassOf cluster.now.cell result.0 }
    ensures extends { Extends pass result.0 }
    ensures lawful { IsLawful (seen result.0) }
    ensures adds { AddsTurns roles.now (mine pass) (mine result.0) (seen result.0) }
    ensures end { EndsWork result.1 (seen result.0) }
{
    let end = work_on(rt, cluster, &mut pass, roles, gate);
    (pass, end)
}
