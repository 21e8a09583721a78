// Stretches of duties, and wait lines.
ghost use Rattle.std.specs.Prelude.{◌≡◌, ◌<◌, ◌≤◌, List, IfOk, OnOk, IfErr};
ghost use Rattle.swarm_cluster.specs.Looks.{Shows};
ghost use Rattle.swarm_lines.specs.Stretches.{Settled, StopsTurns, StopsWait, Waited, Waiting};
ghost use Rattle.swarm_model.specs.History.{replay};
ghost use Rattle.swarm_model.specs.Script.{next_tick, time_till};
ghost use Rattle.swarm_objects.specs.World.{World};
ghost use Rattle.swarm_objects.specs.declared.calls.Entry.{Entry};
ghost use Rattle.turn_cell.specs.Passes.{number_of, seen, IsPassOf};

use crate::caller;
use crate::unanswered::Unanswered;
use std::sync::Wait;
use swarm_cluster::{Cluster, Look, Pass};
use swarm_objects::limits::LONGEST_TICK;
use swarm_objects::{Call, Ms, Settle};

// The most duties before a tick, and after the last one.
const FULL_STRETCH: u64 = 100_000;

// The time till what is waited for, and at most this.
fn time_till(now: Ms, answer: Settle, most: Ms) -> Ms
    ensures { result ≡ time_till now answer most }
{
    match answer {
        Settle::Waiting(time, _, _) => most.min(time.saturating_sub(now)),
        _ => most,
    }
}

// The next tick of a wait line of which so much is left.
fn next_tick(look: Look, left: Ms) -> Ms
    ensures next { (w : World) → Shows look w → result ≡ next_tick w left }
    ensures within { result ≤ left }
{
    time_till(look.now, look.settle, LONGEST_TICK.min(left))
}

/// Does the duties that the settle test names, until it names none or so many were done. Gives the last look.
pub fn take_duties<R: Wait>(
    rt: &R,
    cluster: &Cluster,
    pass: &mut Pass,
    budget: u64,
) -> Result<Look, Unanswered>
    requires pass { IsPassOf cluster.now.cell pass.old × (number_of pass.old ≡ 0) }
    ensures pass { IsPassOf cluster.now.cell pass.new × (number_of pass.new ≡ 0) }
    ensures ok { OnOk result (Settled budget (seen pass.old) (seen pass.new)) }
    ensures look { IfOk result (λ look. Shows look (replay (seen pass.new))) }
    ensures err { IfErr result (λ cause. StopsTurns cause budget (seen pass.old) (seen pass.new)) }
{
    let mut count = 0;
    while count < budget {
        match caller::advance(rt, cluster, pass) {
            Ok(None) => count += 1,
            Ok(Some(look)) => return Ok(look),
            Err(cause) => return Err(cause),
        }
    }
    Ok(caller::look(rt, cluster, pass))
}

// Duties, and then a tick of a wait line of which so much is left. Gives what is left then.
fn stride<R: Wait>(
    rt: &R,
    cluster: &Cluster,
    pass: &mut Pass,
    ms: Ms,
    left: Ms,
) -> Result<Ms, Unanswered>
    requires pass { IsPassOf cluster.now.cell pass.old × (number_of pass.old ≡ 0) }
    requires left { 0 < left }
    ensures pass { IsPassOf cluster.now.cell pass.new × (number_of pass.new ≡ 0) }
    ensures less { IfOk result (λ rest. rest < left) }
    ensures ok { IfOk result (λ rest. (start : List Entry) → Waiting ms left start (seen pass.old)
        → Waiting ms rest start (seen pass.new)) }
    ensures err { IfErr result (λ cause. (start : List Entry) → Waiting ms left start (seen pass.old)
        → StopsWait cause ms start (seen pass.new)) }
{
    let look = match take_duties(rt, cluster, pass, FULL_STRETCH) {
        Ok(look) => look,
        Err(cause) => return Err(cause),
    };
    let tick = next_tick(look, left);
    match caller::call(rt, cluster, pass, Call::Tick(tick)) {
        Ok(_) => {}
        Err(cause) => return Err(cause),
    }
    Ok(left - tick)
}

/// Does a wait line: strides until its time has passed, and then duties.
pub fn wait<R: Wait>(rt: &R, cluster: &Cluster, pass: &mut Pass, ms: Ms) -> Result<(), Unanswered>
    requires pass { IsPassOf cluster.now.cell pass.old × (number_of pass.old ≡ 0) }
    ensures pass { IsPassOf cluster.now.cell pass.new × (number_of pass.new ≡ 0) }
    ensures ok { OnOk result (Waited ms (seen pass.old) (seen pass.new)) }
    ensures err { IfErr result (λ cause. StopsWait cause ms (seen pass.old) (seen pass.new)) }
{
    let mut left = ms;
    while left > 0 {
        match stride(rt, cluster, pass, ms, left) {
            Ok(rest) => left = rest,
            Err(cause) => return Err(cause),
        }
    }
    match take_duties(rt, cluster, pass, FULL_STRETCH) {
        Ok(_) => Ok(()),
        Err(cause) => Err(cause),
    }
}
