// Caller 0's calls, looks and steps.
ghost use Rattle.std.specs.Prelude.{◌≡◌, ℕ, true, false, IfOk, IfErr, None, Ok, Some, MatchOption};
ghost use Rattle.swarm_cluster.specs.Looks.{Shows};
ghost use Rattle.swarm_cluster.specs.declared.works.Look.{Look as Looked};
ghost use Rattle.swarm_lines.specs.Came.{Advanced, Answered, Halts, IsIdle, Stays, StaysBusy, StaysBy};
ghost use Rattle.swarm_model.specs.History.{replay};
ghost use Rattle.swarm_objects.specs.CallWords.{is_entry};
ghost use Rattle.turn_cell.specs.Passes.{number_of, seen, IsPassOf};

use crate::unanswered::Unanswered;
use std::sync::Wait;
use swarm_cluster::{Advance, Cluster, Look, Pass};
use swarm_objects::{Call, Refusal, Reply};
use swarm_world::Turn;

// Why the reply's call is no entry; None where it is one.
fn why(reply: &Reply) -> Option<Unanswered>
    ensures { MatchOption result (is_entry reply.now ≡ true) (λ cause. (is_entry reply.now ≡ false)
        × (cause ≡ Unanswered.Full → (n : ℕ) × (reply.now ≡ Reply.Refused (Refusal.Full n)))) }
{
    match reply {
        Reply::Refused(Refusal::Halted) => Some(Unanswered::NoMemory),
        Reply::Refused(Refusal::Full(_)) => Some(Unanswered::Full),
        Reply::Refused(Refusal::NoMemory) => Some(Unanswered::NoMemory),
        _ => None,
    }
}

/// Makes the call, or says why it is no entry.
pub fn call<R: Wait>(
    rt: &R,
    cluster: &Cluster,
    pass: &mut Pass,
    call: Call,
) -> Result<Reply, Unanswered>
    requires pass { IsPassOf cluster.now.cell pass.old × (number_of pass.old ≡ 0) }
    ensures pass { IsPassOf cluster.now.cell pass.new × (number_of pass.new ≡ 0) }
    ensures ok { IfOk result (λ reply. Answered (seen pass.old) (seen pass.new) call reply) }
    ensures err { IfErr result (λ cause. StaysBy cause (seen pass.old) (seen pass.new)) }
{
    let answer = cluster.call(rt, pass, call);
    match why(&answer.reply) {
        Some(cause) => Err(cause),
        None => Ok(answer.reply),
    }
}

/// Makes Halt. It takes no memory and no room, so it is an entry unless Halt stands there.
pub fn halt<R: Wait>(rt: &R, cluster: &Cluster, pass: &mut Pass)
    requires pass { IsPassOf cluster.now.cell pass.old × (number_of pass.old ≡ 0) }
    ensures pass { IsPassOf cluster.now.cell pass.new × (number_of pass.new ≡ 0) }
    ensures halts { Halts (seen pass.old) (seen pass.new) }
{
    let answer = cluster.call(rt, pass, Call::Halt);
    drop(answer);
}

/// The settle test and the time, of one world.
pub fn look<R: Wait>(rt: &R, cluster: &Cluster, pass: &mut Pass) -> Look
    requires pass { IsPassOf cluster.now.cell pass.old × (number_of pass.old ≡ 0) }
    ensures pass { IsPassOf cluster.now.cell pass.new × (number_of pass.new ≡ 0) }
    ensures stays { Stays (seen pass.old) (seen pass.new) }
    ensures look { Shows result (replay (seen pass.new)) }
{
    cluster.look(rt, pass).reply
}

/// Does the duty that the settle test names. Gives a look where it names none, or says why it is no entry.
pub fn advance<R: Wait>(
    rt: &R,
    cluster: &Cluster,
    pass: &mut Pass,
) -> Result<Option<Look>, Unanswered>
    requires pass { IsPassOf cluster.now.cell pass.old × (number_of pass.old ≡ 0) }
    ensures pass { IsPassOf cluster.now.cell pass.new × (number_of pass.new ≡ 0) }
    ensures did { result ≡ Ok None → Advanced (seen pass.old) (seen pass.new) }
    ensures idle { (look : Looked) → result ≡ Ok (Some look) → IsIdle look (seen pass.old) (seen pass.new) }
    ensures err { IfErr result (λ cause. StaysBusy cause (seen pass.old) (seen pass.new)) }
{
    match cluster.advance(rt, pass).reply {
        Advance::Idle(look) => Ok(Some(look)),
        Advance::Turned(turn) => match turn {
            Turn::Did(_) => Ok(None),
            Turn::Full(_) => Err(Unanswered::Full),
            Turn::Halted => Err(Unanswered::NoMemory),
            Turn::NoMemory => Err(Unanswered::NoMemory),
            Turn::Idle => unreachable!(),
        },
    }
}
