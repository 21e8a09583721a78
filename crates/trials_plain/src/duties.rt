//! Calls of `swarm_duties`.
ghost use Rattle.std.specs.Prelude.{◌≡◌, IfOk};
ghost use Rattle.swarm_duties.specs.Reached.{IsReached};
ghost use Rattle.swarm_duties.specs.Stepping.{DoesStep};
ghost use Rattle.swarm_settle.specs.Matched.{IsMatched};
ghost use Rattle.swarm_model.specs.Settle.{settle_answer};
ghost use Rattle.swarm_objects.specs.Usable.{IsUsableWorld};
ghost use Rattle.swarm_plain.specs.Plain.{world_of};

use swarm_duties::StepFault;
use swarm_objects::{NoMemory, Reply, Settle, What};
use swarm_plain::Plain;

/// `settle`.
pub fn settle(plain: &Plain) -> Result<Settle, NoMemory>
    requires { IsUsableWorld (world_of plain.now) }
    ensures answers { IfOk result (λ answer. answer ≡ settle_answer (world_of plain.now)) }
    ensures matched { IfOk result (λ answer. answer ≡ Settle.Settled → IsMatched (world_of plain.now)) }
{
    let answer = swarm_duties::settle(plain);
    answer
}

/// `step`.
pub fn step(plain: &mut Plain, what: &What) -> Result<Reply, StepFault>
    requires { IsReached (world_of plain.old) }
    ensures { DoesStep (world_of plain.old) what.now result (world_of plain.new) }
{
    let done = swarm_duties::step(plain, what);
    done
}
