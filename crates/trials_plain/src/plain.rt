//! Calls of `swarm_plain`.
ghost use Rattle.std.specs.Prelude.{◌≡◌, false};
ghost use Rattle.swarm_model.specs.Calls.{outcome};
ghost use Rattle.swarm_model.specs.Outcome.{Gives, Meets};
ghost use Rattle.swarm_objects.specs.Bounds.{IsSmall};
ghost use Rattle.swarm_objects.specs.CallWords.{is_settle};
ghost use Rattle.swarm_plain.specs.Entries.{HasOrder};
ghost use Rattle.swarm_plain.specs.Plain.{tables_of, world_of};

use swarm_objects::{Call, Reply};
use swarm_plain::Plain;

/// `Plain::call`.
pub fn call(plain: &mut Plain, call: &Call) -> Reply
    requires small { IsSmall (world_of plain.old) }
    requires order { HasOrder (tables_of plain.old) }
    requires other { is_settle call.now ≡ false }
    ensures reply { Meets (outcome (world_of plain.old) call.now) (world_of plain.old) result (world_of plain.new) }
    ensures halt { call.now ≡ Call.Halt → Gives (outcome (world_of plain.old) Call.Halt) result (world_of plain.new) }
{
    let reply = plain.call(call);
    reply
}
