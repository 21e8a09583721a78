// The duties on global services over any rows: the first, and what each changes.
#![tactic(auto)]

mod changing;
mod coming;
mod leaving;

ghost use Rattle.std.specs.Prelude.{◌≡◌};
ghost use Rattle.swarm_objects.specs.Loops.Global.{global};
ghost use Rattle.swarm_objects.specs.Rows.{first_of};
ghost use Rattle.swarm_objects.specs.Usable.{IsUsable};

use crate::coming::first_come;
use crate::leaving::first_leave;
pub use changing::changes;
pub use coming::{come_of, wants_here};
pub use leaving::{leave_of, may_stay_on};
use swarm_objects::{Duty, Rows};

/// The first duty on global services.
#[tactic(auto, using(crate::proofs::Steps::first_steps))]
pub fn least<R: Rows>(rows: &R) -> Option<Duty>
    requires { IsUsable (R.tables rows.now) }
    ensures { result ≡ first_of (global (R.tables rows.now)) }
{
    if let Some(duty) = first_leave(rows) {
        return Some(duty);
    }
    first_come(rows)
}
