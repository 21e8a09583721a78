// Duties done, of whichever control loop.
ghost use Rattle.std.specs.Prelude.{◌≡◌, List as Seq, true};
ghost use Rattle.swarm_model.specs.History.{replay};
ghost use Rattle.swarm_objects.specs.Duties.{is_due};
ghost use Rattle.swarm_objects.specs.Kinds.{role_of};
ghost use Rattle.swarm_objects.specs.declared.calls.Entry.{Entry};
ghost use Rattle.swarm_objects.specs.declared.calls.What.TheVariants as what;
ghost use Rattle.swarm_objects.specs.Effects.{is_agents};
ghost use Rattle.swarm_objects.specs.Usable.{IsUsable};
ghost use Rattle.swarm_world.specs.Inside.Marks.{AreMarked};
ghost use Rattle.swarm_world.specs.Inside.Parts.{Enters, HasDuty, IsAt};
ghost use Rattle.swarm_world.specs.Inside.Records.{tables_of};
ghost use Rattle.swarm_world.specs.Inside.Spanned.{CoversAgents};

use crate::looks::agents_stay_covered;
use crate::marks::Marks;
use crate::parts::Parts;
use swarm_objects::{Duty, NoMemory, Role, Version};

/// It is the agents' loop.
pub fn is_agents(role: Role) -> bool
    ensures { result ≡ is_agents role }
{
    match role {
        Role::Agents => true,
        _ => false,
    }
}

impl Parts {
    /// The duty of the control loop, which is due, is done as the entry with this number; or memory is wanting.
    pub fn take(
        &mut self,
        marks: &mut Marks,
        version: Version,
        role: Role,
        duty: Duty,
    ) -> Result<(), NoMemory>
        requires at { HasDuty duty self.old }
        requires marks { AreMarked marks.old (tables_of self.old.records) }
        requires own { role_of duty ≡ role }
        ensures enters { (h : Seq Entry) → IsAt version self.old h → Enters h (what.Duty duty) result self.new }
        ensures marks { IsUsable (tables_of self.new.records) → AreMarked marks.new (tables_of self.new.records) }
        ensures agents { (h : Seq Entry) → IsAt version self.old h → is_due (replay h) duty ≡ true →
            CoversAgents self.old marks.old.agents → CoversAgents self.new marks.new.agents }
    {
        agents_stay_covered();
        if is_agents(role) {
            return self.take_by_agents(marks, version, duty);
        }
        self.take_by_rows(marks, version, role, duty)
    }
}
