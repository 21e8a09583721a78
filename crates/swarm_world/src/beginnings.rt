// Sessions that begin, of nodes inside and of remote ones.
ghost use Rattle.std.specs.Prelude.{◌<◌, List as Seq};
ghost use Rattle.swarm_model.specs.History.{replay};
ghost use Rattle.swarm_objects.specs.Bounds.{far_end};
ghost use Rattle.swarm_objects.specs.ChangeLists.{CanApplyAll, apply_changes};
ghost use Rattle.swarm_objects.specs.declared.calls.Entry.{Entry};
ghost use Rattle.swarm_world.specs.Inside.Beginnings.{Begins};
ghost use Rattle.swarm_world.specs.Inside.Parts.{HasHistory, StandsFor};
ghost use Rattle.swarm_world.specs.Inside.Records.{tables_of};

use crate::commits::commit;
use crate::parts::Parts;
use swarm_objects::{Change, Id, List, NoMemory, Version};

impl Parts {
    /// The node begins a session, once the changes of rows are made. What follows these takes no memory.
    pub fn begin(
        &mut self,
        version: Version,
        node: Id,
        changes: List<Change>,
    ) -> Result<Id, NoMemory>
        requires at { HasHistory self.old }
        requires can { CanApplyAll (tables_of self.old.records) changes }
        requires next { (apply_changes (tables_of self.old.records) changes).next_id < far_end }
        ensures { (h : Seq Entry) → StandsFor self.old (replay h) →
            Begins version (replay h) node changes self.old result self.new }
    {
        let Ok(()) = self.records.sessions.reserve(1) else {
            return Err(NoMemory);
        };
        let Ok(()) = commit(&mut self.records, &mut self.watches, version, changes) else {
            return Err(NoMemory);
        };
        let session = self.records.store.take_id();
        let now = self.records.store.now();
        let heartbeat = self.records.store.settings().heartbeat;
        let Ok(()) = self.records.sessions.begin(node, session, now, heartbeat) else {
            unreachable!();
        };
        self.sent.remove(node);
        Ok(session)
    }
}
