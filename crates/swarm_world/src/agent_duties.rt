// The duties of the agents' loop on the parts of the world.
ghost use Rattle.std.specs.Prelude.{◌≡◌, List as Seq, None, true};
ghost use Rattle.swarm_model.specs.History.{replay, step};
ghost use Rattle.swarm_objects.specs.Effects.{is_agents};
ghost use Rattle.swarm_objects.specs.Kinds.{role_of};
ghost use Rattle.swarm_objects.specs.Nodes.Admission.{not_admitted};
ghost use Rattle.swarm_objects.specs.Nodes.Sessions.{is_session_live};
ghost use Rattle.swarm_objects.specs.Rows.{row_at, session_node};
ghost use Rattle.swarm_objects.specs.Usable.{IsUsable};
ghost use Rattle.swarm_objects.specs.declared.calls.Entry.{Entry};
ghost use Rattle.swarm_objects.specs.declared.calls.What.TheVariants as what;
ghost use Rattle.swarm_objects.specs.declared.duties.Duty.TheVariants as duty;
ghost use Rattle.swarm_world.specs.Inside.Marks.{AreMarked};
ghost use Rattle.swarm_world.specs.Inside.Parts.{Enters, HasDuty, HasHistory, IsAt, StandsFor};
ghost use Rattle.swarm_world.specs.Inside.Records.{tables_of};
ghost use Rattle.swarm_world.specs.Inside.Spanned.{after_turn, with_told};

use crate::commits::commit;
use crate::marks::Marks;
use crate::parts::Parts;
use crate::records::Records;
use swarm_agent::ApplyFault;
use swarm_assign::due_set;
use swarm_objects::openings::set_ready;
use swarm_objects::states::raise_state;
use swarm_objects::{Duty, Id, NoMemory, Version};
use swarm_watch::entries_are_noted;

// The id of the node's live session.
fn live_session(records: &Records, node: Id) -> Id
    requires { is_session_live (tables_of records.now) node ≡ true }
    ensures { let row = row_at session_node node records.now.sessions.rows in
        not_admitted records.now.store.tables.clock result row ≡ None }
{
    let Some(session) = records.sessions.get(node) else {
        unreachable!();
    };
    session.id
}

impl Parts {
    /// The agent registers: its node is READY, and begins a session.
    pub fn register(
        &mut self,
        marks: &mut Marks,
        version: Version,
        node: Id,
    ) -> Result<(), NoMemory>
        requires at { HasHistory self.old }
        requires marks { AreMarked marks.old (tables_of self.old.records) }
        ensures enters { (h : Seq Entry) → IsAt version self.old h →
            Enters h (what.Duty (duty.Register node)) result self.new }
        ensures marks { IsUsable (tables_of self.new.records) → AreMarked marks.new (tables_of self.new.records) }
        ensures agents { marks.new.agents ≡ with_told (duty.Register node) marks.old.agents }
    {
        entries_are_noted();
        marks.agents.tells.add(node);
        let Ok(ready) = set_ready(self.alloc, &self.records, version, node) else {
            return Err(NoMemory);
        };
        marks.touch(&self.records, ready.as_slice());
        marks.touch_session(node);
        let Ok(session) = self.begin(version, node, ready) else {
            return Err(NoMemory);
        };
        self.agents.register(node, session);
        Ok(())
    }

    /// The node's live session has a beat.
    pub fn beat(&mut self, marks: &mut Marks, node: Id)
        requires at { HasHistory self.old }
        requires live { is_session_live (tables_of self.old.records) node ≡ true }
        requires marks { AreMarked marks.old (tables_of self.old.records) }
        ensures stands { (h : Seq Entry) → StandsFor self.old (replay h) →
            StandsFor self.new (step (replay h) (what.Duty (duty.Beat node))).after }
        ensures marks { AreMarked marks.new (tables_of self.new.records) }
        ensures agents { marks.new.agents ≡ marks.old.agents }
    {
        entries_are_noted();
        marks.touch_session(node);
        let session = live_session(&self.records, node);
        let now = self.records.store.now();
        let heartbeat = self.records.store.settings().heartbeat;
        let Ok(_) = self.records.sessions.beat(node, session, now, heartbeat) else {
            unreachable!();
        };
    }

    /// The agent applies the message in its inbox. Of a legal history none is stale.
    pub fn apply(&mut self, node: Id) -> Result<(), NoMemory>
        requires at { HasHistory self.old }
        ensures rows { self.new.records ≡ self.old.records }
        ensures enters { (h : Seq Entry) → StandsFor self.old (replay h) →
            Enters h (what.Duty (duty.Apply node)) result self.new }
    {
        entries_are_noted();
        match self.agents.apply(node) {
            Ok(()) => Ok(()),
            Err(ApplyFault::NoMemory) => Err(NoMemory),
            Err(ApplyFault::Stale(_)) => unreachable!(),
        }
    }

    /// The agent is sent the message that is there for its node.
    pub fn pull(&mut self, node: Id) -> Result<(), NoMemory>
        requires at { HasHistory self.old }
        ensures rows { self.new.records ≡ self.old.records }
        ensures enters { (h : Seq Entry) → StandsFor self.old (replay h) →
            Enters h (what.Duty (duty.Pull node)) result self.new }
    {
        entries_are_noted();
        let Ok(due) = due_set(self.alloc, &self.records, node) else {
            return Err(NoMemory);
        };
        match self.sent.pull(node, due.as_slice()) {
            Ok(Some(message)) => {
                self.agents.receive(node, message);
                Ok(())
            }
            Ok(None) => Ok(()),
            Err(_) => Err(NoMemory),
        }
    }

    /// The executor of the task makes the step that is due.
    pub fn exec(&mut self, node: Id, task: Id)
        requires at { HasHistory self.old }
        ensures rows { self.new.records ≡ self.old.records }
        ensures stands { (h : Seq Entry) → StandsFor self.old (replay h) →
            StandsFor self.new (step (replay h) (what.Duty (duty.Exec node task))).after }
    {
        entries_are_noted();
        let now = self.records.store.now();
        self.agents.exec(node, task, now);
    }

    /// The task rises to the state of its executor on the node, which is reported then.
    pub fn report(
        &mut self,
        marks: &mut Marks,
        version: Version,
        node: Id,
        task: Id,
    ) -> Result<(), NoMemory>
        requires at { HasHistory self.old }
        requires marks { AreMarked marks.old (tables_of self.old.records) }
        ensures enters { (h : Seq Entry) → IsAt version self.old h →
            Enters h (what.Duty (duty.Report node task)) result self.new }
        ensures marks { IsUsable (tables_of self.new.records) → AreMarked marks.new (tables_of self.new.records) }
        ensures agents { marks.new.agents ≡ marks.old.agents }
    {
        entries_are_noted();
        let Some(state) = self.agents.state_of(node, task) else {
            self.agents.reported(node, task);
            return Ok(());
        };
        let Ok(changes) = raise_state(self.alloc, &self.records, version, task, state) else {
            return Err(NoMemory);
        };
        let foreseen = marks.touch(&self.records, changes.as_slice());
        let Ok(()) = commit(&mut self.records, &mut self.watches, version, changes) else {
            return Err(NoMemory);
        };
        marks.remember(foreseen, true);
        self.agents.reported(node, task);
        Ok(())
    }

    /// The executor of the task goes.
    pub fn forget(&mut self, node: Id, task: Id)
        ensures rows { self.new.records ≡ self.old.records }
        ensures stands { (h : Seq Entry) → StandsFor self.old (replay h) →
            StandsFor self.new (step (replay h) (what.Duty (duty.Forget node task))).after }
    {
        entries_are_noted();
        self.agents.forget(node, task);
    }

    // The duty of the agents' loop, which is due, is done as the entry with this number; or memory is wanting. What its
    // agent owes by it is heard apart.
    fn do_by_agents(
        &mut self,
        marks: &mut Marks,
        version: Version,
        duty: Duty,
    ) -> Result<(), NoMemory>
        requires at { HasDuty duty self.old }
        requires own { is_agents (role_of duty) ≡ true }
        requires marks { AreMarked marks.old (tables_of self.old.records) }
        ensures enters { (h : Seq Entry) → IsAt version self.old h → Enters h (what.Duty duty) result self.new }
        ensures marks { IsUsable (tables_of self.new.records) → AreMarked marks.new (tables_of self.new.records) }
        ensures agents { marks.new.agents ≡ with_told duty marks.old.agents }
    {
        match duty {
            Duty::Register(node) => self.register(marks, version, node),
            Duty::Beat(node) => {
                self.beat(marks, node);
                Ok(())
            }
            Duty::Apply(node) => self.apply(node),
            Duty::Pull(node) => self.pull(node),
            Duty::Exec(node, task) => {
                self.exec(node, task);
                Ok(())
            }
            Duty::Report(node, task) => self.report(marks, version, node, task),
            Duty::Forget(node, task) => {
                self.forget(node, task);
                Ok(())
            }
            // those of other loops
            _ => unreachable!(),
        }
    }

    /// The duty of the agents' loop, which is due, is done as the entry with this number; or memory is wanting.
    #[tactic(auto, using(crate::proofs::Heard::turn_steps))]
    pub fn take_by_agents(
        &mut self,
        marks: &mut Marks,
        version: Version,
        duty: Duty,
    ) -> Result<(), NoMemory>
        requires at { HasDuty duty self.old }
        requires own { is_agents (role_of duty) ≡ true }
        requires marks { AreMarked marks.old (tables_of self.old.records) }
        ensures enters { (h : Seq Entry) → IsAt version self.old h → Enters h (what.Duty duty) result self.new }
        ensures marks { IsUsable (tables_of self.new.records) → AreMarked marks.new (tables_of self.new.records) }
        ensures agents { marks.new.agents ≡ after_turn duty marks.old.agents }
    {
        marks.hear(duty);
        self.do_by_agents(marks, version, duty)
    }
}
