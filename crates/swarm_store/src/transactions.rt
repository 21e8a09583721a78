// Transactions: operations one after the other, of which all are done or none.
ghost use Rattle.std.specs.Prelude.{◌≡◌, [], OnErr, OnOk};
ghost use Rattle.swarm_model.specs.Changed.{changes_between};
ghost use Rattle.std.specs.Result.{result_err};
ghost use Rattle.swarm_model.specs.Calls.Operations.{apply_ops};
ghost use Rattle.swarm_model.specs.Calls.Refusals.{conflict};
ghost use Rattle.swarm_store.specs.Inside.Done.{made_all};
ghost use Rattle.swarm_store.specs.Inside.Ops.{Does, Reached};
ghost use Rattle.swarm_store.specs.Inside.State.{IsUntouched, Stands, tables_now, tables_start, world_now};

use crate::state::State;
use swarm_objects::{Event, Id, List, NoMemory, Op, Refusal, Version};

// The version that is asked for is the one that there is; or none is.
pub(crate) fn check_version(asked: Option<Version>, now: Version) -> Result<(), Refusal>
    ensures { result_err result ≡ conflict asked now }
{
    match asked {
        Some(asked) if asked != now => Err(Refusal::SequenceConflict(now)),
        _ => Ok(()),
    }
}

impl State {
    // Does one operation of the entry with this number, and gives the id of its object. After a refusal a part of it
    // may stand.
    fn apply_op(&mut self, version: Version, op: &Op) -> Result<Id, Refusal>
        requires { Stands (tables_now self.old) }
        ensures done { Does version op.now self.old result self.new }
        ensures start { tables_start self.new ≡ tables_start self.old }
    {
        match op {
            Op::CreateNode(name, draft) => self.create_node(version, name, draft),
            Op::UpdateNode(name, asked, labels, role, availability) => {
                self.update_node(version, name, *asked, labels, *role, *availability)
            }
            Op::RemoveNode(name, force) => self.remove_node(version, name, *force),
            Op::CreateService(name, draft) => self.create_service(version, name, draft),
            Op::UpdateService(name, asked, draft) => {
                self.update_service(version, name, *asked, draft)
            }
            Op::RemoveService(name) => self.remove_service(version, name),
            Op::RollbackService(name, asked) => self.rollback_service(version, name, *asked),
            Op::CreateNetwork(name, base, length) => {
                self.create_network(version, name, *base, *length)
            }
            Op::RemoveNetwork(name) => self.remove_network(version, name),
            Op::SetCluster(settings) => self.set_cluster(version, *settings),
        }
    }

    // Does the operations one after the other, and gives the ids of their objects. After a refusal the earlier ones
    // stay done.
    fn apply_ops(&mut self, version: Version, ops: &[Op]) -> Result<List<Id>, Refusal>
        requires { Stands (tables_now self.old) }
        ensures done { Reached
            (made_all (apply_ops version ops.now (world_now self.old) [])) result (tables_now self.new) }
        ensures stands { OnOk result (Stands (tables_now self.new)) }
        ensures start { tables_start self.new ≡ tables_start self.old }
    {
        let mut ids = List::new(self.alloc);
        for op in ops {
            let id = self.apply_op(version, op)?;
            if ids.push(id).is_err() {
                return Err(Refusal::NoMemory);
            }
        }
        Ok(ids)
    }

    // All of the operations, or none.
    pub(crate) fn transact(
        &mut self,
        events: &mut Vec<Event>,
        version: Version,
        ops: &[Op],
    ) -> Result<List<Id>, Refusal>
        requires untouched { IsUntouched self.old }
        ensures untouched { IsUntouched self.new }
        ensures done { Reached
            (made_all (apply_ops version ops.now (world_now self.old) [])) result (tables_now self.new) }
        ensures ok { OnOk result (
            events.new.items ≡ changes_between version (tables_now self.old) (tables_now self.new)) }
        ensures err { OnErr result (
            (tables_now self.new ≡ tables_now self.old) × (events.new.items ≡ events.old.items)
            ) }
    {
        match self.apply_ops(version, ops) {
            Ok(ids) => match self.commit(events, version) {
                Ok(()) => Ok(ids),
                Err(NoMemory) => Err(Refusal::NoMemory),
            },
            Err(refusal) => {
                self.take_back();
                Err(refusal)
            }
        }
    }
}
