// Transactions: operations one after the other, of which all are done or none.
ghost use Rattle.std.specs.Prelude.{◌≡◌, ◌+◌, [], ◌∷◌, length};
ghost use Rattle.std.specs.Result.{result_err};
ghost use Rattle.swarm_model.specs.Calls.{txn};
ghost use Rattle.swarm_model.specs.Calls.Operations.{apply_ops};
ghost use Rattle.swarm_model.specs.Calls.Refusals.{conflict};
ghost use Rattle.swarm_model.specs.Outcome.{Reaches};
ghost use Rattle.swarm_objects.specs.Bounds.{IsSmall};
ghost use Rattle.swarm_plain.specs.Operations.{AppliesOp, AppliesOps, HasRoom};
ghost use Rattle.swarm_plain.specs.Plain.{AnswersCall, tables_of, world_of};

use crate::Plain;
use swarm_objects::limits::MOST_OPS;
use swarm_objects::{Id, List, Op, Refusal, Reply, Version};

// The version that is asked for is the one that there is; or none is.
pub(crate) fn check_version(asked: Option<Version>, now: Version) -> Result<(), Refusal>
    ensures { result_err result ≡ conflict asked now }
{
    match asked {
        Some(asked) if asked != now => Err(Refusal::SequenceConflict(now)),
        _ => Ok(()),
    }
}

impl Plain {
    // Does one operation of the entry with this number, and gives the id of its object. A refusal changes nothing.
    fn apply_op(&mut self, version: Version, op: &Op) -> Result<Id, Refusal>
        requires { HasRoom 1 (tables_of self.old) }
        ensures { AppliesOp version op.now self.old result self.new }
    {
        match op {
            Op::CreateNode(name, draft) => self.create_node(version, name, draft),
            Op::UpdateNode(name, asked, labels, role, availability) => {
                self.update_node(version, name, *asked, labels, *role, *availability)
            }
            Op::RemoveNode(name, force) => self.remove_node(version, name, *force),
            Op::CreateService(name, draft) => self.create_service(version, name, draft),
            Op::UpdateService(name, asked, draft) => {
                self.update_service(version, name, *asked, draft)
            }
            Op::RemoveService(name) => self.remove_service(name),
            Op::RollbackService(name, asked) => self.rollback_service(version, name, *asked),
            Op::CreateNetwork(name, base, length) => {
                self.create_network(version, name, *base, *length)
            }
            Op::RemoveNetwork(name) => self.remove_network(name),
            Op::SetCluster(settings) => self.set_cluster(*settings),
        }
    }

    // Does the operations one after the other, and gives the ids of their objects. After a refusal the earlier ones
    // stay done.
    fn apply_ops(&mut self, version: Version, ops: &[Op]) -> Result<List<Id>, Refusal>
        requires { HasRoom (length ops.now) (tables_of self.old) }
        ensures { Reaches (apply_ops version ops.now (world_of self.old) []) result (world_of self.new) }
    {
        let mut ids = List::new(self.alloc);
        for op in ops {
            let id = self.apply_op(version, op)?;
            if ids.push(id).is_err() {
                return Err(Refusal::NoMemory);
            }
        }
        Ok(ids)
    }

    // Several operations work on a copy, so that a refusal leaves nothing of them behind.
    fn apply_ops_in_copy(&mut self, version: Version, ops: &[Op]) -> Result<List<Id>, Refusal>
        requires { HasRoom (length ops.now) (tables_of self.old) }
        ensures { AppliesOps version ops.now self.old result self.new }
    {
        let Ok(mut copy) = self.duplicate() else {
            return Err(Refusal::NoMemory);
        };
        match copy.apply_ops(version, ops) {
            Ok(ids) => {
                *self = copy;
                Ok(ids)
            }
            Err(refusal) => Err(refusal),
        }
    }

    // A single operation needs no copy, since its refusal changes nothing. The room for its id is taken first.
    fn apply_op_alone(&mut self, version: Version, op: &Op) -> Result<List<Id>, Refusal>
        requires { HasRoom 1 (tables_of self.old) }
        ensures { AppliesOps version (op.now ∷ []) self.old result self.new }
    {
        let Ok(mut ids) = Vec::with_capacity(self.alloc, 1) else {
            return Err(Refusal::NoMemory);
        };
        match self.apply_op(version, op) {
            Ok(id) => match ids.push(id) {
                Ok(()) => Ok(List::from_vec(ids)),
                Err(_) => unreachable!(),
            },
            Err(refusal) => Err(refusal),
        }
    }

    // All of the operations, or none.
    fn apply_all_or_none(&mut self, version: Version, ops: &[Op]) -> Result<List<Id>, Refusal>
        requires { HasRoom (length ops.now) (tables_of self.old) }
        ensures { AppliesOps version ops.now self.old result self.new }
    {
        match ops {
            [op] => self.apply_op_alone(version, op),
            _ => self.apply_ops_in_copy(version, ops),
        }
    }

    // Performs the transaction as the next entry: all of its operations, or none. The entry isn't counted here.
    pub(crate) fn transact(&mut self, ops: &[Op]) -> Result<Reply, Refusal>
        requires { IsSmall (world_of self.old) }
        ensures { AnswersCall (txn (self.old.entries + 1) (world_of self.old) ops.now) self.old result self.new }
    {
        let count = ops.len();
        if count > MOST_OPS {
            return Err(Refusal::TooManyOps(count as u64));
        }
        match self.apply_all_or_none(self.entries + 1, ops) {
            Ok(ids) => Ok(Reply::Txn(ids)),
            Err(refusal) => Err(refusal),
        }
    }
}
