// Worlds that are made entry by entry.
ghost use Rattle.std.specs.Prelude.{IfOk};
ghost use Rattle.swarm_duties.specs.Reached.{IsReached};
ghost use Rattle.swarm_objects.specs.Usable.{IsUsableWorld};
ghost use Rattle.swarm_plain.specs.Plain.{world_of};

use std::alloc::Global;
use std::test::Fail;
use swarm_duties::{Replay, StepFault};
use swarm_objects::{Call, Draft, Duty, List, Name, NoMemory, NodeDraft, Op, Reply, What, add};
use swarm_plain::Plain;

// A node joins under this name.
fn join(alloc: Global, name: &str) -> Result<Op, NoMemory> {
    let draft = NodeDraft::usual(alloc)?;
    Ok(Op::CreateNode(Name::new(alloc, name)?, draft))
}

// The service of these tests is created.
fn create(alloc: Global) -> Result<Op, NoMemory> {
    Ok(Op::CreateService(Name::new(alloc, "web")?, Draft::usual(alloc)?))
}

fn add_ops(alloc: Global, ops: &mut List<Op>, nodes: &[&str]) -> Result<(), NoMemory> {
    for name in nodes {
        add(ops, join(alloc, *name)?)?;
    }
    add(ops, create(alloc)?)
}

// Nodes of these names, and the service.
fn ops_of(alloc: Global, nodes: &[&str]) -> Result<List<Op>, NoMemory> {
    let mut ops = List::new(alloc);
    match add_ops(alloc, &mut ops, nodes) {
        Ok(()) => Ok(ops),
        Err(fault) => {
            drop(ops);
            Err(fault)
        }
    }
}

// What a step came to, its reply left out.
fn without_reply(stepped: &Result<Reply, StepFault>) -> Result<(), StepFault> {
    match stepped {
        Ok(_) => Ok(()),
        Err(fault) => Err(*fault),
    }
}

/// Does it as the next entry.
pub fn enter(replay: &mut Replay, what: What) -> Result<(), Fail> {
    let stepped = replay.step(&what);
    let done = without_reply(&stepped);
    drop(stepped);
    drop(what);
    Ok(done?)
}

/// Makes nodes of these names and the service, by one entry.
pub fn begin(alloc: Global, replay: &mut Replay, nodes: &[&str]) -> Result<(), Fail> {
    let ops = ops_of(alloc, nodes)?;
    enter(replay, What::Call(Call::Txn(ops)))
}

/// Does these duties as the next entries.
pub fn do_all(replay: &mut Replay, all: &[Duty]) -> Result<(), Fail> {
    for duty in all {
        enter(replay, What::Duty(*duty))?;
    }
    Ok(())
}

/// A world for calls that change it.
pub fn copy_of(replay: &Replay) -> Result<Plain, NoMemory>
    ensures reached { IfOk result (λ plain. IsReached (world_of plain)) }
    ensures usable { IfOk result (λ plain. IsUsableWorld (world_of plain)) }
{
    replay.plain().duplicate()
}
