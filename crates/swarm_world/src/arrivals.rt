// The agents of nodes that a transaction creates.
ghost use Rattle.std.specs.Prelude.{◌≡◌, ◌<◌, ◌+◌, ◌^◌, ◌++◌, OnErr, OnOk, length};
ghost use Rattle.swarm_model.specs.Calls.Nodes.{with_agent_if};
ghost use Rattle.swarm_objects.specs.Rows.{IsBelow, agent_node};
ghost use Rattle.swarm_world.specs.Inside.BesideOps.{creates_agent, new_agents, next_after};

use std::alloc::Global;
use swarm_agent::{Agent, Agents};
use swarm_objects::{Id, NoMemory, Op};

// It creates a node with an agent.
fn creates_agent(op: &Op) -> bool
    ensures { result ≡ creates_agent op.now }
{
    match op {
        Op::CreateNode(_, draft) => !draft.remote,
        _ => false,
    }
}

// The next id after the operation.
fn next_after(op: &Op, id: Id) -> Id
    requires { id + 1 < 2 ^ 64 }
    ensures { result ≡ next_after op.now id }
{
    match op {
        Op::CreateNode(_, _) => id + 1,
        Op::CreateService(_, _) => id + 1,
        Op::CreateNetwork(_, _, _) => id + 1,
        _ => id,
    }
}

// If the operation creates a node with an agent, the agent comes, under this id.
fn put_new_agent(alloc: Global, agents: &mut Agents, id: Id, op: &Op) -> Result<(), NoMemory>
    requires { IsBelow agent_node id agents.old }
    ensures ok { OnOk result (agents.new ≡ with_agent_if (creates_agent op.now) id agents.old) }
    ensures err { OnErr result (agents.new ≡ agents.old) }
{
    if creates_agent(op) {
        agents.insert(id, Agent::new(alloc))
    } else {
        Ok(())
    }
}

/// The agents of the nodes that the operations are to create come, where this is the next id; or memory is wanting, and
/// none comes.
pub fn put_new_agents(
    alloc: Global,
    agents: &mut Agents,
    next: Id,
    ops: &[Op],
) -> Result<(), NoMemory>
    requires below { IsBelow agent_node next agents.old }
    requires ids { next + length ops.now < 2 ^ 64 }
    ensures ok { OnOk result (agents.new ≡ agents.old ++ new_agents next ops.now) }
    ensures err { OnErr result (agents.new ≡ agents.old) }
{
    let mut id = next;
    let mut rest = ops;
    while let Some((op, more)) = rest.split_first() {
        let Ok(()) = put_new_agent(alloc, agents, id, op) else {
            agents.cut(next);
            return Err(NoMemory);
        };
        id = next_after(op, id);
        rest = more;
    }
    Ok(())
}
