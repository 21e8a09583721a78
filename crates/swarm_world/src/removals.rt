// What removed nodes had beside their rows.
ghost use Rattle.std.specs.Prelude.{◌≡◌};
ghost use Rattle.swarm_objects.specs.Rows.{agent_node, sent_node, session_node};
ghost use Rattle.swarm_world.specs.Inside.BesideOps.{drop_one, drops};

use swarm_agent::Agents;
use swarm_assign::Sents;
use swarm_objects::{Id, Op};
use swarm_sessions::Sessions;

// If the operation removed a node, what it had goes.
fn drop_one(sessions: &mut Sessions, sent: &mut Sents, agents: &mut Agents, op: &Op, id: Id)
    ensures sessions { sessions.new.rows ≡ drop_one session_node op.now id sessions.old.rows }
    ensures sent { sent.new ≡ drop_one sent_node op.now id sent.old }
    ensures agents { agents.new ≡ drop_one agent_node op.now id agents.old }
{
    match op {
        Op::RemoveNode(_, _) => {
            sessions.remove(id);
            sent.remove(id);
            agents.remove(id);
        }
        _ => {}
    }
}

/// What nodes had that the operations removed goes. The ids are those of the operations' objects.
pub fn drop_removed(
    sessions: &mut Sessions,
    sent: &mut Sents,
    agents: &mut Agents,
    ops: &[Op],
    ids: &[Id],
)
    ensures sessions { sessions.new.rows ≡ drops session_node ops.now ids.now sessions.old.rows }
    ensures sent { sent.new ≡ drops sent_node ops.now ids.now sent.old }
    ensures agents { agents.new ≡ drops agent_node ops.now ids.now agents.old }
{
    let mut rest = ops;
    let mut left = ids;
    while let (Some((op, more)), Some((id, later))) = (rest.split_first(), left.split_first()) {
        drop_one(sessions, sent, agents, op, *id);
        rest = more;
        left = later;
    }
}
