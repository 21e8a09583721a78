// What the dispatcher's duties change.
ghost use Rattle.std.specs.Prelude.{◌≡◌, IfOk};
ghost use Rattle.swarm_objects.specs.Kinds.{role_of};
ghost use Rattle.swarm_objects.specs.Loops.Dispatcher.{after_expire, fallen};
ghost use Rattle.swarm_objects.specs.Rows.{node_id, row_at};
ghost use Rattle.swarm_objects.specs.declared.loops.Role.TheVariants as role;
ghost use Rattle.swarm_objects.specs.ChangeLists.{Makes, put_node_found};
ghost use Rattle.swarm_objects.specs.Effects.{after_duty};
ghost use Rattle.swarm_objects.specs.Usable.{IsUsable};

use std::alloc::Global;
use swarm_objects::states::set_state;
use swarm_objects::{
    Change, Duplicate, Duty, Id, List, Ms, NoMemory, Node, NodeState, Rows, TaskState, Version,
    list_of,
};

// The node, which is DOWN from this time on by the entry with this number.
fn fallen(alloc: Global, node: &Node, version: Version, now: Ms) -> Result<Node, NoMemory>
    ensures { IfOk result (λ row. row ≡ fallen version now node.now) }
{
    let mut row = node.duplicate(alloc)?;
    row.version = version;
    row.state = NodeState::Down;
    row.down_since = now;
    Ok(row)
}

// The node with this id is DOWN from now on, where it is there; as a list.
fn falls<R: Rows>(
    alloc: Global,
    rows: &R,
    version: Version,
    id: Id,
) -> Result<List<Change>, NoMemory>
    ensures { let t = R.tables rows.now in IfOk result
        (λ changes. changes ≡ put_node_found (fallen version t.clock) (row_at node_id id t.nodes)) }
{
    match rows.node(id) {
        Some(node) => list_of(
            alloc,
            Change::PutNode(fallen(alloc, node, version, rows.now())?),
        ),
        None => Ok(List::new(alloc)),
    }
}

// The node with this id is DOWN from now on.
#[tactic(auto, using(crate::proofs::Falling::falls_make))]
fn expire<R: Rows>(
    alloc: Global,
    rows: &R,
    version: Version,
    id: Id,
) -> Result<List<Change>, NoMemory>
    requires { IsUsable (R.tables rows.now) }
    ensures { let t = R.tables rows.now in
        IfOk result (λ changes. Makes t changes (after_expire version t id)) }
{
    falls(alloc, rows, version, id)
}

/// The changes that a duty of the dispatcher makes as the entry with this number. Whether it is due isn't asked: what
/// isn't there is left out.
pub fn changes<R: Rows>(
    alloc: Global,
    rows: &R,
    version: Version,
    duty: Duty,
) -> Result<List<Change>, NoMemory>
    requires usable { IsUsable (R.tables rows.now) }
    requires own { role_of duty ≡ role.Dispatcher }
    ensures { let t = R.tables rows.now in
        IfOk result (λ changes. Makes t changes (after_duty version t duty)) }
{
    match duty {
        Duty::Expire(node) => expire(alloc, rows, version, node),
        Duty::Orphan(task) => set_state(alloc, rows, version, task, TaskState::Orphaned),
        _ => Ok(List::new(alloc)),
    }
}
