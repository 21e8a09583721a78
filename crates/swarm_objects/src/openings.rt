// What changes where a node's session opens: its row, and its tasks that no longer fit in its resources.
ghost use Rattle.std.specs.Prelude.{◌≡◌, ◌++◌, ◌∷◌, [], IfOk, OnOk, filter};
ghost use Rattle.swarm_objects.specs.Changes.{change_node, in_state};
ghost use Rattle.swarm_objects.specs.Nodes.Opening.{tasks_within, with_resources};
ghost use Rattle.swarm_objects.specs.Nodes.Sessions.{ready_node};
ghost use Rattle.swarm_objects.specs.Rows.{change_row, node_id, row_at};
ghost use Rattle.swarm_objects.specs.Tasks.Words.{is_on};
ghost use Rattle.swarm_objects.specs.ChangeLists.{Makes, put_node_found};
ghost use Rattle.swarm_objects.specs.Openings.{rejections};
ghost use Rattle.swarm_objects.specs.Usable.{IsUsable};

use crate::effects::in_state;
use crate::walks::tasks_on;
use crate::{
    Change, Duplicate, Id, List, NoMemory, Node, NodeState, Rows, Task, TaskState, Version, add,
    list_of,
};
use std::alloc::Global;

// The node's row.

// The node, which is READY by the entry with this number.
fn ready(alloc: Global, node: &Node, version: Version) -> Result<Node, NoMemory>
    ensures { IfOk result (λ row. row ≡ ready_node version node.now) }
{
    let mut row = node.duplicate(alloc)?;
    row.version = version;
    row.state = NodeState::Ready;
    Ok(row)
}

// The same with these resources.
fn with_resources(
    alloc: Global,
    node: &Node,
    version: Version,
    cpu: u64,
    mem: u64,
) -> Result<Node, NoMemory>
    ensures { IfOk result (λ row. row ≡ with_resources version cpu mem node.now) }
{
    let mut row = ready(alloc, node, version)?;
    row.cpu = cpu;
    row.mem = mem;
    Ok(row)
}

fn readies<R: Rows>(
    alloc: Global,
    rows: &R,
    version: Version,
    id: Id,
) -> Result<List<Change>, NoMemory>
    ensures { let t = R.tables rows.now in
        IfOk result (λ changes. changes ≡ put_node_found (ready_node version) (row_at node_id id t.nodes)) }
{
    match rows.node(id) {
        Some(node) => list_of(alloc, Change::PutNode(ready(alloc, node, version)?)),
        None => Ok(List::new(alloc)),
    }
}

/// The node with this id is READY, where it is there: what a new session changes of the rows. The session and its id
/// stand beside them.
#[tactic(auto, using(crate::proofs::Fitting::ready_makes))]
pub fn set_ready<R: Rows>(
    alloc: Global,
    rows: &R,
    version: Version,
    id: Id,
) -> Result<List<Change>, NoMemory>
    requires { IsUsable (R.tables rows.now) }
    ensures { let t = R.tables rows.now in
        IfOk result (λ changes. Makes t changes (change_node id (ready_node version) t)) }
{
    readies(alloc, rows, version, id)
}

fn equipped_row<R: Rows>(
    alloc: Global,
    rows: &R,
    version: Version,
    id: Id,
    cpu: u64,
    mem: u64,
) -> Result<List<Change>, NoMemory>
    ensures { let t = R.tables rows.now in IfOk result (λ changes. changes
        ≡ put_node_found (with_resources version cpu mem) (row_at node_id id t.nodes)) }
{
    match rows.node(id) {
        Some(node) => list_of(
            alloc,
            Change::PutNode(with_resources(alloc, node, version, cpu, mem)?),
        ),
        None => Ok(List::new(alloc)),
    }
}

// Its tasks.

// The task is rejected now.
fn add_rejection<R: Rows>(
    alloc: Global,
    rows: &R,
    version: Version,
    task: &Task,
    changes: &mut List<Change>,
) -> Result<(), NoMemory>
    ensures { let t = R.tables rows.now in
        let put = Change.PutTask (in_state version t.clock TaskState.Rejected task.now) in
        OnOk result (changes.new ≡ changes.old ++ put ∷ []) }
{
    let row = in_state(alloc, task, version, rows.now(), TaskState::Rejected)?;
    add(changes, Change::PutTask(row))
}

// Of the node's placed tasks each takes its part of what is left, or is rejected where that is too little.
fn add_rejections<R: Rows>(
    alloc: Global,
    rows: &R,
    version: Version,
    node: Id,
    cpu: u64,
    mem: u64,
    changes: &mut List<Change>,
) -> Result<(), NoMemory>
    requires { IsUsable (R.tables rows.now) }
    ensures { let t = R.tables rows.now in
        let rejected = rejections version t.clock cpu mem (filter (is_on node) t.tasks) in
        OnOk result (changes.new ≡ changes.old ++ rejected) }
{
    let mut cpu_left = cpu;
    let mut mem_left = mem;
    for task in tasks_on(rows, node) {
        if task.is_placed() {
            if task.template.cpu <= cpu_left && task.template.mem <= mem_left {
                cpu_left -= task.template.cpu;
                mem_left -= task.template.mem;
            } else {
                add_rejection(alloc, rows, version, task, changes)?;
            }
        }
    }
    Ok(())
}

fn resources<R: Rows>(
    alloc: Global,
    rows: &R,
    version: Version,
    id: Id,
    cpu: u64,
    mem: u64,
) -> Result<List<Change>, NoMemory>
    requires { IsUsable (R.tables rows.now) }
    ensures { let t = R.tables rows.now in
        let rejected = rejections version t.clock cpu mem (filter (is_on id) t.tasks) in
        let put = put_node_found (with_resources version cpu mem) (row_at node_id id t.nodes) in
        IfOk result (λ changes. changes ≡ put ++ rejected) }
{
    let mut changes = equipped_row(alloc, rows, version, id, cpu, mem)?;
    add_rejections(alloc, rows, version, id, cpu, mem, &mut changes)?;
    Ok(changes)
}

/// The node with this id is READY with these resources, in thousandths of a processor and bytes of memory, where it is
/// there. By rising id each of its placed tasks takes its part of them, and is rejected where too little is left. The
/// session that opens so, and its id, stand beside the rows.
#[tactic(auto, using(crate::proofs::Fitting::resources_make))]
pub fn set_resources<R: Rows>(
    alloc: Global,
    rows: &R,
    version: Version,
    id: Id,
    cpu: u64,
    mem: u64,
) -> Result<List<Change>, NoMemory>
    requires { IsUsable (R.tables rows.now) }
    ensures { let t = R.tables rows.now in IfOk result (λ changes. Makes t changes (record t {
      nodes = change_row node_id id (with_resources version cpu mem) t.nodes;
      tasks = tasks_within version t.clock id cpu mem t.tasks;
    })) }
{
    resources(alloc, rows, version, id, cpu, mem)
}
