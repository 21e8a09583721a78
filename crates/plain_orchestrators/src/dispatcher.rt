// The dispatcher's duties.
ghost use Rattle.std.specs.Prelude.{◌≡◌, ◌==◌, ◌&&◌, ◌++◌, IfOk, OnOk};
ghost use Rattle.std.specs.List.{list_any};
ghost use Rattle.swarm_objects.specs.Duties.{effect_by, is_due};
ghost use Rattle.swarm_objects.specs.Loops.Dispatcher.{dispatcher, fallen, is_expired, is_orphaned};
ghost use Rattle.swarm_objects.specs.Loops.Words.{duty_where};
ghost use Rattle.swarm_objects.specs.Rows.{change_row, node_id};
ghost use Rattle.swarm_plain.specs.Plain.{world_of};

use swarm_objects::{Duty, Id, List, Ms, NoMemory, Node, NodeState, TaskState, Version, add};
use swarm_plain::Plain;
use swarm_plain::tasks::set_state;
use swarm_sessions::{is_expired, is_orphaned};

// The nodes whose sessions are over.
fn put_expired(plain: &Plain, duties: &mut List<Duty>) -> Result<(), NoMemory>
    ensures { let t = (world_of plain.now).tables in
        OnOk result (duties.new ≡ duties.old ++ duty_where (is_expired t) (λ n. Duty.Expire n.id) t.nodes) }
{
    for node in plain.nodes.as_slice() {
        if is_expired(plain, node) {
            add(duties, Duty::Expire(node.id))?;
        }
    }
    Ok(())
}

// The tasks whose nodes are down for long.
fn put_orphaned(plain: &Plain, duties: &mut List<Duty>) -> Result<(), NoMemory>
    ensures { let t = (world_of plain.now).tables in
        OnOk result (duties.new ≡ duties.old ++ duty_where (is_orphaned t) (λ x. Duty.Orphan x.id) t.tasks) }
{
    for task in plain.tasks.as_slice() {
        if is_orphaned(plain, task) {
            add(duties, Duty::Orphan(task.id))?;
        }
    }
    Ok(())
}

/// The sessions that end, and then the tasks of nodes that are down for long.
pub fn dispatcher_duties(plain: &Plain) -> Result<List<Duty>, NoMemory>
    ensures { IfOk result (λ duties. duties ≡ dispatcher (world_of plain.now).tables) }
{
    let mut duties = List::new(plain.alloc);
    put_expired(plain, &mut duties)?;
    put_orphaned(plain, &mut duties)?;
    Ok(duties)
}

// Some node with this id has expired.
fn has_expired(plain: &Plain, id: Id) -> bool
    ensures { let t = (world_of plain.now).tables in result ≡ list_any (λ n. n.id == id && is_expired t n) t.nodes }
{
    plain
        .nodes
        .as_slice()
        .iter()
        .any(|node| node.id == id && is_expired(plain, node))
}

/// The node with this id is READY without a live session.
pub fn is_expire_due(plain: &Plain, id: Id) -> bool
    ensures { result ≡ is_due (world_of plain.now) (Duty.Expire id) }
{
    has_expired(plain, id)
}

// Some task with this id is orphaned.
fn has_orphaned(plain: &Plain, id: Id) -> bool
    ensures { let t = (world_of plain.now).tables in result ≡ list_any (λ x. x.id == id && is_orphaned t x) t.tasks }
{
    plain
        .tasks
        .as_slice()
        .iter()
        .any(|task| task.id == id && is_orphaned(plain, task))
}

/// The task with this id is on a node that is down for the orphan time.
pub fn is_orphan_due(plain: &Plain, id: Id) -> bool
    ensures { result ≡ is_due (world_of plain.now) (Duty.Orphan id) }
{
    has_orphaned(plain, id)
}

// The node with this id is DOWN from now on.
fn set_down(nodes: &mut [Node], version: Version, now: Ms, id: Id)
    ensures { nodes.new ≡ change_row node_id id (fallen version now) nodes.old }
{
    for node in nodes.iter_mut() {
        if node.id == id {
            node.version = version;
            node.state = NodeState::Down;
            node.down_since = now;
        }
    }
}

/// The node is DOWN from now on.
pub fn expire(plain: &mut Plain, version: Version, node: Id)
    ensures { world_of plain.new ≡ effect_by version (world_of plain.old) (Duty.Expire node) }
{
    set_down(plain.nodes.as_mut_slice(), version, plain.clock, node);
}

/// The task is ORPHANED.
pub fn orphan(plain: &mut Plain, version: Version, task: Id)
    ensures { world_of plain.new ≡ effect_by version (world_of plain.old) (Duty.Orphan task) }
{
    set_state(plain, version, task, TaskState::Orphaned);
}
