// The dispatcher's first duty: nodes whose sessions are over, and then the tasks of nodes that are down for long.
ghost use Rattle.std.specs.Prelude.{◌≡◌};
ghost use Rattle.std.specs.List.{list_any};
ghost use Rattle.swarm_objects.specs.Loops.Dispatcher.{dispatcher, is_expired, is_long_down, is_orphaned};
ghost use Rattle.swarm_objects.specs.Loops.Words.{duty_where};
ghost use Rattle.swarm_objects.specs.Rows.{first_of};
ghost use Rattle.swarm_objects.specs.Usable.{IsUsable};

use swarm_objects::homes::node_of;
use swarm_objects::walks::{nodes, tasks};
use swarm_objects::{Duty, Node, Rows, Task};

/// It is READY without a live session.
pub fn is_expired<R: Rows>(rows: &R, node: &Node) -> bool
    ensures { result ≡ is_expired (R.tables rows.now) node.now }
{
    node.is_ready() && !rows.session_live(node.id)
}

/// It is down for the orphan time.
pub fn is_long_down<R: Rows>(rows: &R, node: &Node) -> bool
    ensures { result ≡ is_long_down (R.tables rows.now) node.now }
{
    let orphan_time = rows.settings().orphan;
    let now = rows.now();
    node.is_down() && u128::from(node.down_since) + u128::from(orphan_time) <= u128::from(now)
}

/// It is on a node that is down for the orphan time.
pub fn is_orphaned<R: Rows>(rows: &R, task: &Task) -> bool
    ensures { result ≡ is_orphaned (R.tables rows.now) task.now }
{
    task.is_placed() && node_of(rows, task).is_some_and(|node| is_long_down(rows, node))
}

// The first node whose session is over.
fn first_expired<R: Rows>(rows: &R) -> Option<Duty>
    requires { IsUsable (R.tables rows.now) }
    ensures { let t = R.tables rows.now in
        result ≡ first_of (duty_where (is_expired t) (λ n. Duty.Expire n.id) t.nodes) }
{
    for node in nodes(rows) {
        if is_expired(rows, node) {
            return Some(Duty::Expire(node.id));
        }
    }
    None
}

// The first task on a node that is down for long, by a scan.
fn scan_orphaned<R: Rows>(rows: &R) -> Option<Duty>
    requires { IsUsable (R.tables rows.now) }
    ensures { let t = R.tables rows.now in
        result ≡ first_of (duty_where (is_orphaned t) (λ x. Duty.Orphan x.id) t.tasks) }
{
    for task in tasks(rows) {
        if is_orphaned(rows, task) {
            return Some(Duty::Orphan(task.id));
        }
    }
    None
}

// Some node is down for the orphan time.
fn any_long_down<R: Rows>(rows: &R) -> bool
    requires { IsUsable (R.tables rows.now) }
    ensures { let t = R.tables rows.now in result ≡ list_any (is_long_down t) t.nodes }
{
    nodes(rows).any(|node| is_long_down(rows, node))
}

// The first task on a node that is down for long. Where no node is, no task is looked at.
#[tactic(auto, using(crate::proofs::Orphans::none_orphaned))]
fn first_orphaned<R: Rows>(rows: &R) -> Option<Duty>
    requires { IsUsable (R.tables rows.now) }
    ensures { let t = R.tables rows.now in
        result ≡ first_of (duty_where (is_orphaned t) (λ x. Duty.Orphan x.id) t.tasks) }
{
    if any_long_down(rows) {
        scan_orphaned(rows)
    } else {
        None
    }
}

/// The first duty of the dispatcher.
#[tactic(auto, using(crate::proofs::Steps::first_steps))]
pub fn least_dispatcher<R: Rows>(rows: &R) -> Option<Duty>
    requires { IsUsable (R.tables rows.now) }
    ensures { result ≡ first_of (dispatcher (R.tables rows.now)) }
{
    if let Some(duty) = first_expired(rows) {
        return Some(duty);
    }
    first_orphaned(rows)
}
