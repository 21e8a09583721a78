// A service's tasks on the nodes of each class, by one walk over them.
ghost use Rattle.std.specs.Option.{option_copied};
ghost use Rattle.std.specs.Prelude.{◌≡◌, ◌<◌, IfSome, [], filter};
ghost use Rattle.swarm_objects.specs.Rows.{RisesFrom, row_at};
ghost use Rattle.swarm_objects.specs.Tasks.Words.{is_of};
ghost use Rattle.swarm_objects.specs.Usable.{IsUsable};
ghost use Rattle.swarm_sched.specs.Inside.Branches.{preferences};
ghost use Rattle.swarm_sched.specs.Inside.ClassLoads.{AreLoads, AreMost, task_class};
ghost use Rattle.swarm_sched.specs.Inside.Classes.{AreFew, AreSorted, entry_id};
ghost use Rattle.swarm_sched.specs.declared.classes.TheConstants.{CLASSES};

use crate::branches::Branches;
use crate::classes::{CLASSES, ClassedNode};
use swarm_objects::walks::tasks_of;
use swarm_objects::{Id, Rows, Task};

/// The entry of the node with this id, by halving.
pub fn entry_of(sorted: &[ClassedNode], node: Id) -> Option<&ClassedNode>
    requires { RisesFrom entry_id 0 sorted.now }
    ensures { option_copied result ≡ row_at entry_id node sorted.now }
{
    match sorted.binary_search_by_key(&node, |entry| entry.id) {
        Ok(place) => Some(&sorted[place]),
        Err(_) => None,
    }
}

// The class in which the task counts.
fn task_class(sorted: &[ClassedNode], task: &Task) -> Option<usize>
    requires rises { RisesFrom entry_id 0 sorted.now }
    requires few { AreFew sorted.now }
    ensures class { result ≡ task_class sorted.now task.now }
    ensures few { IfSome result (λ class. class < CLASSES) }
{
    if !task.is_live() || !task.is_placed() {
        return None;
    }
    match task.node {
        Some(node) => match entry_of(sorted, node) {
            Some(entry) => Some(entry.class),
            None => None,
        },
        None => None,
    }
}

// How many of the service's tasks count in each class.
fn class_loads<R: Rows>(rows: &R, service: Id, sorted: &[ClassedNode]) -> [u64; CLASSES]
    requires usable { IsUsable (R.tables rows.now) }
    requires rises { RisesFrom entry_id 0 sorted.now }
    requires few { AreFew sorted.now }
    ensures { AreLoads sorted.now (filter (is_of service) (R.tables rows.now).tasks) result }
{
    let mut loads = [0; CLASSES];
    for task in tasks_of(rows, service) {
        if let Some(class) = task_class(sorted, task) {
            loads[class] += 1;
        }
    }
    loads
}

// Tells how many of the service's tasks count in each class of nodes, which is their branch by all preferences. The
// nodes are gone over until so many classes were met.
fn tell_classes<'a, R: Rows>(
    branches: &mut Branches<'a, R>,
    rows: &'a R,
    loads: &[u64],
    sorted: &[ClassedNode],
    count: usize,
)
    requires usable { IsUsable (R.tables rows.now) }
    requires same { branches.old.tables ≡ R.tables rows.now }
    requires some { branches.old.keys ≡ [] → ⊥ }
    requires sorted { AreSorted (R.tables rows.now).nodes branches.old.keys sorted.now }
    requires loads { AreLoads sorted.now (filter (is_of branches.old.service) (R.tables rows.now).tasks) loads.now }
    ensures same { branches.new ≡ branches.old }
{
    let mut is_told = [false; CLASSES];
    let mut left = count;
    for entry in sorted {
        if left == 0 {
            break;
        }
        if is_told[entry.class] {
            continue;
        }
        is_told[entry.class] = true;
        left -= 1;
        if let Some(node) = rows.node(entry.id) {
            branches.tell(node, loads[entry.class]);
        }
    }
}

/// The branches of the task's service, and how many of its tasks count in each class at most. Where there are
/// preferences, by which the nodes are sorted, exactly so many do: one walk counts them. By more than one preference
/// the branches are told of them.
pub fn branches_of<'a, R: Rows>(
    rows: &'a R,
    task: &'a Task,
    sorted: &[ClassedNode],
    count: usize,
) -> (Branches<'a, R>, [u64; CLASSES])
    requires usable { IsUsable (R.tables rows.now) }
    requires sorted { AreSorted (R.tables rows.now).nodes task.now.template.spread sorted.now }
    ensures branches { result.0 ≡ preferences (R.tables rows.now) task.now }
    ensures most { AreMost sorted.now (filter (is_of task.now.service) (R.tables rows.now).tasks) result.1 }
    ensures loads { (task.now.template.spread ≡ [] → ⊥) →
        AreLoads sorted.now (filter (is_of task.now.service) (R.tables rows.now).tasks) result.1 }
{
    let keys = &task.template.spread;
    let mut branches = Branches::new(rows, task.service, keys.as_slice());
    if keys.is_empty() {
        return (branches, [u64::MAX; CLASSES]);
    }
    let loads = class_loads(rows, task.service, sorted);
    if keys.len() > 1 {
        tell_classes(&mut branches, rows, &loads, sorted, count);
    }
    (branches, loads)
}
