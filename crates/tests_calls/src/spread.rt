// The spread of tasks over nodes.
ghost use Rattle.swarm_objects.specs.Usable.{IsUsable};

use crate::small_rows::{task, zones};
use std::alloc::Global;
use std::test::Fail;
use swarm_objects::{
    Desired, Id, Key, Name, NoMemory, Node, Rows, Shared, Task, TaskState, Template, add, list_of,
};
use swarm_spread::{Admits, SpreadTree};

// Every node will do.
struct Any;

impl Admits for Any {
    ghost use Rattle.std.specs.Prelude.{true};

    ghost test = { λ _ _ _. true };

    fn admits(&self, _node: &Node, _task: &Task) -> bool {
        true
    }
}

// The best node by a tree that counted a task on this one, and dropped it again.
fn best_after<R: Rows>(
    alloc: Global,
    rows: &R,
    task: &Task,
    node: Id,
) -> Result<Option<Id>, NoMemory>
    requires { IsUsable (R.tables rows.now) }
{
    let mut tree = SpreadTree::build(alloc, rows, task.service, task.template.spread.as_slice())?;
    tree.add(node)?;
    tree.drop_task(node);
    let found = tree.best(rows, task, &Any);
    drop(tree);
    Ok(found)
}

// A template whose tasks are spread over zones.
fn over_zones(alloc: Global) -> Result<Template, NoMemory> {
    let zone = Key::Label(Name::new(alloc, "zone")?);
    let mut template = Template::usual(alloc);
    add(&mut template.spread, zone)?;
    Ok(template)
}

// The best node for a task that waits for one, of a service that is spread over zones.
fn best_of_rows<R: Rows>(alloc: Global, rows: &R) -> Result<Option<Id>, NoMemory>
    requires { IsUsable (R.tables rows.now) }
{
    let template = Shared::new(alloc, over_zones(alloc)?)?;
    let mut waiting = task(alloc, None, TaskState::Pending, Desired::Running)?;
    waiting.template = template;
    let best = best_after(alloc, rows, &waiting, 1);
    drop(waiting);
    best
}

fn best_of_zones(alloc: Global) -> Result<Option<Id>, NoMemory> {
    let zones = zones(alloc)?;
    let best = best_of_rows(alloc, &zones);
    drop(zones);
    best
}

#[test]
fn first_node_of_the_first_zone(rt: HostRuntime) -> Result<(), Fail> {
    assert_eq!(rt; best_of_zones(rt.alloc())?, Some(1));
    Ok(())
}

// Whether a tree stands once it is built, and once it counts a task on node 1 that isn't there.
fn stand<R: Rows>(alloc: Global, rows: &R, keys: &[Key]) -> Result<(bool, bool), NoMemory>
    requires { IsUsable (R.tables rows.now) }
{
    let mut tree = SpreadTree::build(alloc, rows, 7, keys)?;
    let is_built = tree.stands(rows);
    tree.add(1)?;
    let is_added = tree.stands(rows);
    drop(tree);
    Ok((is_built, is_added))
}

fn stand_over_zones(alloc: Global) -> Result<(bool, bool), NoMemory> {
    let zones = zones(alloc)?;
    let keys = list_of(alloc, Key::Label(Name::new(alloc, "zone")?))?;
    let stand = stand(alloc, &zones, keys.as_slice());
    drop(keys);
    drop(zones);
    stand
}

#[test]
fn a_tree_with_a_task_too_many_does_not_stand(rt: HostRuntime) -> Result<(), Fail> {
    let (is_built, is_added) = stand_over_zones(rt.alloc())?;
    assert!(rt; is_built);
    assert!(rt; !is_added);
    Ok(())
}
