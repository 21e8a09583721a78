// What an entry changed of nodes and tasks, seen from outside: for entries whose changes no loop over rows makes.
use std::alloc::Global;
use swarm_objects::{Change, Duplicate, List, NoMemory, Node, Same, Task, add};
use swarm_plain::Plain;

fn has_node(nodes: &[Node], node: &Node) -> bool {
    nodes.iter().any(|row| row.same(node))
}

fn has_task(tasks: &[Task], task: &Task) -> bool {
    tasks.iter().any(|row| row.same(task))
}

fn add_nodes(
    alloc: Global,
    changes: &mut List<Change>,
    before: &[Node],
    after: &[Node],
) -> Result<(), NoMemory> {
    for node in after {
        if !has_node(before, node) {
            add(changes, Change::PutNode(node.duplicate(alloc)?))?;
        }
    }
    Ok(())
}

fn add_tasks(
    alloc: Global,
    changes: &mut List<Change>,
    before: &[Task],
    after: &[Task],
) -> Result<(), NoMemory> {
    for task in after {
        if !has_task(before, task) {
            add(changes, Change::PutTask(task.duplicate(alloc)?))?;
        }
    }
    Ok(())
}

fn add_all(
    alloc: Global,
    changes: &mut List<Change>,
    before: &Plain,
    after: &Plain,
) -> Result<(), NoMemory> {
    add_nodes(
        alloc,
        changes,
        before.nodes.as_slice(),
        after.nodes.as_slice(),
    )?;
    add_tasks(
        alloc,
        changes,
        before.tasks.as_slice(),
        after.tasks.as_slice(),
    )
}

/// The nodes and tasks that the later world has otherwise, each put.
pub(crate) fn differences(
    alloc: Global,
    before: &Plain,
    after: &Plain,
) -> Result<List<Change>, NoMemory> {
    let mut changes = List::new(alloc);
    match add_all(alloc, &mut changes, before, after) {
        Ok(()) => Ok(changes),
        Err(fault) => {
            drop(changes);
            Err(fault)
        }
    }
}
