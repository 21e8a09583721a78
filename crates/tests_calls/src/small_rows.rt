// A small world, which the tests of the dispatcher's parts and of the spread tree read.
ghost use Rattle.std.specs.Prelude.{◌≡◌, ◌<◌, [], IfOk, OnOk, true};
ghost use Rattle.swarm_objects.specs.Bounds.{far_end, is_near_task};
ghost use Rattle.swarm_objects.specs.Usable.{IsUsable};
ghost use Rattle.tests_calls.specs.Small.{AreNodes, small_tables};

use std::alloc::Global;
use swarm_objects::{
    Availability, Desired, Id, List, Ms, Name, Network, NoMemory, Node, NodeRole, NodeState, Note,
    Place, Rows, Service, Settings, Shared, Task, TaskState, Template, Version, add, list_of,
};

/// Some nodes, and a task.
#[derive(Drop)]
pub struct Small {
    pub now: Ms,
    pub nodes: List<Node>,
    pub task: Task,
}

impl Rows for Small {
    ghost tables = { λ p. small_tables p.now p.nodes p.task };

    fn now(&self) -> Ms {
        self.now
    }

    fn next_id(&self) -> Id {
        9
    }

    fn settings(&self) -> Settings {
        Settings {
            heartbeat: 5_000,
            orphan: 1_000,
            history: 5,
        }
    }

    fn node(&self, id: Id) -> Option<&Node> {
        self.nodes.as_slice().iter().find(|row| row.id == id)
    }

    fn service(&self, _id: Id) -> Option<&Service> {
        None
    }

    fn task(&self, id: Id) -> Option<&Task> {
        if self.task.id == id {
            Some(&self.task)
        } else {
            None
        }
    }

    fn network(&self, _id: Id) -> Option<&Network> {
        None
    }

    fn next_node(&self, after: Id) -> Option<&Node> {
        self.nodes.as_slice().iter().find(|row| after < row.id)
    }

    fn next_service(&self, _after: Id) -> Option<&Service> {
        None
    }

    fn next_task(&self, after: Id) -> Option<&Task> {
        if after < self.task.id {
            Some(&self.task)
        } else {
            None
        }
    }

    fn next_network(&self, _after: Id) -> Option<&Network> {
        None
    }

    fn next_task_of(&self, service: Id, after: Id) -> Option<&Task> {
        if self.task.is_of(service) && after < self.task.id {
            Some(&self.task)
        } else {
            None
        }
    }

    fn next_task_at(&self, service: Id, place: Place, after: Id) -> Option<&Task> {
        if self.task.is_at(service, place) && after < self.task.id {
            Some(&self.task)
        } else {
            None
        }
    }

    fn next_task_on(&self, node: Id, after: Id) -> Option<&Task> {
        if self.task.is_on(node) && after < self.task.id {
            Some(&self.task)
        } else {
            None
        }
    }

    fn session_live(&self, _node: Id) -> bool {
        false
    }

    fn attempts(&self, _service: Id, _place: Place, _version: Version, _window: Ms) -> u64 {
        0
    }
}

// A node in a zone, which was last found down at 500.
fn node(alloc: Global, id: Id, zone: &str, state: NodeState) -> Result<Node, NoMemory>
    ensures id { IfOk result (λ node. node.id ≡ id) }
    ensures time { IfOk result (λ node. node.down_since ≡ 500) }
{
    let zone = (Name::new(alloc, "zone")?, Name::new(alloc, zone)?);
    Ok(Node {
        id,
        version: 1,
        name: Name::new(alloc, "n")?,
        labels: list_of(alloc, zone)?,
        role: NodeRole::Worker,
        availability: Availability::Active,
        state,
        down_since: 500,
        cpu: 1_000,
        mem: 1_000,
        os: Name::new(alloc, "linux")?,
        arch: Name::new(alloc, "amd64")?,
        engine: List::new(alloc),
        remote: false,
    })
}

/// Task 2 of service 7.
pub fn task(
    alloc: Global,
    node: Option<Id>,
    state: TaskState,
    desired: Desired,
) -> Result<Task, NoMemory>
    ensures id { IfOk result (λ task. task.id ≡ 2) }
    ensures near { IfOk result (λ task. is_near_task task ≡ true) }
{
    Ok(Task {
        id: 2,
        version: 1,
        service: 7,
        place: Place::Slot(1),
        iteration: 0,
        template: Shared::new(alloc, Template::usual(alloc))?,
        born: 1,
        goal: Desired::Running,
        node,
        state,
        since: 0,
        desired,
        created: 0,
        raise_at: 0,
        addresses: List::new(alloc),
        note: Note::Empty,
        closed: None,
    })
}

/// Node 1.
pub fn one_node(alloc: Global, state: NodeState) -> Result<List<Node>, NoMemory>
    ensures { IfOk result AreNodes }
{
    list_of(alloc, node(alloc, 1, "a", state)?)
}

// Nodes 1 and 3 in zone a, and node 4 in zone b.
fn add_three(alloc: Global, nodes: &mut List<Node>) -> Result<(), NoMemory>
    requires { nodes.old ≡ [] }
    ensures { OnOk result (AreNodes nodes.new) }
{
    add(nodes, node(alloc, 1, "a", NodeState::Ready)?)?;
    add(nodes, node(alloc, 3, "a", NodeState::Ready)?)?;
    add(nodes, node(alloc, 4, "b", NodeState::Ready)?)
}

fn three_nodes(alloc: Global) -> Result<List<Node>, NoMemory>
    ensures { IfOk result AreNodes }
{
    let mut nodes = List::new(alloc);
    match add_three(alloc, &mut nodes) {
        Ok(()) => Ok(nodes),
        Err(NoMemory) => {
            drop(nodes);
            Err(NoMemory)
        }
    }
}

/// Node 1, and task 2 on it.
#[tactic(auto, using(crate::proofs::Small::usable))]
pub fn pair(
    alloc: Global,
    now: Ms,
    up: NodeState,
    state: TaskState,
    desired: Desired,
) -> Result<Small, NoMemory>
    requires { now < far_end }
    ensures { IfOk result (λ small. IsUsable (small_tables small.now small.nodes small.task)) }
{
    let nodes = one_node(alloc, up)?;
    let task = task(alloc, Some(1), state, desired)?;
    Ok(Small { now, nodes, task })
}

/// Three nodes in two zones, and a task that has none.
#[tactic(auto, using(crate::proofs::Small::usable))]
pub fn zones(alloc: Global) -> Result<Small, NoMemory>
    ensures { IfOk result (λ small. IsUsable (small_tables small.now small.nodes small.task)) }
{
    let nodes = three_nodes(alloc)?;
    let task = task(alloc, None, TaskState::Pending, Desired::Running)?;
    Ok(Small {
        now: 0,
        nodes,
        task,
    })
}
