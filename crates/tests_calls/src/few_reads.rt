// How many rows the scheduler reads to find that it has nothing to do.
ghost use Rattle.std.specs.Prelude.{◌≡◌, IfOk, true};
ghost use Rattle.swarm_objects.specs.Bounds.{is_near_task};
ghost use Rattle.swarm_objects.specs.Usable.{IsUsable};
ghost use Rattle.swarm_plain.specs.Plain.{tables_of};
ghost use Rattle.tests_calls.specs.Small.{AreTasks};

use crate::allocations::service;
use crate::small_rows::{one_node, task};
use std::alloc::Global;
use std::cell::Cell;
use std::test::Fail;
use swarm_objects::{
    Desired, Duty, Id, List, Ms, Name, Network, NoMemory, Node, NodeState, Place, Rows, Service,
    Settings, Task, TaskState, Version, add, list_of,
};
use swarm_plain::Plain;
use swarm_sched::{Near, least, least_near};

// Rows whose reads are counted.
#[derive(Drop)]
struct Counting<'a, R: Rows> {
    rows: &'a R,
    reads: Cell<u64>,
}

impl<'a, R: Rows> Counting<'a, R> {
    fn new(rows: &'a R) -> Counting<'a, R>
        ensures { R.tables result.rows.now ≡ R.tables rows.now }
    {
        Counting {
            rows,
            reads: Cell::new(0),
        }
    }

    // The rows, for one read more.
    fn counted(&self) -> &'a R
        ensures { R.tables result.now ≡ R.tables self.now.rows.now }
    {
        self.reads.set(self.reads.get().saturating_add(1));
        self.rows
    }
}

impl<'a, R: Rows> Rows for Counting<'a, R> {
    ghost tables = { λ c. R.tables c.rows.now };

    fn now(&self) -> Ms {
        self.counted().now()
    }

    fn next_id(&self) -> Id {
        self.counted().next_id()
    }

    fn settings(&self) -> Settings {
        self.counted().settings()
    }

    fn node(&self, id: Id) -> Option<&Node> {
        self.counted().node(id)
    }

    fn service(&self, id: Id) -> Option<&Service> {
        self.counted().service(id)
    }

    fn task(&self, id: Id) -> Option<&Task> {
        self.counted().task(id)
    }

    fn network(&self, id: Id) -> Option<&Network> {
        self.counted().network(id)
    }

    fn next_node(&self, after: Id) -> Option<&Node> {
        self.counted().next_node(after)
    }

    fn next_service(&self, after: Id) -> Option<&Service> {
        self.counted().next_service(after)
    }

    fn next_task(&self, after: Id) -> Option<&Task> {
        self.counted().next_task(after)
    }

    fn next_network(&self, after: Id) -> Option<&Network> {
        self.counted().next_network(after)
    }

    fn next_task_of(&self, service: Id, after: Id) -> Option<&Task> {
        self.counted().next_task_of(service, after)
    }

    fn next_task_at(&self, service: Id, place: Place, after: Id) -> Option<&Task> {
        self.counted().next_task_at(service, place, after)
    }

    fn next_task_on(&self, node: Id, after: Id) -> Option<&Task> {
        self.counted().next_task_on(node, after)
    }

    fn session_live(&self, node: Id) -> bool {
        self.counted().session_live(node)
    }

    fn attempts(&self, service: Id, place: Place, version: Version, window: Ms) -> u64 {
        self.counted().attempts(service, place, version, window)
    }
}

// A task of service 7 that runs on node 1.
fn running(alloc: Global, id: Id) -> Result<Task, NoMemory>
    ensures id { IfOk result (λ task. task.id ≡ id) }
    ensures near { IfOk result (λ task. is_near_task task ≡ true) }
{
    let mut task = task(alloc, Some(1), TaskState::Running, Desired::Running)?;
    task.id = id;
    task.place = Place::Slot(id);
    Ok(task)
}

// Tasks 8 to 1,007.
fn many_running(alloc: Global) -> Result<List<Task>, NoMemory>
    ensures { IfOk result (λ tasks. AreTasks 1008 tasks) }
{
    let mut tasks = List::new(alloc);
    for id in 8..1_008 {
        let task = running(alloc, id)?;
        add(&mut tasks, task)?;
    }
    Ok(tasks)
}

// Node 1, service 7, and 1,000 tasks of it that run on that node.
fn crowd(alloc: Global) -> Result<Plain, NoMemory>
    ensures { IfOk result (λ plain. IsUsable (tables_of plain)) }
{
    let nodes = one_node(alloc, NodeState::Ready)?;
    let service = service(alloc, Name::new(alloc, "web")?, List::new(alloc))?;
    let services = list_of(alloc, service)?;
    let tasks = many_running(alloc)?;
    Ok(Plain {
        alloc,
        entries: 1,
        clock: 0,
        next_id: 1_008,
        nodes,
        services,
        tasks,
        networks: List::new(alloc),
        attempts: List::new(alloc),
        sessions: List::new(alloc),
        settings: Settings::usual(),
        sent: List::new(alloc),
        agents: List::new(alloc),
        watchers: List::new(alloc),
        events: List::new(alloc),
        halted: false,
    })
}

// How many reads a look at all tasks takes, and what it finds.
fn reads_of_all<R: Rows>(rows: &R) -> (u64, Option<Duty>)
    requires { IsUsable (R.tables rows.now) }
{
    let counting = Counting::new(rows);
    let duty = least(&counting);
    (counting.reads.get(), duty)
}

fn read_all(alloc: Global) -> Result<(u64, Option<Duty>), NoMemory> {
    let plain = crowd(alloc)?;
    let read = reads_of_all(&plain);
    drop(plain);
    Ok(read)
}

#[test]
fn each_task_is_read(rt: HostRuntime) -> Result<(), Fail> {
    assert_eq!(rt; read_all(rt.alloc())?, (1_001, None));
    Ok(())
}

// How many reads it takes to learn what waits, how many the look after that takes, and what it finds.
fn reads_near<R: Rows>(alloc: Global, rows: &R) -> Result<(u64, u64, Option<Duty>), NoMemory>
    requires { IsUsable (R.tables rows.now) }
{
    let counting = Counting::new(rows);
    let near = Near::build(alloc, &counting)?;
    let learning = counting.reads.replace(0);
    let duty = least_near(&counting, &near);
    drop(near);
    Ok((learning, counting.reads.get(), duty))
}

fn read_near(alloc: Global) -> Result<(u64, u64, Option<Duty>), NoMemory> {
    let plain = crowd(alloc)?;
    let read = reads_near(alloc, &plain);
    drop(plain);
    read
}

#[test]
fn few_reads(rt: HostRuntime) -> Result<(), Fail> {
    let (learning, looking, duty) = read_near(rt.alloc())?;
    assert!(rt; 0 < learning);
    assert!(rt; looking <= 10);
    assert_eq!(rt; duty, None);
    Ok(())
}
