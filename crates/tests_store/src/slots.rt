use role_words::tally_of;
use std::alloc::Global;
use std::test::Fail;
use swarm_objects::{
    Closed, Desired, List, Mode, Name, NoMemory, Note, Place, Service, ServiceSpec, Shared, Task,
    TaskState, Template, UpdateConfig, add,
};

// A replicated service with id 7.
fn service(alloc: Global) -> Result<Service, NoMemory> {
    Ok(Service {
        id: 7,
        version: 1,
        name: Name::new(alloc, "web")?,
        spec: ServiceSpec {
            mode: Mode::usual(),
            template: Shared::new(alloc, Template::usual(alloc))?,
            ports: List::new(alloc),
            update: UpdateConfig::usual(),
        },
        previous: None,
        template_version: 1,
        rolling_back: false,
        iteration: 0,
        numbers: List::new(alloc),
        run: None,
    })
}

// How a task stands: what is desired of it, and why it closes, if it does.
type Stand = (Desired, Option<Closed>);

const LIVE: Stand = (Desired::Running, None);

const CLOSING: Stand = (Desired::Shutdown, Some(Closed::Condition));

const ENDED: Stand = (Desired::Shutdown, None);

// A task of it in this slot.
fn task(alloc: Global, slot: u64, (desired, closed): Stand) -> Result<Task, NoMemory> {
    Ok(Task {
        id: 1,
        version: 1,
        service: 7,
        place: Place::Slot(slot),
        iteration: 0,
        template: Shared::new(alloc, Template::usual(alloc))?,
        born: 1,
        goal: Desired::Running,
        node: None,
        state: TaskState::Running,
        since: 0,
        desired,
        created: 0,
        raise_at: 0,
        addresses: List::new(alloc),
        note: Note::Empty,
        closed,
    })
}

// Adds a task for each of these slots, from the first to the last.
fn fill(
    alloc: Global,
    tasks: &mut List<Task>,
    first: u64,
    last: u64,
    stand: Stand,
) -> Result<(), NoMemory> {
    for slot in first..=last {
        add(tasks, task(alloc, slot, stand)?)?;
    }
    Ok(())
}

// Adds these tasks, and counts: how many slots have a live one, how many are held, and the first gap from 1 on.
fn count(
    alloc: Global,
    tasks: &mut List<Task>,
    service: &Service,
    all: &[(u64, u64, Stand)],
) -> Result<(u64, u64, u64), NoMemory> {
    for (first, last, stand) in all {
        fill(alloc, tasks, *first, *last, *stand)?;
    }
    let tally = tally_of(service, tasks.as_slice(), 1);
    Ok((tally.live, tally.held, tally.gap))
}

// What is counted of a service with these tasks, older ones first: from which slot to which, and how they stand.
fn told(alloc: Global, all: &[(u64, u64, Stand)]) -> Result<(u64, u64, u64), NoMemory> {
    let service = service(alloc)?;
    let mut tasks = List::new(alloc);
    let told = count(alloc, &mut tasks, &service, all);
    drop(tasks);
    drop(service);
    told
}

#[test]
fn closed_slot_is_held(rt: HostRuntime) -> Result<(), Fail> {
    let tasks = [(1, 1, CLOSING), (2, 2, LIVE)];
    assert_eq!(rt; told(rt.alloc(), &tasks)?, (1, 2, 3));
    Ok(())
}

#[test]
fn newest_task_no_longer_closes(rt: HostRuntime) -> Result<(), Fail> {
    let tasks = [(1, 1, CLOSING), (1, 1, ENDED)];
    assert_eq!(rt; told(rt.alloc(), &tasks)?, (0, 0, 1));
    let tasks = [(1, 1, ENDED), (1, 1, CLOSING)];
    assert_eq!(rt; told(rt.alloc(), &tasks)?, (0, 1, 2));
    Ok(())
}

#[test]
fn slot_far_beyond_the_window(rt: HostRuntime) -> Result<(), Fail> {
    let tasks = [(u64::MAX, u64::MAX, LIVE), (1, 1, LIVE)];
    assert_eq!(rt; told(rt.alloc(), &tasks)?, (2, 2, 2));
    Ok(())
}

#[test]
fn gap_beyond_a_full_window(rt: HostRuntime) -> Result<(), Fail> {
    assert_eq!(rt;
        told(rt.alloc(), &[(1, 1_100, LIVE)])?,
        (1_100, 1_100, 1_101)
    );
    Ok(())
}
