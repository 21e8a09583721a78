// Each answer, asked for once.
use std::alloc::Global;
use std::test::Fail;
use store_ports::{PortCounts, times};
use swarm_objects::{Draft, List, Name, NoMemory, Port, PortNumber, Service, add};

// Names 80 twice by TCP, and 53 by UDP as a number that was given.
fn add_numbers(service: &mut Service) -> Result<(), NoMemory> {
    for target in [8_080, 8_081] {
        add(
            &mut service.spec.ports,
            Port {
                target,
                number: Some(80),
                udp: false,
            },
        )?;
    }
    add(
        &mut service.numbers,
        PortNumber {
            target: 53,
            udp: true,
            number: 53,
        },
    )
}

fn service(alloc: Global) -> Result<Service, NoMemory> {
    Ok(Service {
        id: 1,
        version: 1,
        name: Name::new(alloc, "web")?,
        spec: Draft::usual(alloc)?.spec,
        previous: None,
        template_version: 1,
        rolling_back: false,
        iteration: 0,
        numbers: List::new(alloc),
        run: None,
    })
}

// How often 80 by TCP, 80 by UDP, and 53 by UDP are named.
type Told = [Option<usize>; 3];

fn told(counts: &PortCounts) -> Told {
    [
        counts.times(false, 80),
        counts.times(true, 80),
        counts.times(true, 53),
    ]
}

// What is told when its numbers came, when they went, and when they came and all are cleared.
fn come_and_go(counts: &mut PortCounts, web: &Service) -> [Told; 3] {
    counts.enter(web);
    let come = told(counts);
    counts.leave(web);
    let gone = told(counts);
    counts.enter(web);
    counts.clear();
    [come, gone, told(counts)]
}

// What is told when they came so often.
fn fill(counts: &mut PortCounts, web: &Service, most: u32) -> Told {
    for _ in 0..most {
        counts.enter(web);
    }
    told(counts)
}

// All that is told, at new counts for either.
#[derive(Clone, Copy)]
struct Answers {
    moved: [Told; 3],
    full: Told,
    // How often the service names 80 by TCP and by UDP.
    own: (usize, usize),
}

fn moved(alloc: Global, web: &Service) -> Result<[Told; 3], NoMemory> {
    let mut counts = PortCounts::new(alloc)?;
    let told = come_and_go(&mut counts, web);
    drop(counts);
    Ok(told)
}

fn filled(alloc: Global, web: &Service) -> Result<Told, NoMemory> {
    let mut counts = PortCounts::new(alloc)?;
    let told = fill(&mut counts, web, 40_000);
    drop(counts);
    Ok(told)
}

fn ask(alloc: Global, web: &mut Service) -> Result<Answers, NoMemory> {
    add_numbers(web)?;
    Ok(Answers {
        moved: moved(alloc, web)?,
        full: filled(alloc, web)?,
        own: (times(false, 80, web), times(true, 80, web)),
    })
}

fn asked(alloc: Global) -> Result<Answers, NoMemory> {
    let mut web = service(alloc)?;
    let answers = ask(alloc, &mut web);
    drop(web);
    answers
}

#[test]
fn numbers_come_and_go(rt: HostRuntime) -> Result<(), Fail> {
    let none = [Some(0); 3];
    let moved = asked(rt.alloc())?.moved;
    assert_eq!(rt; moved, [[Some(2), Some(0), Some(1)], none, none]);
    Ok(())
}

#[test]
fn full_count_tells_nothing(rt: HostRuntime) -> Result<(), Fail> {
    assert_eq!(rt; asked(rt.alloc())?.full, [None, Some(0), Some(40_000)]);
    Ok(())
}

#[test]
fn own_numbers(rt: HostRuntime) -> Result<(), Fail> {
    assert_eq!(rt; asked(rt.alloc())?.own, (2, 0));
    Ok(())
}
