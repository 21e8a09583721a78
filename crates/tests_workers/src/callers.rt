//! Which loops a worker has, that a caller hears of another one's entry without waiting, and that a pause is waited
//! out.
ghost use Rattle.std.specs.Prelude.{IfOk};
ghost use Rattle.turn_cell.specs.Passes.{IsPassOf};

use std::alloc::Global;
use std::sync::Wait;
use std::sync::atomic::{AtomicBool, Ordering};
use std::test::Fail;
use std::thread;
use swarm_cluster::{Cluster, Pass, Pause};
use swarm_loops::share;
use swarm_objects::{Call, NoMemory, Role};

// A cluster with two callers.
fn open_two(alloc: Global) -> Result<(Cluster, Pass, Pass), NoMemory>
    ensures first { IfOk result (λ r. IsPassOf r.0.cell r.1) }
    ensures second { IfOk result (λ r. IsPassOf r.0.cell r.2) }
{
    let (cluster, passes) = Cluster::new(alloc, 2)?;
    let mut passes = passes.into_vec();
    let Some(second) = passes.pop() else {
        return Err(NoMemory);
    };
    let Some(first) = passes.pop() else {
        return Err(NoMemory);
    };
    Ok((cluster, first, second))
}

// How long the history is for the second caller once the first has made a call.
fn heard_of_another<R: Wait>(rt: &R, alloc: Global) -> Result<u64, NoMemory> {
    let (cluster, mut first, mut second) = open_two(alloc)?;
    cluster.call(rt, &mut first, Call::Tick(1));
    Ok(cluster.news(&mut second))
}

#[test]
fn news_of_an_entry_of_another_pass(rt: HostRuntime) -> Result<(), Fail> {
    let heard = heard_of_another(&rt, rt.alloc())?;
    assert_eq!(rt; heard, 1);
    Ok(())
}

// Waits out the pauses, and tells that they are over.
fn wait_and_tell<R: Wait>(rt: &R, cluster: &Cluster, told: &AtomicBool) {
    cluster.wait_out_pauses(rt);
    told.store(true, Ordering::SeqCst);
}

// Ends the pause after so many looks. Says whether somebody told of its end before.
fn end_late(pause: Pause<'_>, told: &AtomicBool) -> bool {
    for _ in 0..1_000u64 {
        if told.load(Ordering::SeqCst) {
            return true;
        }
        thread::yield_now();
    }
    drop(pause);
    false
}

#[test]
fn a_pause_is_waited_out(rt: HostRuntime) -> Result<(), Fail> {
    let (cluster, _first, _second) = open_two(rt.alloc())?;
    let over = AtomicBool::new(false);
    let pause = cluster.pause();
    let (handle, shared, told) = (&rt, &cluster, &over);
    let (_, was_early) = thread::join(
        handle,
        || { wait_and_tell(handle, shared, told) },
        || -> bool { end_late(pause, told) },
    );
    assert!(rt; !was_early);
    assert!(rt; over.load(Ordering::SeqCst));
    Ok(())
}

#[test]
fn share_of_the_first_of_two(rt: HostRuntime) -> Result<(), Fail> {
    let shared = share(rt.alloc(), 1, 2)?;
    let wanted = [
        Role::Dispatcher,
        Role::Restart,
        Role::Replicated,
        Role::Job,
        Role::Scheduler,
        Role::Agents,
    ];
    assert_eq!(rt; shared.as_slice(), wanted.as_slice());
    Ok(())
}

#[test]
fn share_of_the_last_of_twelve(rt: HostRuntime) -> Result<(), Fail> {
    let shared = share(rt.alloc(), 12, 12)?;
    assert_eq!(rt; shared.as_slice(), [Role::Dispatcher].as_slice());
    Ok(())
}
