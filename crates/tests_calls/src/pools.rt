// Pools of numbers to give out.
ghost use Rattle.std.specs.Prelude.{◌≡◌, IfOk};

use std::alloc::Global;
use std::test::Fail;
use swarm_objects::NoMemory;
use swarm_pools::{Pool, usable};

// The numbers of open ingress ports, each of them taken.
fn all_ports(alloc: Global) -> Result<Pool, NoMemory>
    ensures { IfOk result (λ pool. (pool.first ≡ 30000) × (pool.last ≡ 32767)) }
{
    let mut pool = Pool::new(alloc, 30_000, 32_767);
    for number in 30_000..32_768 {
        pool.take(number)?;
    }
    Ok(pool)
}

#[test]
fn first_port_of_all(rt: HostRuntime) {
    assert_eq!(rt;
        Pool::new(rt.alloc(), 30_000, 32_767).least_free(),
        Some(30_000)
    );
}

// The least free port where all are taken, and where one was given back.
fn free_of_all(alloc: Global) -> Result<(Option<u32>, Option<u32>), NoMemory> {
    let mut pool = all_ports(alloc)?;
    let none = pool.least_free();
    pool.give(31_000);
    let one = pool.least_free();
    drop(pool);
    Ok((none, one))
}

#[test]
fn ports_run_out(rt: HostRuntime) -> Result<(), Fail> {
    assert_eq!(rt; free_of_all(rt.alloc())?, (None, Some(31_000)));
    Ok(())
}

fn take_two(pool: &mut Pool) -> Result<(), NoMemory>
    requires first { pool.old.first ≡ 5 }
    requires last { pool.old.last ≡ 204 }
{
    pool.take(5)?;
    pool.take(150)
}

// The least free number from 5 to 204, where two are taken.
fn free_beside_two(alloc: Global) -> Result<Option<u32>, NoMemory> {
    let mut pool = Pool::new(alloc, 5, 204);
    let taken = take_two(&mut pool);
    let free = pool.least_free();
    drop(pool);
    taken?;
    Ok(free)
}

#[test]
fn gap_below_a_taken_number(rt: HostRuntime) -> Result<(), Fail> {
    assert_eq!(rt; free_beside_two(rt.alloc())?, Some(6));
    Ok(())
}

// The least free of one number, before it is taken and after.
fn free_of_one(alloc: Global) -> Result<(Option<u32>, Option<u32>), NoMemory> {
    let mut pool = Pool::new(alloc, u32::MAX, u32::MAX);
    let before = pool.least_free();
    let taken = pool.take(u32::MAX);
    let after = pool.least_free();
    drop(pool);
    taken?;
    Ok((before, after))
}

#[test]
fn one_number_alone(rt: HostRuntime) -> Result<(), Fail> {
    assert_eq!(rt; free_of_one(rt.alloc())?, (Some(u32::MAX), None));
    Ok(())
}

// 10.0.1.0/29 has five, and 10.1.0.0/16 has 65,533.
#[test]
fn usable_addresses(rt: HostRuntime) {
    assert_eq!(rt; usable(167_772_416, 29), (167_772_418, 167_772_422));
    assert_eq!(rt; usable(167_837_696, 16), (167_837_698, 167_903_230));
}
