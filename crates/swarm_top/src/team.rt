// The workers beside a script.
ghost use Rattle.std.specs.Prelude.{◌≡◌, ◌<◌, ◌≤◌, ◌+◌, length};
ghost use Rattle.swarm_top.specs.Inside.Workers.{AreReady, HasWorked, HaveWorked, IsReady};
ghost use Rattle.turn_cell.specs.Passes.{number_of};

use std::alloc::Global;
use std::sync::Wait;
use std::thread;
use std::thread::Threads;
use swarm_cluster::{Cluster, Pass};
use swarm_loops::{share, work_on};
use swarm_objects::Gate;

// The most workers.
const MOST_WORKERS: usize = 16;

// The worker's turns. Where memory is wanting for its share it makes none.
#[tactic(auto, using(crate::proofs::Backing::has_idled, crate::proofs::Backing::has_worked))]
fn work_share<R: Wait, G: Gate>(
    rt: &R,
    alloc: Global,
    cluster: &Cluster,
    pass: &mut Pass,
    workers: u32,
    gate: &G,
)
    requires ready { IsReady cluster.now.cell (number_of pass.old) pass.old }
    requires number { (1 ≤ number_of pass.old) × (number_of pass.old ≤ workers) }
    requires workers { workers ≤ 16 }
    ensures worked { HasWorked cluster.now.cell workers (number_of pass.old) pass.new }
{
    let Ok(roles) = share(alloc, pass.number() as u32, workers) else {
        return;
    };
    work_on(rt, cluster, pass, roles.as_slice(), gate);
}

/// All workers, each in a thread of its own where one can be made.
pub fn work_all<R: Threads + Wait + Sync, G: Gate + Sync>(
    rt: &R,
    alloc: Global,
    cluster: &Cluster,
    passes: &mut [Pass],
    workers: u32,
    gate: &G,
)
    requires workers { workers ≤ 16 }
    requires count { length passes.old ≡ workers }
    requires ready { AreReady cluster.now.cell passes.old }
    ensures count { length passes.new ≡ workers }
    ensures worked { HaveWorked cluster.now.cell workers passes.new }
{
    thread::for_each_mut(
        rt,
        passes,
        MOST_WORKERS,
        &|place: usize, pass: &mut Pass|
            requires { (workers ≤ 16) × (place < workers) × IsReady cluster.now.cell (place + 1) pass.now }
            ensures { HasWorked cluster.entry.now.cell workers (place + 1) pass.exit.now }
        { work_share(rt, alloc, cluster, pass, workers, gate) },
    );
}
