// A script by caller 0 beside its workers, and the world once all have come back.
ghost use Rattle.std.specs.Prelude.{◌≡◌, ◌≤◌, ◌+◌, length, IfOk, OnErr, []};
ghost use Rattle.swarm_input.specs.Streams.{stream};
ghost use Rattle.swarm_lines.specs.Closing.{AreBack};
ghost use Rattle.swarm_top.specs.Inside.Workers.{AreReady, HasRead, HaveRun, HaveWorked};
ghost use Rattle.swarm_model.specs.Own.{own};
ghost use Rattle.turn_cell.specs.Entries.{Each};
ghost use Rattle.turn_cell.specs.Passes.{number_of, seen, IsNew, IsPassOf};

use crate::team::work_all;
use std::alloc::Global;
use std::sync::Wait;
use std::thread::{Threads, join_mut};
use swarm_cluster::{Cluster, Pass};
use swarm_lines::{Ending, halt, read_script};
use swarm_objects::{Gate, NoMemory, Sink, Source};
use swarm_world::World;

// Reads the script, and then makes Halt, which ends the workers.
fn read_and_halt<R: Wait, S: Source, O: Sink>(
    rt: &R,
    alloc: Global,
    cluster: &Cluster,
    pass: &mut Pass,
    script: &mut S,
    out: &mut O,
) -> Ending
    requires pass { IsPassOf cluster.now.cell pass.old × (number_of pass.old ≡ 0) }
    requires none { own 0 (seen pass.old) ≡ [] }
    ensures read { HasRead cluster.now.cell result (stream S.left S.faults script.old script.new)
        (stream O.written O.faults out.old out.new) pass.new }
{
    let ending = read_script(rt, alloc, cluster, pass, script, out);
    halt(rt, cluster, pass);
    ending
}

// The workers and the script, each in its thread where one can be made. The workers come first: what comes second may
// be called before them, and must not need them.
#[tactic(auto, using(crate::proofs::Backing::have_run))]
fn run_all<R: Threads + Wait + Sync, S: Source, O: Sink, G: Gate + Sync>(
    rt: &R,
    alloc: Global,
    cluster: &Cluster,
    passes: &mut [Pass],
    workers: u32,
    script: &mut S,
    out: &mut O,
    gate: &G,
) -> Ending
    requires workers { workers ≤ 16 }
    requires count { length passes.old ≡ workers + 1 }
    requires new { Each (IsNew cluster.now.cell) passes.old }
    ensures ran { HaveRun cluster.now.cell workers result (stream S.left S.faults script.old script.new)
        (stream O.written O.faults out.old out.new) passes.new }
{
    let Some((first, others)) = passes.split_first_mut() else {
        unreachable!()
    };
    let (_, ending) = join_mut(
        rt,
        &mut ||
            requires { (workers ≤ 16) × (length others.now ≡ workers) × AreReady cluster.now.cell others.now }
            ensures { (length others.exit.now ≡ workers)
                × HaveWorked cluster.entry.now.cell workers others.exit.now }
        { work_all(rt, alloc, cluster, others, workers, gate) },
        &mut || -> Ending
            requires { IsPassOf cluster.now.cell first.now × (number_of first.now ≡ 0)
                × (own 0 (seen first.now) ≡ []) }
            ensures { HasRead cluster.entry.now.cell result
                (stream S.left S.faults script.entry.now script.exit.now)
                (stream O.written O.faults out.entry.now out.exit.now) first.exit.now }
        { read_and_halt(rt, alloc, cluster, first, script, out) },
    );
    ending
}

/// Runs a script by caller 0 beside so many workers. Gives how the reading ended, and the world. Where memory is
/// wanting for a cluster nothing is read or put.
pub fn run_beside<R: Threads + Wait + Sync, S: Source, O: Sink, G: Gate + Sync>(
    rt: &R,
    alloc: Global,
    workers: u32,
    script: &mut S,
    out: &mut O,
    gate: &G,
) -> Result<(Ending, World), NoMemory>
    requires workers { workers ≤ 16 }
    ensures back { IfOk result (λ r. AreBack workers r.0 (stream S.left S.faults script.old script.new)
        (stream O.written O.faults out.old out.new) r.1) }
    ensures untouched { OnErr result ((script.new ≡ script.old) × (out.new ≡ out.old)) }
{
    let (cluster, mut passes) = match Cluster::new(alloc, workers as u64 + 1) {
        Ok(made) => made,
        Err(NoMemory) => return Err(NoMemory),
    };
    let ending = run_all(
        rt,
        alloc,
        &cluster,
        passes.as_mut_slice(),
        workers,
        script,
        out,
        gate,
    );
    Ok((ending, cluster.close(passes)))
}
