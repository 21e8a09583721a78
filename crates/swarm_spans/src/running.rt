// Puts of tasks that run on. Such a put touches no line but that of tasks that wait for a node, so it is told first.
ghost use Rattle.std.specs.Prelude.{◌≡◌, IsTrue};
ghost use Rattle.swarm_spans.specs.Holding.{EachPasses};
ghost use Rattle.swarm_spans.specs.RunsOn.{PutsRunning, RunsOn, is_at_work};

use crate::reads::stand_alike;
use swarm_objects::{Change, Rows, Same, Task};

// It is placed, and not to stop.
fn is_at_work(task: &Task) -> bool
    ensures { result ≡ is_at_work task.now }
{
    task.is_placed() && task.is_wanted()
}

// It is known that the task was at work and is, and that no line can tell it from the former one.
#[tactic(auto, using(crate::proofs::TasksRun::runs_on))]
fn runs_on(old: &Task, new: &Task) -> bool
    ensures { IsTrue result → RunsOn old.now new.now }
{
    if !is_at_work(old) || !is_at_work(new) || new.is_to_wait() {
        return false;
    }
    if !stand_alike(old, new) {
        return false;
    }
    if old.is_live() != new.is_live() {
        return false;
    }
    if !old.addresses.same(&new.addresses) {
        return false;
    }
    if !old.template.constraints.same(&new.template.constraints) {
        return false;
    }
    true
}

// It is known that the change puts a task that runs on.
#[tactic(auto, using(crate::proofs::TasksRun::puts_running))]
fn puts_running<R: Rows>(rows: &R, change: &Change) -> bool
    ensures { IsTrue result → PutsRunning (R.tables rows.now) change.now }
{
    let Change::PutTask(new) = change else {
        return false;
    };
    match rows.task(new.id) {
        Some(old) => runs_on(old, new),
        None => false,
    }
}

/// It is known that each of the changes does.
#[tactic(auto, using(crate::proofs::Holders::pass_steps))]
pub fn put_running<R: Rows>(rows: &R, changes: &[Change]) -> bool
    ensures { IsTrue result → EachPasses (PutsRunning (R.tables rows.now)) changes.now }
{
    let mut left = changes;
    while let Some((change, others)) = left.split_first() {
        if !puts_running(rows, change) {
            return false;
        }
        left = others;
    }
    true
}
