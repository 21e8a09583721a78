// What is due of executors, and what they wait for. Nothing here takes memory.
ghost use Rattle.std.specs.Prelude.{◌≡◌, true};
ghost use Rattle.std.specs.List.{list_all};
ghost use Rattle.swarm_agent.specs.Agent.{first_task, least_phase, news_after};
ghost use Rattle.swarm_agent.specs.Agent.{phase_after, phase_cmp, phase_of};
ghost use Rattle.swarm_objects.specs.Bounds.{has_near_times};
ghost use Rattle.swarm_objects.specs.Loops.Agents.{has_step, is_forgotten};
ghost use Rattle.swarm_objects.specs.Rows.{IsRising, executor_task, keep_least, rows_above};

use crate::executors::Executors;
use crate::saying::{has_news, is_forgotten};
use crate::steps::{has_step, phase_time};
use swarm_objects::{Executor, Id, Ms, TaskState};

/// The first executor after this task with a step that is due.
pub fn first_step_above(executors: &Executors, after: Id, now: Ms) -> Option<Id>
    ensures { result ≡ first_task (has_step now) (rows_above executor_task after executors.now) }
{
    if now < executors.wakes() {
        return None;
    }
    for executor in executors.above(after) {
        if has_step(now, executor) {
            return Some(executor.task);
        }
    }
    None
}

/// The first executor that is gone and has ended.
pub fn first_forgotten(executors: &Executors) -> Option<Id>
    ensures order { IsRising executor_task executors.now }
    ensures value { result ≡ first_task is_forgotten executors.now }
{
    if !executors.has_unsaid() {
        return None;
    }
    for executor in executors.iter() {
        if is_forgotten(executor) {
            return Some(executor.task);
        }
    }
    None
}

/// The first executor after this task with a state to report.
pub fn first_news(executors: &Executors, after: Id) -> Option<(Id, TaskState)>
    ensures order { IsRising executor_task executors.now }
    ensures value { result ≡ news_after after executors.now }
{
    if !executors.has_unsaid() {
        return None;
    }
    for executor in executors.above(after) {
        if has_news(executor) {
            return Some((executor.task, executor.state));
        }
    }
    None
}

// The executor's phase, with its time and its task.
fn phase_of(executor: &Executor) -> Option<(Ms, Id)>
    requires { has_near_times executor.now ≡ true }
    ensures { result ≡ phase_of executor.now }
{
    match phase_time(executor) {
        Some(time) => Some((time, executor.task)),
        None => None,
    }
}

// The sooner of two phases; at one time that of the lesser task.
fn sooner(best: Option<(Ms, Id)>, phase: (Ms, Id)) -> Option<(Ms, Id)>
    ensures { result ≡ keep_least phase_cmp best phase }
{
    match best {
        Some(first) if phase.0.cmp(&first.0).then(phase.1.cmp(&first.1)).is_lt() => Some(phase),
        Some(first) => Some(first),
        None => Some(phase),
    }
}

/// The phase that ends first.
pub fn first_phase(executors: &Executors) -> Option<(Ms, Id)>
    requires { list_all has_near_times executors.now ≡ true }
    ensures { result ≡ least_phase executors.now }
{
    let mut least = None;
    for executor in executors.iter() {
        if let Some(phase) = phase_of(executor) {
            least = sooner(least, phase);
        }
    }
    least
}

/// The first executor after this task in a timed phase, with the phase's time.
pub fn phase_after(executors: &Executors, after: Id) -> Option<(Id, Ms)>
    requires { list_all has_near_times executors.now ≡ true }
    ensures { result ≡ phase_after after executors.now }
{
    for executor in executors.above(after) {
        if let Some((time, task)) = phase_of(executor) {
            return Some((task, time));
        }
    }
    None
}
