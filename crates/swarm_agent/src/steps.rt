// The executors' steps, and the times of their phases.
ghost use Rattle.std.specs.Prelude.{◌≡◌, ◌+◌, ◌<◌, IfSome, nat_le, true};
ghost use Rattle.std.specs.Option.{option_map};
ghost use Rattle.swarm_agent.specs.Inside.Sleeping.{IsUntil, SleepsUntil};
ghost use Rattle.swarm_objects.specs.Bounds.{has_near_times};
ghost use Rattle.swarm_agent.specs.Steps.{at_time, taken};
ghost use Rattle.swarm_objects.specs.Agents.Executors.{
  early_step,
  ending,
  executor_step,
  exit_time,
  exited,
  is_early,
  is_late,
  is_to_go,
  late,
  late_phase,
  late_step,
  phase_time,
  plain_phase,
  prepared,
  wants_to_stop,
};
ghost use Rattle.swarm_objects.specs.Bounds.{far_end};
ghost use Rattle.swarm_objects.specs.Loops.Agents.{has_step, stepped};

use swarm_objects::{Desired, End, Executor, Ms, TaskState, desired_rank, rank};

// The last time at which a phase is said to end.
const LAST_WAKE: Ms = Ms::MAX - 1;

// What an executor does next.
#[derive(Clone, Copy, PartialEq, Eq)]
enum Step {
    // It goes to this state.
    Move(TaskState),
    // It begins to stop.
    Stop,
}

/// So much time has passed since then.
pub fn has_passed(clock: Ms, since: Ms, time: Ms) -> bool
    ensures { result ≡ nat_le (since + time) clock }
{
    match since.checked_add(time) {
        Some(end) => end <= clock,
        None => false,
    }
}

fn wants_to_stop(executor: &Executor) -> bool
    ensures { result ≡ wants_to_stop executor.now }
{
    executor.gone || desired_rank(Desired::Shutdown) <= desired_rank(executor.desired)
}

// It is to run or to complete, so it needn't wait.
fn is_to_go(desired: Desired) -> bool
    ensures { result ≡ is_to_go desired }
{
    desired_rank(Desired::Ready) < desired_rank(desired)
}

// From ACCEPTED to READY.
fn is_early(state: TaskState) -> bool
    ensures { result ≡ is_early state }
{
    rank(TaskState::Accepted) <= rank(state) && rank(state) <= rank(TaskState::Ready)
}

/// From STARTING to RUNNING.
pub fn is_late(state: TaskState) -> bool
    ensures { result ≡ is_late state }
{
    rank(TaskState::Starting) <= rank(state) && rank(state) <= rank(TaskState::Running)
}

// The state at the end of the preparation.
fn prepared(end: End) -> TaskState
    ensures { result ≡ prepared end }
{
    match end {
        End::Never | End::Exit(_, _) => TaskState::Ready,
        End::Reject => TaskState::Rejected,
    }
}

// The state after the exit with this code.
fn exited(code: u8) -> TaskState
    ensures { result ≡ exited code }
{
    if code == 0 {
        TaskState::Complete
    } else {
        TaskState::Failed
    }
}

// The step, once so much time has passed since the last one.
fn after_time(clock: Ms, executor: &Executor, time: Ms, step: Step) -> Option<Step>
    ensures { result ≡ at_time clock (executor.now.since + time) step }
{
    if has_passed(clock, executor.since, time) {
        Some(step)
    } else {
        None
    }
}

// The end of a workload that runs.
fn ending(clock: Ms, executor: &Executor) -> Option<Step>
    ensures { option_map (taken clock executor.now) result ≡ ending clock executor.now executor.now.workload.end }
{
    match executor.workload.end {
        End::Exit(time, code) => after_time(clock, executor, time, Step::Move(exited(code))),
        End::Never | End::Reject => None,
    }
}

// Before it starts.
fn early_step(clock: Ms, executor: &Executor) -> Option<Step>
    ensures { option_map (taken clock executor.now) result ≡ early_step clock executor.now executor.now.state }
{
    let workload = executor.workload;
    match executor.state {
        TaskState::Accepted => Some(Step::Move(TaskState::Preparing)),
        TaskState::Preparing => {
            let step = Step::Move(prepared(workload.end));
            after_time(clock, executor, workload.prepare, step)
        }
        TaskState::Ready => {
            if is_to_go(executor.desired) {
                Some(Step::Move(TaskState::Starting))
            } else {
                None
            }
        }
        _ => None,
    }
}

// From its start on, neither stopping nor wanting to.
fn late_step(clock: Ms, executor: &Executor) -> Option<Step>
    ensures { option_map (taken clock executor.now) result ≡ late_step clock executor.now executor.now.state }
{
    match executor.state {
        TaskState::Starting => {
            let step = Step::Move(TaskState::Running);
            after_time(clock, executor, executor.workload.start, step)
        }
        TaskState::Running => ending(clock, executor),
        _ => None,
    }
}

// From its start on: once stopping, it only stops.
fn late(clock: Ms, executor: &Executor) -> Option<Step>
    ensures { option_map (taken clock executor.now) result ≡ late clock executor.now executor.now.stopping }
{
    match executor.stopping {
        Some(time) if time <= clock => Some(Step::Move(TaskState::Shutdown)),
        Some(_) => None,
        None if wants_to_stop(executor) => Some(Step::Stop),
        None => late_step(clock, executor),
    }
}

// The step of the executor that is due.
fn executor_step(clock: Ms, executor: &Executor) -> Option<Step>
    ensures { option_map (taken clock executor.now) result ≡ executor_step clock executor.now }
{
    if is_early(executor.state) {
        if wants_to_stop(executor) {
            return Some(Step::Move(TaskState::Shutdown));
        }
        return early_step(clock, executor);
    }
    if is_late(executor.state) {
        return late(clock, executor);
    }
    None
}

/// A step of the executor is due.
pub fn has_step(clock: Ms, executor: &Executor) -> bool
    ensures { result ≡ has_step clock executor.now }
{
    executor_step(clock, executor).is_some()
}

// The executor makes the step.
fn take_step(executor: &mut Executor, clock: Ms, step: Step)
    requires near { has_near_times executor.old ≡ true }
    requires clock { clock < far_end }
    ensures { executor.new ≡ taken clock executor.old step }
{
    match step {
        Step::Move(state) => executor.state = state,
        Step::Stop => executor.stopping = Some(clock + executor.workload.stop),
    }
    executor.since = clock;
}

/// The executor makes the step that is due, where one is.
pub fn make_step(executor: &mut Executor, clock: Ms)
    requires near { has_near_times executor.old ≡ true }
    requires clock { clock < far_end }
    ensures { executor.new ≡ stepped clock executor.old }
{
    if let Some(step) = executor_step(clock, executor) {
        take_step(executor, clock, step);
    }
}

fn exit_time(executor: &Executor) -> Option<Ms>
    requires { has_near_times executor.now ≡ true }
    ensures { result ≡ exit_time executor.now executor.now.workload.end }
{
    match executor.workload.end {
        End::Exit(time, _) => Some(executor.since + time),
        End::Never | End::Reject => None,
    }
}

// The time of the phase of an executor that neither stops nor wants to.
fn plain_phase(executor: &Executor) -> Option<Ms>
    requires { has_near_times executor.now ≡ true }
    ensures { result ≡ plain_phase executor.now executor.now.state }
{
    match executor.state {
        TaskState::Preparing => Some(executor.since + executor.workload.prepare),
        TaskState::Starting => Some(executor.since + executor.workload.start),
        TaskState::Running => exit_time(executor),
        _ => None,
    }
}

fn late_phase(executor: &Executor) -> Option<Ms>
    requires { has_near_times executor.now ≡ true }
    ensures { result ≡ late_phase executor.now executor.now.stopping }
{
    match executor.stopping {
        Some(time) => Some(time),
        None if wants_to_stop(executor) => None,
        None => plain_phase(executor),
    }
}

/// The time of the executor's timed phase, whether or not that is reached; none where it is in no such phase.
pub fn phase_time(executor: &Executor) -> Option<Ms>
    requires { has_near_times executor.now ≡ true }
    ensures { result ≡ phase_time executor.now }
{
    if is_late(executor.state) {
        return late_phase(executor);
    }
    if wants_to_stop(executor) {
        return None;
    }
    plain_phase(executor)
}

// A time before which what began then doesn't end, where it takes this long. Times needn't be near here: what is later
// than all times has the last one but one, as the last one says that no end is to come.
fn end_wake(since: Ms, time: Ms) -> Ms
    ensures { IsUntil result (since + time) }
{
    since.saturating_add(time).min(LAST_WAKE)
}

// A time before which the workload doesn't exit.
fn exit_wake(executor: &Executor) -> Ms
    ensures { IfSome (exit_time executor.now executor.now.workload.end) (IsUntil result) }
{
    match executor.workload.end {
        End::Exit(time, _) => end_wake(executor.since, time),
        End::Never | End::Reject => Ms::MAX,
    }
}

// A time before which the phase of an executor that neither stops nor wants to doesn't end.
fn plain_wake(executor: &Executor) -> Ms
    ensures { IfSome (plain_phase executor.now executor.now.state) (IsUntil result) }
{
    match executor.state {
        TaskState::Preparing => end_wake(executor.since, executor.workload.prepare),
        TaskState::Starting => end_wake(executor.since, executor.workload.start),
        TaskState::Running => exit_wake(executor),
        _ => Ms::MAX,
    }
}

// The same from its start on, where it may be stopping.
fn late_wake(executor: &Executor) -> Ms
    ensures { IfSome (late_phase executor.now executor.now.stopping) (IsUntil result) }
{
    match executor.stopping {
        Some(time) => end_wake(time, 0),
        None => plain_wake(executor),
    }
}

// A time before which the executor's phase doesn't end; the last one of all only where it is in none.
fn phase_wake(executor: &Executor) -> Ms
    ensures { IfSome (phase_time executor.now) (IsUntil result) }
{
    if is_late(executor.state) {
        late_wake(executor)
    } else {
        plain_wake(executor)
    }
}

/// A time until which the executor sleeps: it has no step before it, and its timed phase doesn't end before it. It is
/// below `u64::MAX` where there is such a phase.
pub fn wake_time(executor: &Executor) -> Ms
    ensures { SleepsUntil result executor.now }
{
    if has_step(0, executor) {
        return 0;
    }
    phase_wake(executor)
}
