// The scheduler's line of duties, with what is remembered of the nodes.
ghost use Rattle.std.specs.Prelude.{◌≡◌, flat_map};
ghost use Rattle.swarm_objects.specs.Loops.Scheduler.{schedule};
ghost use Rattle.swarm_objects.specs.Rows.{first_of};
ghost use Rattle.swarm_objects.specs.Usable.{IsUsable};
ghost use Rattle.swarm_sched.specs.Inside.KnownNodes.{KnowsNodes};
ghost use Rattle.swarm_spans.specs.Spans.{CoversTasks};

use swarm_objects::{Duty, Rows, Task};
use swarm_sched::{KnownNodes, schedule_after};
use swarm_spans::{Span, next_task_in};

/// The scheduler's first duty, by its span. Tasks before it, which have none, leave the span. One that waits as the one
/// before it does isn't tried, since they have the same answer.
#[tactic(auto, using(swarm_spans::proofs::Firsts::tasks, crate::proofs::Entering::none_first))]
pub fn first_scheduled<R: Rows>(rows: &R, known: &mut KnownNodes, span: &mut Span) -> Option<Duty>
    requires usable { IsUsable (R.tables rows.now) }
    requires knows { KnowsNodes (R.tables rows.now) known.old }
    requires covers { CoversTasks schedule (R.tables rows.now) span.old }
    ensures first { let t = R.tables rows.now in result ≡ first_of (flat_map (schedule t) t.tasks) }
    ensures knows { KnowsNodes (R.tables rows.now) known.new }
    ensures covers { CoversTasks schedule (R.tables rows.now) span.new }
{
    if span.is_over() {
        return None;
    }
    let mut before: Option<&Task> = None;
    while let Some(task) = next_task_in(rows, span) {
        if let Some(duty) = schedule_after(rows, known, before, task) {
            return Some(duty);
        }
        before = Some(task);
        span.pass(task.id);
    }
    *span = Span::empty();
    None
}
