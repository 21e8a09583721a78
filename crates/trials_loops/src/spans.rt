//! What a change touches: calls of `swarm_spans`.
ghost use Rattle.std.specs.Prelude.{◌≡◌, ◌≤◌, ◌<◌, ◌⊎◌, ◌^◌, ℕ, flat_map, true};
ghost use Rattle.swarm_objects.specs.ChangeLists.{apply_changes};
ghost use Rattle.swarm_objects.specs.Rows.{first_of, node_id};
ghost use Rattle.swarm_objects.specs.Usable.{IsUsable};
ghost use Rattle.swarm_objects.specs.World.{Tables};
ghost use Rattle.swarm_spans.specs.Services.Touches.{AreCovered};
ghost use Rattle.swarm_spans.specs.Spans.{Covers, CoversTasks, IsWider, is_in};
ghost use Rattle.swarm_spans.specs.TasksCovered.{AreTasksCovered, HasEnds, NodesLaw, SessionLaw, TimeLaw};
ghost use Rattle.swarm_spans.specs.Timed.{AreTimed, is_down_node};
ghost use Rattle.swarm_spans.specs.Wakes.{wake_at};

use swarm_objects::{Change, Duty, Id, Ms, Rows};
use swarm_spans::{ServiceSpans, Span, TaskLine, TaskSpans, TimedSpans, Wakes};

/// `first_of_tasks`.
pub fn first_of_tasks<L: TaskLine, R: Rows>(rows: &R, span: &mut Span) -> Option<Duty>
    requires usable { IsUsable (R.tables rows.now) }
    requires covers { CoversTasks L.duties (R.tables rows.now) span.old }
    ensures first { let t = R.tables rows.now in result ≡ first_of (flat_map (L.duties t) t.tasks) }
    ensures covers { CoversTasks L.duties (R.tables rows.now) span.new }
{
    let duty = swarm_spans::first_of_tasks::<L, R>(rows, span);
    duty
}

/// `TaskSpans::touch`.
pub fn touch_tasks<R: Rows>(spans: &mut TaskSpans, rows: &R, changes: &[Change])
    requires usable { IsUsable (R.tables rows.now) }
    requires covers { AreTasksCovered (R.tables rows.now) spans.old }
    ensures stays { AreTasksCovered (R.tables rows.now) spans.new }
    ensures goes_on { let u = apply_changes (R.tables rows.now) changes.now in
        IsUsable u → AreTasksCovered u spans.new }
{
    let of_tasks = spans;
    of_tasks.touch(rows, changes);
}

/// `TaskSpans::touch_session`.
pub fn touch_session(spans: &mut TaskSpans, node: Id)
    ensures goes_on { SessionLaw node spans.old spans.new }
{
    spans.touch_session(node);
}

/// `TaskSpans::touch_time`.
pub fn touch_time<R: Rows>(spans: &mut TaskSpans, rows: &R, downs: &Span, ends: &Span, until: Ms)
    requires usable { IsUsable (R.tables rows.now) }
    requires downs { Covers node_id is_down_node downs.now (R.tables rows.now).nodes }
    requires ends { HasEnds until (R.tables rows.now) spans.old.expires ends.now }
    ensures goes_on { TimeLaw until (R.tables rows.now) spans.old spans.new }
{
    spans.touch_time(rows, downs, ends, until);
}

/// `TaskSpans::touch_new_nodes`.
pub fn touch_new_nodes(spans: &mut TaskSpans)
    ensures goes_on { NodesLaw spans.old spans.new }
{
    spans.touch_new_nodes();
}

/// `ServiceSpans::touch`.
pub fn touch_services<R: Rows>(spans: &mut ServiceSpans, rows: &R, changes: &[Change])
    requires usable { IsUsable (R.tables rows.now) }
    requires covers { AreCovered (R.tables rows.now) spans.old }
    ensures stays { AreCovered (R.tables rows.now) spans.new }
    ensures goes_on { let u = apply_changes (R.tables rows.now) changes.now in IsUsable u → AreCovered u spans.new }
{
    let of_services = spans;
    of_services.touch(rows, changes);
}

/// `TimedSpans::touch`.
pub fn touch_timed(spans: &mut TimedSpans, changes: &[Change])
    ensures stays { (t : Tables) → AreTimed t spans.old → AreTimed t spans.new }
    ensures goes_on { (t : Tables) → IsUsable (apply_changes t changes.now) → AreTimed t spans.old
        → AreTimed (apply_changes t changes.now) spans.new }
{
    spans.touch(changes);
}

/// `Wakes::wake`.
pub fn wake(wakes: &mut Wakes, now: Ms, span: &mut Span)
    ensures wider { IsWider span.new span.old }
    ensures woken { (id : ℕ) → 0 < id → id < 2 ^ 64 → wake_at wakes.old id ≤ now → is_in span.new id ≡ true }
    ensures others { (id : ℕ) → 0 < id → id < 2 ^ 64
        → (is_in span.new id ≡ true) ⊎ (wake_at wakes.new id ≡ wake_at wakes.old id) }
{
    wakes.wake(now, span);
}
