// What a list of changes touches of the line over old tasks.
ghost use Rattle.std.specs.Prelude.{◌≡◌, Some};
ghost use Rattle.swarm_objects.specs.ChangeLists.{apply_changes};
ghost use Rattle.swarm_objects.specs.Rows.{row_at, task_id};
ghost use Rattle.swarm_objects.specs.Usable.{IsUsable};
ghost use Rattle.swarm_spans.specs.Services.Standings.{bounds_alike, remains_alike};
ghost use Rattle.swarm_spans.specs.Services.Steps.{HasBesideOf, HasRemains, HasTasksOf};
ghost use Rattle.swarm_spans.specs.Services.Touches.{AddsNew, AddsPast, AddsOther, HasBounded, HasPlaces, HasTrimmed};
ghost use Rattle.swarm_spans.specs.Spans.{IsWider};

use crate::service_touches::has_open_run;
use crate::span::Span;
use swarm_objects::walks::{tasks_at, tasks_of};
use swarm_objects::{Change, Id, Rows, Service, Task};

// As much remains of the one as of the other.
fn remains_alike(one: &Task, two: &Task) -> bool
    ensures { result ≡ remains_alike one.now two.now }
{
    one.service == two.service
        && one.place == two.place
        && one.iteration == two.iteration
        && one.is_past() == two.is_past()
}

// The same tasks count for both, and both have an update under way, or neither.
fn bounds_alike(one: &Service, two: &Service) -> bool
    ensures { result ≡ bounds_alike one.now two.now }
{
    one.spec.mode.is_job() == two.spec.mode.is_job()
        && one.iteration == two.iteration
        && has_open_run(one) == has_open_run(two)
}

// The task, where it is past: no other has a duty of this line.
#[tactic(auto, using(crate::proofs::Services::Trimming::past_steps))]
fn add_past(task: &Task, span: &mut Span)
    ensures wider { IsWider span.new span.old }
    ensures has { AddsPast task.now span.new }
{
    if task.is_past() {
        span.add(task.id);
    }
}

// Each past task beside this one.
#[tactic(auto, using(crate::proofs::Services::Trimming::all_of_steps))]
fn add_beside<R: Rows>(rows: &R, one: &Task, span: &mut Span)
    requires { IsUsable (R.tables rows.now) }
    ensures wider { IsWider span.new span.old }
    ensures has { HasBesideOf span.new (R.tables rows.now) (Some one.now) }
{
    for task in tasks_at(rows, one.service, one.place) {
        add_past(task, span);
    }
}

/// Each past task of the service.
#[tactic(auto, using(crate::proofs::Services::Trimming::all_of_steps))]
pub fn add_tasks_of<R: Rows>(rows: &R, service: Id, span: &mut Span)
    requires { IsUsable (R.tables rows.now) }
    ensures wider { IsWider span.new span.old }
    ensures has { HasTasksOf span.new (R.tables rows.now) service }
{
    for task in tasks_of(rows, service) {
        add_past(task, span);
    }
}

// A task that is new, and each one beside it.
#[tactic(auto, using(crate::proofs::Services::Trimming::new_steps))]
fn add_new<R: Rows>(rows: &R, new: &Task, span: &mut Span)
    requires { IsUsable (R.tables rows.now) }
    ensures wider { IsWider span.new span.old }
    ensures has { AddsNew (R.tables rows.now) new.now span.new }
{
    add_beside(rows, new, span);
    add_past(new, span);
}

// A task that takes the place of a former one, and each task beside the one and the other, where something else
// remains.
#[tactic(auto, using(crate::proofs::Services::Trimming::other_steps))]
fn add_other<R: Rows>(rows: &R, old: &Task, new: &Task, span: &mut Span)
    requires { IsUsable (R.tables rows.now) }
    ensures wider { IsWider span.new span.old }
    ensures has { AddsOther (R.tables rows.now) old.now new.now span.new }
{
    if remains_alike(old, new) {
        return;
    }
    add_beside(rows, old, span);
    add_new(rows, new, span);
}

// The places of a task that is put, where something else remains of it than of the former row.
#[tactic(auto, using(crate::proofs::Services::Trimming::put_steps))]
fn touch_places<R: Rows>(rows: &R, new: &Task, span: &mut Span)
    requires { IsUsable (R.tables rows.now) }
    ensures wider { IsWider span.new span.old }
    ensures has { HasPlaces (R.tables rows.now) new.now span.new }
{
    match rows.task(new.id) {
        Some(old) => add_other(rows, old, new, span),
        None => add_new(rows, new, span),
    }
}

// The place of a task that goes.
#[tactic(auto, using(crate::proofs::Services::Trimming::drop_steps))]
fn touch_place<R: Rows>(rows: &R, id: Id, span: &mut Span)
    requires { IsUsable (R.tables rows.now) }
    ensures wider { IsWider span.new span.old }
    ensures has { let t = R.tables rows.now in HasBesideOf span.new t (row_at task_id id t.tasks) }
{
    if let Some(task) = rows.task(id) {
        add_beside(rows, task, span);
    }
}

// The tasks of a service that is put, where it bounds its places otherwise.
#[tactic(auto, using(crate::proofs::Services::Trimming::bound_steps))]
fn touch_bounds<R: Rows>(rows: &R, new: &Service, span: &mut Span)
    requires { IsUsable (R.tables rows.now) }
    ensures wider { IsWider span.new span.old }
    ensures has { HasBounded (R.tables rows.now) new.now span.new }
{
    if let Some(old) = rows.service(new.id) {
        if bounds_alike(old, new) {
            return;
        }
    }
    add_tasks_of(rows, new.id, span);
}

// What one change touches.
#[tactic(auto, using(crate::proofs::Services::Trimming::change_steps))]
fn touch_trims<R: Rows>(rows: &R, change: &Change, span: &mut Span)
    requires { IsUsable (R.tables rows.now) }
    ensures wider { IsWider span.new span.old }
    ensures has { HasTrimmed (R.tables rows.now) change.now span.new }
{
    match change {
        Change::PutService(service) => touch_bounds(rows, service, span),
        Change::PutTask(task) => touch_places(rows, task, span),
        Change::DropTask(id) => touch_place(rows, *id, span),
        Change::PutNode(_) | Change::Keep(_) => {}
    }
}

/// The past tasks beside each one of which these changes make something else remain, and those of each service that
/// they make bound its places otherwise. It is asked before the changes are made.
#[tactic(auto, using(crate::proofs::Services::Trimming::all_steps))]
pub fn add_remains<R: Rows>(rows: &R, changes: &[Change], span: &mut Span)
    requires { IsUsable (R.tables rows.now) }
    ensures wider { IsWider span.new span.old }
    ensures has { let t = R.tables rows.now in HasRemains span.new t (apply_changes t changes.now) }
{
    let mut left = changes;
    while let Some((change, others)) = left.split_first() {
        touch_trims(rows, change, span);
        left = others;
    }
}
