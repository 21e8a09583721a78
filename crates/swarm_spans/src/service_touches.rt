// What a list of changes touches of the lines over services.
ghost use Rattle.std.specs.Prelude.{Bool, IsTrue, false, ◌≡◌, ◌↔◌};
ghost use Rattle.swarm_objects.specs.ChangeLists.{apply_changes};
ghost use Rattle.swarm_objects.specs.Rows.{row_at, task_id};
ghost use Rattle.swarm_objects.specs.Services.Runs.{counts_as_failure, has_open_run};
ghost use Rattle.swarm_objects.specs.World.{Tables};
ghost use Rattle.swarm_objects.specs.declared.tasks.Task.{Task as TaskRow};
ghost use Rattle.swarm_spans.specs.Services.Standings.{
  Progress,
  Standing,
  comes_quietly,
  goes_alike,
  is_updated,
  progress,
  standing,
  stands_alike,
};
ghost use Rattle.swarm_spans.specs.Services.Steps.{HasServiceOf, HasShiftedBut};
ghost use Rattle.swarm_spans.specs.Services.Touches.{HasPut, HasTouched};
ghost use Rattle.swarm_spans.specs.Spans.{IsWider};

use crate::span::Span;
use swarm_objects::{
    Change, Id, Rows, RunStatus, Same, Service, Shared, Task, TaskState, Template,
};

/// What a line over services sees of a service's task.
pub trait Sight {
    /// What is seen.
    ghost Seen: { Type 0 };

    ghost see: { Tables → TaskRow → Seen };

    /// A new task that gives the line nothing to do.
    ghost quiet: { Tables → TaskRow → Bool };

    /// The same is seen of the new row as of the old one. It may say no where that is dear to find.
    fn is_same<R: Rows>(rows: &R, old: &Task, new: &Task) -> bool
        ensures { let t = R.tables rows.now in IsTrue result → see t old.now ≡ see t new.now };

    /// The new task is quiet.
    fn is_quiet<R: Rows>(rows: &R, new: &Task) -> bool
        ensures { result ≡ quiet (R.tables rows.now) new.now };
}

/// Which places are held: no line but that of updates sees more.
pub struct Places;

/// Which places are dirty, and of a task whose service has an update under way since when it runs or has failed.
pub struct Updates;

// The two stand alike in their service's places.
fn stands_alike(one: &Task, two: &Task) -> bool
    ensures { result ≡ stands_alike one.now two.now }
{
    one.service == two.service
        && one.place == two.place
        && one.iteration == two.iteration
        && one.is_live() == two.is_live()
        && one.is_kept() == two.is_kept()
        && one.closed.is_some() == two.closed.is_some()
}

impl Sight for Places {
    ghost Seen = { Standing };

    ghost see = { λ t x. standing x };

    ghost quiet = { λ t x. false };

    #[tactic(auto, using(crate::proofs::Services::Tests::stand_so))]
    fn is_same<R: Rows>(_rows: &R, old: &Task, new: &Task) -> bool {
        stands_alike(old, new)
    }

    fn is_quiet<R: Rows>(_rows: &R, _new: &Task) -> bool {
        false
    }
}

// The service has an update under way.
pub fn has_open_run(service: &Service) -> bool
    ensures { result ≡ has_open_run service.now }
{
    match &service.run {
        Some(run) => matches!(run.status, RunStatus::Updating | RunStatus::RollbackStarted),
        None => false,
    }
}

// The task's service has one.
fn is_updated<R: Rows>(rows: &R, task: &Task) -> bool
    ensures { result ≡ is_updated (R.tables rows.now) task.now }
{
    match rows.service(task.service) {
        Some(service) => has_open_run(service),
        None => false,
    }
}

// Both have one template.
fn has_template(task: &Task, template: &Shared<Template>) -> bool
    ensures { IsTrue result ↔ (task.now.template ≡ template.now) }
{
    task.template.same(template)
}

fn counts_as_failure(state: TaskState) -> bool
    ensures { result ≡ counts_as_failure state }
{
    matches!(
        state,
        TaskState::Rejected | TaskState::Complete | TaskState::Failed
    )
}

// An update reads the same of both. It may say no of two that run and failed alike.
fn goes_alike(one: &Task, two: &Task) -> bool
    ensures { result ≡ goes_alike one.now two.now }
{
    one.born == two.born
        && one.created == two.created
        && one.is_below_running() == two.is_below_running()
        && one.is_running() == two.is_running()
        && counts_as_failure(one.state) == counts_as_failure(two.state)
        && (one.since == two.since || !(two.is_running() || counts_as_failure(two.state)))
}

// The task is live and clean, and its service has no update under way: where it is new, it makes no place dirty.
fn comes_quietly<R: Rows>(rows: &R, task: &Task) -> bool
    ensures { result ≡ comes_quietly (R.tables rows.now) task.now }
{
    match rows.service(task.service) {
        Some(service) => task.is_live_clean(service) && !has_open_run(service),
        None => false,
    }
}

impl Sight for Updates {
    ghost Seen = { Progress };

    ghost see = { λ t x. progress t x };

    ghost quiet = { λ t x. comes_quietly t x };

    #[tactic(auto, using(crate::proofs::Services::Tests::go_steps))]
    fn is_same<R: Rows>(rows: &R, old: &Task, new: &Task) -> bool {
        stands_alike(old, new)
            && has_template(old, &new.template)
            && (!is_updated(rows, new) || goes_alike(old, new))
    }

    fn is_quiet<R: Rows>(rows: &R, new: &Task) -> bool {
        comes_quietly(rows, new)
    }
}

// The services of a task that is put, where something else is seen of it than of the former row, or it is new and not
// quiet.
#[tactic(auto, using(crate::proofs::Services::Touching::put_steps))]
fn touch_put<S: Sight, R: Rows>(rows: &R, new: &Task, span: &mut Span)
    ensures wider { IsWider span.new span.old }
    ensures has { let t = R.tables rows.now in HasPut (S.quiet t) (S.see t) t new.now span.new }
{
    if let Some(old) = rows.task(new.id) {
        if S::is_same(rows, old, new) {
            return;
        }
        span.add(old.service);
    } else if S::is_quiet(rows, new) {
        return;
    }
    span.add(new.service);
}

// The service of a task that goes.
#[tactic(auto, using(crate::proofs::Services::Touching::drop_steps))]
fn touch_dropped<R: Rows>(rows: &R, id: Id, span: &mut Span)
    ensures wider { IsWider span.new span.old }
    ensures has { HasServiceOf span.new (row_at task_id id (R.tables rows.now).tasks) }
{
    if let Some(task) = rows.task(id) {
        span.add(task.service);
    }
}

// What one change touches.
#[tactic(auto, using(crate::proofs::Services::Touching::change_steps))]
fn touch_by<S: Sight, R: Rows>(rows: &R, change: &Change, span: &mut Span)
    ensures wider { IsWider span.new span.old }
    ensures has { let t = R.tables rows.now in HasTouched (S.quiet t) (S.see t) t change.now span.new }
{
    match change {
        Change::PutService(service) => span.add(service.id),
        Change::PutTask(task) => touch_put::<S, R>(rows, task, span),
        Change::DropTask(id) => touch_dropped(rows, *id, span),
        Change::PutNode(_) | Change::Keep(_) => {}
    }
}

/// The services that these changes put, and those of each task of which they make something else to be seen, but for
/// new tasks that are quiet. It is asked before the changes are made.
#[tactic(auto, using(crate::proofs::Services::Touching::all_steps))]
pub fn add_shifted<S: Sight, R: Rows>(rows: &R, changes: &[Change], span: &mut Span)
    ensures wider { IsWider span.new span.old }
    ensures has { let t = R.tables rows.now in
        HasShiftedBut (S.quiet t) (S.see t) span.new t (apply_changes t changes.now) }
{
    let mut left = changes;
    while let Some((change, others)) = left.split_first() {
        touch_by::<S, R>(rows, change, span);
        left = others;
    }
}
