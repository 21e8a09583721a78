// Which services changes of rows touch: all others hold their places as before.
ghost use Rattle.std.specs.Prelude.{◌≡◌, true};
ghost use Rattle.swarm_replicated.specs.Inside.Reach.{passes, reach_only};
ghost use Rattle.swarm_replicated.specs.Inside.Touches.{is_same_standing, touches_only};

use crate::reach::Reach;
use swarm_objects::{Change, Id, Rows, Task};

// The two stand alike in any service's places.
fn is_same_standing(one: &Task, two: &Task) -> bool
    ensures { result ≡ is_same_standing one.now two.now }
{
    one.service == two.service
        && one.place == two.place
        && one.iteration == two.iteration
        && one.is_live() == two.is_live()
        && one.closes() == two.closes()
}

// The services that the put of the task touches: its own, and that of the one that was there; none where both stand
// alike.
#[tactic(auto, using(crate::proofs::Reaching::touch_steps))]
fn touched_by_put<R: Rows>(rows: &R, task: &Task) -> Reach
    ensures { passes (λ service. touches_only (R.tables rows.now) service (Change.PutTask task.now)) result ≡ true }
{
    let Some(former) = rows.task(task.id) else {
        return Reach::One(task.service);
    };
    if is_same_standing(task, former) {
        return Reach::Nothing;
    }
    Reach::One(task.service).joined(Reach::One(former.service))
}

// The service of the task with this id, if it is there.
#[tactic(auto, using(crate::proofs::Reaching::touch_steps))]
fn touched_by_drop<R: Rows>(rows: &R, id: Id) -> Reach
    ensures { passes (λ service. touches_only (R.tables rows.now) service (Change.DropTask id)) result ≡ true }
{
    match rows.task(id) {
        Some(former) => Reach::One(former.service),
        None => Reach::Nothing,
    }
}

// The services that the change touches.
#[tactic(auto, using(crate::proofs::Reaching::touch_steps))]
fn touched<R: Rows>(rows: &R, change: &Change) -> Reach
    ensures { passes (λ service. touches_only (R.tables rows.now) service change.now) result ≡ true }
{
    match change {
        Change::PutNode(_) | Change::Keep(_) => Reach::Nothing,
        Change::PutService(put) => Reach::One(put.id),
        Change::PutTask(task) => touched_by_put(rows, task),
        Change::DropTask(task) => touched_by_drop(rows, *task),
    }
}

/// The services that any of them touches.
pub fn touched_together<R: Rows>(rows: &R, changes: &[Change]) -> Reach
    ensures { reach_only (touches_only (R.tables rows.now)) result changes.now ≡ true }
{
    let mut together = Reach::Nothing;
    for change in changes {
        together = together.joined(touched(rows, change));
        if let Reach::More = together {
            return Reach::More;
        }
    }
    together
}
