// The reaper: tasks that are removed, and old ended ones.
ghost use Rattle.std.specs.Prelude.{◌≡◌, ◌&&◌, count_by, find};
ghost use Rattle.std.specs.Option.{option_copied};
ghost use Rattle.swarm_objects.specs.Loops.Reaper.{
  is_oldest_past,
  is_past,
  is_removable,
  is_trimmed,
  is_trimmed_in,
  reaper,
};
ghost use Rattle.swarm_objects.specs.Loops.Words.{duty_where};
ghost use Rattle.swarm_objects.specs.Rows.{first_of, is_some_and};
ghost use Rattle.swarm_objects.specs.Tasks.Places.{newest, tasks_of_place};
ghost use Rattle.swarm_objects.specs.Tasks.Words.{is_task};
ghost use Rattle.swarm_objects.specs.Usable.{IsUsable};

use role_words::{has_open_run, newest, tasks_of_place};
use swarm_objects::walks::tasks;
use swarm_objects::{Duty, Place, Rows, Service, Task};

/// It is to be removed, and nothing of it runs.
pub fn is_removable(task: &Task) -> bool
    ensures { result ≡ is_removable task.now }
{
    !task.is_kept() && (task.is_below_assigned() || task.has_ended())
}

// How many such tasks the place has.
#[tactic(auto, using(crate::proofs::Steps::count_steps))]
fn past_count<R: Rows>(rows: &R, service: &Service, place: Place) -> u64
    requires { IsUsable (R.tables rows.now) }
    ensures { result ≡ count_by is_past (tasks_of_place service.now place (R.tables rows.now).tasks) }
{
    let mut count = 0;
    for task in tasks_of_place(rows, service, place) {
        if task.is_past() {
            count += 1;
        }
    }
    count
}

// The oldest of them.
fn oldest_past<'a, R: Rows>(rows: &'a R, service: &'a Service, place: Place) -> Option<&'a Task>
    requires { IsUsable (R.tables rows.now) }
    ensures { option_copied result ≡ find is_past (tasks_of_place service.now place (R.tables rows.now).tasks) }
{
    tasks_of_place(rows, service, place).find(|task| task.is_past())
}

// The task is the oldest of them.
fn is_oldest<R: Rows>(rows: &R, service: &Service, task: &Task) -> bool
    requires { IsUsable (R.tables rows.now) }
    ensures { let tasks = tasks_of_place service.now task.now.place (R.tables rows.now).tasks in
        result ≡ is_some_and (is_task task.now.id) (find is_past tasks) }
{
    match oldest_past(rows, service, task.place) {
        Some(oldest) => oldest.id == task.id,
        None => false,
    }
}

// The task is the newest of its place.
fn is_newest<R: Rows>(rows: &R, service: &Service, task: &Task) -> bool
    requires { IsUsable (R.tables rows.now) }
    ensures { let tasks = tasks_of_place service.now task.now.place (R.tables rows.now).tasks in
        result ≡ is_some_and (is_task task.now.id) (newest tasks) }
{
    match newest(rows, service, task.place) {
        Some(newest) => newest.id == task.id,
        None => false,
    }
}

// The place has more such tasks than are kept. This one is the oldest of them, and not the place's newest. Whether it
// is the oldest is asked first: that walk ends at the first such task.
fn is_oldest_past<R: Rows>(rows: &R, service: &Service, task: &Task) -> bool
    requires { IsUsable (R.tables rows.now) }
    ensures { let t = R.tables rows.now in
        result ≡ is_oldest_past t.settings.history (tasks_of_place service.now task.now.place t.tasks) task.now }
{
    is_oldest(rows, service, task)
        && rows.settings().history < past_count(rows, service, task.place)
        && !is_newest(rows, service, task)
}

// The service has no update under way, and the task is such a one of its place.
fn is_trimmed_in<R: Rows>(rows: &R, task: &Task, service: &Service) -> bool
    requires { IsUsable (R.tables rows.now) }
    ensures { result ≡ is_trimmed_in (R.tables rows.now) task.now service.now }
{
    !has_open_run(service) && is_oldest_past(rows, service, task)
}

// It is the oldest of more ended tasks of its place than are kept.
fn is_trimmed<R: Rows>(rows: &R, task: &Task) -> bool
    requires { IsUsable (R.tables rows.now) }
    ensures { result ≡ is_trimmed (R.tables rows.now) task.now }
{
    match rows.service(task.service) {
        Some(service) => is_trimmed_in(rows, task, service),
        None => false,
    }
}

// The first task that is removed.
fn first_removable<R: Rows>(rows: &R) -> Option<Duty>
    requires { IsUsable (R.tables rows.now) }
    ensures { let t = R.tables rows.now in
        result ≡ first_of (duty_where is_removable (λ x. Duty.Delete x.id) t.tasks) }
{
    for task in tasks(rows) {
        if is_removable(task) {
            return Some(Duty::Delete(task.id));
        }
    }
    None
}

/// It ended and was to stop, and is the oldest such one of its place. What the task itself shows is looked at first.
pub fn is_trimmed_past<R: Rows>(rows: &R, task: &Task) -> bool
    requires { IsUsable (R.tables rows.now) }
    ensures { result ≡ (is_past task.now && is_trimmed (R.tables rows.now) task.now) }
{
    task.is_past() && is_trimmed(rows, task)
}

// The first such task.
fn first_trimmed_past<R: Rows>(rows: &R) -> Option<Duty>
    requires { IsUsable (R.tables rows.now) }
    ensures { let t = R.tables rows.now in
        result ≡ first_of (duty_where (λ x. is_past x && is_trimmed t x) (λ x. Duty.Trim x.id) t.tasks) }
{
    for task in tasks(rows) {
        if is_trimmed_past(rows, task) {
            return Some(Duty::Trim(task.id));
        }
    }
    None
}

// The first old ended task.
fn first_trimmed<R: Rows>(rows: &R) -> Option<Duty>
    requires { IsUsable (R.tables rows.now) }
    ensures { let t = R.tables rows.now in
        result ≡ first_of (duty_where (is_trimmed t) (λ x. Duty.Trim x.id) t.tasks) }
{
    first_trimmed_past(rows)
}

/// The first duty of the reaper.
#[tactic(auto, using(crate::proofs::Steps::first_steps))]
pub fn least_reaper<R: Rows>(rows: &R) -> Option<Duty>
    requires { IsUsable (R.tables rows.now) }
    ensures { result ≡ first_of (reaper (R.tables rows.now)) }
{
    if let Some(duty) = first_removable(rows) {
        return Some(duty);
    }
    first_trimmed(rows)
}
