// Two lists by rising task, gone through together in one pass.
ghost use Rattle.std.specs.Prelude.{◌≡◌, ◌++◌, ℕ, OnOk, OnErr};
ghost use Rattle.std.specs.Option.{option_copied, option_to_list};
ghost use Rattle.swarm_assign.specs.Inside.Merging.{change_task, head_at, least_key, rest_at};
ghost use Rattle.swarm_objects.specs.Agents.Messages.{assigned_task};

use swarm_objects::{AssignChange, Assigned, Id, List, NoMemory, add};

/// What is said of one task.
pub trait OfTask {
    /// The task's id.
    ghost task_of: { Self → ℕ };

    /// The task's id.
    fn task(&self) -> Id
        ensures { result ≡ task_of self.now };
}

impl OfTask for Assigned {
    ghost task_of = { assigned_task };

    fn task(&self) -> Id {
        self.task
    }
}

impl OfTask for AssignChange {
    ghost task_of = { change_task };

    fn task(&self) -> Id {
        match self {
            AssignChange::Update(assigned) => assigned.task,
            AssignChange::Remove(task) => *task,
        }
    }
}

/// The least task of the first rows.
pub fn least_task<A: OfTask, B: OfTask>(one: &[A], two: &[B]) -> Option<Id>
    ensures { result ≡ least_key A.task_of B.task_of one.now two.now }
{
    match (one, two) {
        ([], []) => None,
        ([], [row, ..]) => Some(row.task()),
        ([row, ..], []) => Some(row.task()),
        ([row, ..], [other, ..]) => Some(row.task().min(other.task())),
    }
}

/// The first row, where it is of this task.
pub fn head_at<T: OfTask>(rows: &[T], task: Id) -> Option<&T>
    ensures { option_copied result ≡ head_at T.task_of task rows.now }
{
    match rows {
        [row, ..] if row.task() == task => Some(row),
        _ => None,
    }
}

/// The rows without the first one, where that is of this task.
pub fn rest_at<T: OfTask>(rows: &[T], task: Id) -> &[T]
    ensures { result.now ≡ rest_at T.task_of task rows.now }
{
    match rows {
        [row, rest @ ..] if row.task() == task => rest,
        _ => rows,
    }
}

/// Puts the item last, if there is one.
pub fn put<T: Drop>(list: &mut List<T>, item: Option<T>) -> Result<(), NoMemory>
    ensures ok { OnOk result (list.new ≡ list.old ++ option_to_list item) }
    ensures err { OnErr result (list.new ≡ list.old) }
{
    match item {
        Some(item) => add(list, item),
        None => Ok(()),
    }
}
