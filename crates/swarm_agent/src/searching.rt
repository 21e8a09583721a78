// Look-ups among executors by rising task, by halving.
ghost use Rattle.std.specs.Prelude.{◌≡◌, ◌==◌, ◌≤◌, drop, false, length, nat_le, nat_lt, slice_get, true};
ghost use Rattle.std.specs.List.Sorted.{IsPartitionPoint};
ghost use Rattle.std.specs.Option.{option_copied};
ghost use Rattle.std.specs.Slice.Iter.{iter_rest};
ghost use Rattle.swarm_agent.specs.Inside.Lookup.{of_task};
ghost use Rattle.swarm_objects.specs.Rows.{IsRising, executor_task, is_some_and, row_at, rows_above, rows_before};

use std::slice::Iter;
use swarm_objects::{Executor, Id};

// The point where the tasks stop being lesser.
fn parting(rows: &[Executor], task: Id) -> usize
    requires { IsRising executor_task rows.now }
    ensures bound { result ≤ length rows.now }
    ensures parted { IsPartitionPoint (λ row. nat_lt (executor_task row) task ≡ true)
        (λ row. nat_lt (executor_task row) task ≡ false) rows.now result }
{
    rows.partition_point(|row| row.task < task)
}

/// How many executors are those of lesser tasks.
pub fn lesser(rows: &[Executor], task: Id) -> usize
    requires { IsRising executor_task rows.now }
    ensures bound { result ≤ length rows.now }
    ensures count { result ≡ rows_before executor_task task rows.now }
{
    parting(rows, task)
}

/// Whether the executor at the index is the task's.
pub fn is_at(rows: &[Executor], at: usize, task: Id) -> bool
    ensures { result ≡ is_some_and (λ row. executor_task row == task) (slice_get rows.now at) }
{
    match rows.get(at) {
        Some(row) => row.task == task,
        None => false,
    }
}

// The executor at the index, where it is the task's.
fn executor_at(rows: &[Executor], at: usize, task: Id) -> Option<&Executor>
    ensures { option_copied result ≡ of_task task (slice_get rows.now at) }
{
    match rows.get(at) {
        Some(row) if row.task == task => Some(row),
        _ => None,
    }
}

/// The task's executor.
pub fn row_of(rows: &[Executor], task: Id) -> Option<&Executor>
    requires { IsRising executor_task rows.now }
    ensures { option_copied result ≡ row_at executor_task task rows.now }
{
    executor_at(rows, lesser(rows, task), task)
}

// The point where the tasks are above this one.
fn passing(rows: &[Executor], after: Id) -> usize
    requires { IsRising executor_task rows.now }
    ensures bound { result ≤ length rows.now }
    ensures parted { IsPartitionPoint (λ row. nat_le (executor_task row) after ≡ true)
        (λ row. nat_le (executor_task row) after ≡ false) rows.now result }
{
    rows.partition_point(|row| row.task <= after)
}

// The executors from the index on.
fn rows_from(rows: &[Executor], at: usize) -> Iter<'_, Executor>
    requires { at ≤ length rows.now }
    ensures { iter_rest result ≡ drop at rows.now }
{
    rows[at..].iter()
}

/// The executors after this task.
pub fn rows_above(rows: &[Executor], after: Id) -> Iter<'_, Executor>
    requires { IsRising executor_task rows.now }
    ensures { iter_rest result ≡ rows_above executor_task after rows.now }
{
    rows_from(rows, passing(rows, after))
}
