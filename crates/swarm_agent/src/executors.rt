// Executors, by rising task.
ghost use Rattle.std.specs.Prelude.{◌≡◌, ◌<◌, [], OnErr, OnOk, length, map, set, true};
ghost use Rattle.std.specs.Slice.Iter.{iter_rest};
ghost use Rattle.swarm_objects.specs.Agents.NodeAgents.{lost};
ghost use Rattle.std.specs.List.{list_all, list_any};
ghost use Rattle.swarm_agent.specs.Inside.Named.{named_or_gone};
ghost use Rattle.swarm_agent.specs.Inside.Saying.{is_unsaid, unsaid};
ghost use Rattle.swarm_agent.specs.Inside.Sleeping.{AllSleepUntil};
ghost use Rattle.swarm_objects.specs.Bounds.{has_near_times};
ghost use Rattle.std.specs.Option.{option_copied};
ghost use Rattle.swarm_objects.specs.Agents.Messages.{change_executor};
ghost use Rattle.swarm_objects.specs.Bounds.{far_end};
ghost use Rattle.swarm_objects.specs.Loops.Agents.{stepped, told};
ghost use Rattle.swarm_objects.specs.Rows.{IsRising, drop_row, executor_task, row_at, rows_above, with_row};

use crate::saying::{count_unsaid, one_unsaid};
use crate::searching::{is_at, lesser, row_of, rows_above};
use crate::steps::{is_late, make_step, wake_time};
use std::alloc::Global;
use std::collections::BTreeSet;
use std::marker::Model;
use std::slice::Iter;
use swarm_objects::{Executor, Id, Ms, NoMemory, TaskState};

// A node that loses its power loses what starts or runs.
fn lose(executor: &mut Executor)
    ensures { executor.new ≡ lost 0 executor.old }
{
    if is_late(executor.state) {
        executor.state = TaskState::Failed;
        executor.since = 0;
    }
}

// What isn't named is gone.
fn leave_out(named: &BTreeSet<Id>, executor: &mut Executor)
    ensures { executor.new ≡ named_or_gone named.now executor.old }
{
    if !named.contains(&executor.task) {
        executor.gone = true;
    }
}

// All that start or run fail.
fn lose_all(rows: &mut [Executor])
    ensures { rows.new ≡ map (lost 0) rows.old }
{
    for executor in rows.iter_mut() {
        lose(executor);
    }
}

// All that aren't named are gone.
fn leave_all_out(named: &BTreeSet<Id>, rows: &mut [Executor])
    ensures { rows.new ≡ map (named_or_gone named.now) rows.old }
{
    for executor in rows.iter_mut() {
        leave_out(named, executor);
    }
}

// The executor at the index becomes this one. The count of those that have something to say goes along.
fn exchange(rows: &mut Vec<Executor>, count: &mut usize, at: usize, executor: Executor)
    requires within { at < length rows.old.items }
    requires said { unsaid rows.old.items ≡ count.old }
    ensures rows { rows.new.items ≡ set rows.old.items at executor }
    ensures said { unsaid rows.new.items ≡ count.new }
{
    let others = *count - one_unsaid(&rows[at]);
    *count = others + one_unsaid(&executor);
    rows[at] = executor;
}

// The executor takes the place of the one of its task, where one is there. The count goes along.
fn replace(rows: &mut Vec<Executor>, count: &mut usize, executor: Executor)
    requires rising { IsRising executor_task rows.old.items }
    requires said { unsaid rows.old.items ≡ count.old }
    ensures rows { rows.new.items ≡ change_executor executor.task (λ _. executor) rows.old.items }
    ensures said { unsaid rows.new.items ≡ count.new }
{
    let at = lesser(rows.as_slice(), executor.task);
    if is_at(rows.as_slice(), at, executor.task) {
        exchange(rows, count, at, executor);
    }
}

// The executor stands among those by rising task, in the place of its task's. It takes memory where there is none of
// its task. The count goes along.
fn put(rows: &mut Vec<Executor>, count: &mut usize, executor: Executor) -> Result<(), NoMemory>
    requires rising { IsRising executor_task rows.old.items }
    requires said { unsaid rows.old.items ≡ count.old }
    ensures ok { OnOk result (rows.new.items ≡ with_row executor_task executor rows.old.items) }
    ensures err { OnErr result (rows.new.items ≡ rows.old.items) }
    ensures said { unsaid rows.new.items ≡ count.new }
{
    let at = lesser(rows.as_slice(), executor.task);
    if is_at(rows.as_slice(), at, executor.task) {
        exchange(rows, count, at, executor);
        return Ok(());
    }
    match rows.insert(at, executor) {
        Ok(()) => {
            *count += one_unsaid(&executor);
            Ok(())
        }
        Err(_) => Err(NoMemory),
    }
}

// The task's executor goes. The count goes along.
fn forget(rows: &mut Vec<Executor>, count: &mut usize, task: Id)
    requires rising { IsRising executor_task rows.old.items }
    requires said { unsaid rows.old.items ≡ count.old }
    ensures rows { rows.new.items ≡ drop_row executor_task task rows.old.items }
    ensures said { unsaid rows.new.items ≡ count.new }
{
    let at = lesser(rows.as_slice(), task);
    if is_at(rows.as_slice(), at, task) {
        let executor = rows.remove(at);
        *count -= one_unsaid(&executor);
    }
}

// A time until which all of them sleep.
fn least_wake(rows: &[Executor]) -> Ms
    ensures { AllSleepUntil result rows.now }
{
    let mut least = Ms::MAX;
    for executor in rows {
        least = least.min(wake_time(executor));
    }
    least
}

/// Executors, by rising task. Contracts see them as a list. Beside them stands a time until which all of them sleep:
/// none has a step before it, and no timed phase ends before it. Most run and wait for nothing, so most questions for
/// what is due end there. So do most for news and for what is to be forgotten, as it is counted how many have something
/// to say.
#[derive(Drop)]
pub struct Executors {
    rows: Vec<Executor>,
    wakes: Ms,
    unsaid: usize,
}

impl Model for Executors {
    ghost use Rattle.std.specs.Prelude.{List};
    ghost use Rattle.swarm_agent.specs.Inside.Sleeping.{AreKept};
    ghost use Rattle.swarm_objects.specs.declared.agents.Executor.{Executor as Row};

    ghost Value = { List Row };

    ghost view = { λ e. e.rows.items };

    ghost invariant = { λ e. AreKept e.rows.items e.wakes e.unsaid };
}

impl Executors {
    /// None.
    pub fn new(alloc: Global) -> Executors
        ensures { result ≡ [] }
    {
        Executors {
            rows: Vec::new(alloc),
            wakes: Ms::MAX,
            unsaid: 0,
        }
    }

    /// A time until which all of them sleep.
    pub fn wakes(&self) -> Ms
        ensures { AllSleepUntil result self.now }
    {
        self.wakes
    }

    /// Whether one of them has something to say: news, or that it is to be forgotten.
    pub fn has_unsaid(&self) -> bool
        ensures value { result ≡ list_any is_unsaid self.now }
        ensures rising { IsRising executor_task self.now }
    {
        self.unsaid > 0
    }

    /// All of them, by rising task.
    pub fn iter(&self) -> Iter<'_, Executor>
        ensures rows { iter_rest result ≡ self.now }
        ensures rising { IsRising executor_task self.now }
    {
        self.rows.as_slice().iter()
    }

    /// Those after this task, by rising task.
    pub fn above(&self, after: Id) -> Iter<'_, Executor>
        ensures rows { iter_rest result ≡ rows_above executor_task after self.now }
        ensures rising { IsRising executor_task self.now }
    {
        rows_above(self.rows.as_slice(), after)
    }

    /// The executor of the task.
    pub fn get(&self, task: Id) -> Option<&Executor>
        ensures value { option_copied result ≡ row_at executor_task task self.now }
        ensures rising { IsRising executor_task self.now }
    {
        row_of(self.rows.as_slice(), task)
    }

    /// The executor of the task becomes this one, where one is there.
    pub fn set(&mut self, executor: Executor)
        ensures { self.new ≡ change_executor executor.task (λ _. executor) self.old }
    {
        self.wakes = self.wakes.min(wake_time(&executor));
        replace(&mut self.rows, &mut self.unsaid, executor);
    }

    // One of those after this task may have a step by now.
    fn may_step_after(&self, after: Id, now: Ms) -> bool {
        self.above(after).any(|executor| wake_time(executor) <= now)
    }

    // The time until which they sleep is found anew, as it may be later than what is remembered; not yet where one of
    // those after this task may have a step by now.
    fn renew_after(&mut self, task: Id, now: Ms)
        ensures { self.new ≡ self.old }
    {
        if !self.may_step_after(task, now) {
            self.wakes = least_wake(self.rows.as_slice());
        }
    }

    /// The executor of the task makes the step that is due. Steps of one time are made by rising task, so at the last
    /// of them the time is found anew until which all sleep.
    pub fn step(&mut self, task: Id, now: Ms)
        requires near { list_all has_near_times self.old ≡ true }
        requires clock { now < far_end }
        ensures { self.new ≡ change_executor task (stepped now) self.old }
    {
        if let Some(mut executor) = executor_of(self, task) {
            make_step(&mut executor, now);
            self.set(executor);
            self.renew_after(task, now);
        }
    }

    /// The state of the task's executor was reported.
    pub fn tell(&mut self, task: Id)
        ensures { self.new ≡ change_executor task told self.old }
    {
        if let Some(mut executor) = executor_of(self, task) {
            executor.reported = Some(executor.state);
            self.set(executor);
        }
    }

    /// The executor comes, or takes the place of the one of its task.
    pub fn put(&mut self, executor: Executor) -> Result<(), NoMemory>
        ensures ok { OnOk result (self.new ≡ with_row executor_task executor self.old) }
        ensures err { OnErr result (self.new ≡ self.old) }
    {
        self.wakes = self.wakes.min(wake_time(&executor));
        put(&mut self.rows, &mut self.unsaid, executor)
    }

    /// Those that start or run fail, as their node loses its power.
    pub fn lose(&mut self)
        ensures { self.new ≡ map (lost 0) self.old }
    {
        lose_all(self.rows.as_mut_slice());
        self.wakes = least_wake(self.rows.as_slice());
        self.unsaid = count_unsaid(self.rows.as_slice());
    }

    /// Those of other tasks than these are gone.
    pub fn leave_out(&mut self, named: &BTreeSet<Id>)
        ensures { self.new ≡ map (named_or_gone named.now) self.old }
    {
        leave_all_out(named, self.rows.as_mut_slice());
        self.wakes = least_wake(self.rows.as_slice());
        self.unsaid = count_unsaid(self.rows.as_slice());
    }

    /// The executor of the task goes.
    pub fn remove(&mut self, task: Id)
        ensures { self.new ≡ drop_row executor_task task self.old }
    {
        forget(&mut self.rows, &mut self.unsaid, task);
    }
}

/// The task's executor, where it is there.
pub fn executor_of(executors: &Executors, task: Id) -> Option<Executor>
    ensures value { result ≡ row_at executor_task task executors.now }
    ensures rising { IsRising executor_task executors.now }
{
    executors.get(task).copied()
}
