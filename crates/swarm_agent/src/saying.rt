// What executors have to say: news, and that they are to be forgotten.
ghost use Rattle.std.specs.Prelude.{◌≡◌, if◌then◌else◌};
ghost use Rattle.swarm_agent.specs.Agent.{has_news};
ghost use Rattle.swarm_agent.specs.Inside.Saying.{is_unsaid, unsaid};
ghost use Rattle.swarm_objects.specs.Loops.Agents.{is_forgotten, is_news};

use swarm_objects::{Executor, TaskState, rank};

/// It is gone and has ended.
pub fn is_forgotten(executor: &Executor) -> bool
    ensures { result ≡ is_forgotten executor.now }
{
    executor.gone && rank(TaskState::Running) < rank(executor.state)
}

/// The state is above the one that was reported.
pub fn is_news(state: TaskState, reported: Option<TaskState>) -> bool
    ensures { result ≡ is_news state reported }
{
    match reported {
        None => true,
        Some(told) => rank(told) < rank(state),
    }
}

/// It isn't gone, and its state is above the one that it reported.
pub fn has_news(executor: &Executor) -> bool
    ensures { result ≡ has_news executor.now }
{
    !executor.gone && is_news(executor.state, executor.reported)
}

// It has news, or it is to be forgotten.
fn is_unsaid(executor: &Executor) -> bool
    ensures { result ≡ is_unsaid executor.now }
{
    has_news(executor) || is_forgotten(executor)
}

/// One where it has something to say, else none.
pub fn one_unsaid(executor: &Executor) -> usize
    ensures { result ≡ if is_unsaid executor.now then 1 else 0 }
{
    usize::from(is_unsaid(executor))
}

/// How many of them have something to say.
pub fn count_unsaid(rows: &[Executor]) -> usize
    ensures { result ≡ unsaid rows.now }
{
    let mut count = 0;
    for executor in rows {
        count += one_unsaid(executor);
    }
    count
}
