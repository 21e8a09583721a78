// The line that sums up a world.
ghost use Rattle.std.specs.Prelude.{◌≡◌, IfOk, count_by, length, string_bytes};
ghost use Rattle.swarm_objects.specs.Usable.{IsUsable};
ghost use Rattle.swarm_objects.specs.Writers.{Puts};
ghost use Rattle.swarm_top.specs.Summary.{is_live_in, rows_text, summary_of};

use std::alloc::{AllocError, Global};
use std::fmt::Write;
use swarm_objects::walks::{nodes, services, tasks};
use swarm_objects::{Rows, Task, TaskState, rank};

#[tactic(auto, unfolding(crate::specs::Summary::is_live_in))]
fn is_live_in(state: TaskState, task: &Task) -> bool
    ensures { result ≡ is_live_in state task.now }
{
    task.is_live() && rank(task.state) == rank(state)
}

#[tactic(auto, using(swarm_objects::proofs::Few::few_nodes))]
fn node_count<R: Rows>(rows: &R) -> u64
    requires { IsUsable (R.tables rows.now) }
    ensures { result ≡ length (R.tables rows.now).nodes }
{
    let mut count = 0;
    for _ in nodes(rows) {
        count += 1;
    }
    count
}

#[tactic(auto, using(crate::proofs::Counting::few_services))]
fn service_count<R: Rows>(rows: &R) -> u64
    requires { IsUsable (R.tables rows.now) }
    ensures { result ≡ length (R.tables rows.now).services }
{
    let mut count = 0;
    for _ in services(rows) {
        count += 1;
    }
    count
}

#[tactic(auto, using(swarm_objects::proofs::Few::few_tasks))]
fn task_count<R: Rows>(rows: &R) -> u64
    requires { IsUsable (R.tables rows.now) }
    ensures { result ≡ length (R.tables rows.now).tasks }
{
    let mut count = 0;
    for _ in tasks(rows) {
        count += 1;
    }
    count
}

// How many live tasks were seen in this state.
#[tactic(auto, using(crate::proofs::Counting::live_steps))]
fn live_in<R: Rows>(state: TaskState, rows: &R) -> u64
    requires { IsUsable (R.tables rows.now) }
    ensures { result ≡ count_by (is_live_in state) (R.tables rows.now).tasks }
{
    let mut count = 0;
    for task in tasks(rows) {
        if is_live_in(state, task) {
            count += 1;
        }
    }
    count
}

#[tactic(auto, unfolding(crate::specs::Summary::rows_text))]
fn put_rows(text: &mut String, nodes: u64, services: u64, tasks: u64) -> Result<(), AllocError>
    ensures { Puts result text.old text.new (rows_text nodes services tasks) }
{
    write!(text, "nodes {nodes} services {services} tasks {tasks}")
}

fn put_counts<R: Rows>(text: &mut String, rows: &R, entries: u64) -> Result<(), AllocError>
    requires { IsUsable (R.tables rows.now) }
    ensures { Puts result text.old text.new (summary_of (R.tables rows.now) entries) }
{
    let running = live_in(TaskState::Running, rows);
    put_rows(
        text,
        node_count(rows),
        service_count(rows),
        task_count(rows),
    )?;
    write!(text, " running {running} entries {entries}\n")
}

/// The line of these rows, with so many entries.
pub fn summary_of<R: Rows>(alloc: Global, rows: &R, entries: u64) -> Result<String, AllocError>
    requires { IsUsable (R.tables rows.now) }
    ensures { IfOk result (λ text. string_bytes text ≡ summary_of (R.tables rows.now) entries) }
{
    let mut text = String::new(alloc);
    put_counts(&mut text, rows, entries)?;
    Ok(text)
}
