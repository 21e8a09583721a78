// What the tasks on one node come to, by one walk over them.
ghost use Rattle.std.specs.Prelude.{◌≡◌, ◌+◌, ◌^◌, ◌≤◌};
ghost use Rattle.swarm_objects.specs.Kinds.{bit};
ghost use Rattle.swarm_objects.specs.Nodes.Filters.{here};
ghost use Rattle.swarm_objects.specs.Nodes.Holdings.{task_cpu, task_mem};
ghost use Rattle.swarm_objects.specs.Usable.{IsUsable};
ghost use Rattle.swarm_sched.specs.Inside.Totals.{AreTotals, HasRoom, with_task};

use std::marker::Model;
use swarm_objects::loads::Loads;
use swarm_objects::placed::{load, reserved_cpu, reserved_mem, tasks_placed_on};
use swarm_objects::{Id, Rows, Task};

/// What the tasks from ASSIGNED to RUNNING on a node come to.
#[derive(Clone, Copy)]
pub struct Totals {
    /// What they reserve of its processors, in thousandths.
    pub cpu: u128,
    /// What they reserve of its memory, in bytes.
    pub mem: u128,
    /// How many live ones there are, of all services.
    pub load: u64,
}

// Yes is 1, and no is 0.
fn bit(yes: bool) -> u64
    ensures { result ≡ bit yes }
{
    if yes { 1 } else { 0 }
}

fn task_cpu(task: &Task) -> u64
    ensures { result ≡ task_cpu task.now }
{
    task.template.cpu
}

fn task_mem(task: &Task) -> u64
    ensures { result ≡ task_mem task.now }
{
    task.template.mem
}

impl Totals {
    /// Those of no task.
    pub const NONE: Totals = Totals {
        cpu: 0,
        mem: 0,
        load: 0,
    };

    // With one task more.
    fn with(self, task: &Task) -> Totals
        requires { HasRoom self }
        ensures with { result ≡ with_task task.now self }
        ensures grown { (result.cpu ≤ self.cpu + 2 ^ 64) × (result.mem ≤ self.mem + 2 ^ 64) }
    {
        let live = task.is_live();
        Totals {
            cpu: self.cpu + u128::from(task_cpu(task)),
            mem: self.mem + u128::from(task_mem(task)),
            load: self.load + bit(live),
        }
    }
}

/// Those of the node, and how many of its live tasks are the service's, by one walk.
pub fn count_up<R: Rows>(rows: &R, node: Id, service: Id) -> (Totals, u64)
    requires { IsUsable (R.tables rows.now) }
    ensures totals { AreTotals (R.tables rows.now) node result.0 }
    ensures here { result.1 ≡ here (R.tables rows.now) node service }
{
    let mut totals = Totals::NONE;
    let mut here = 0;
    for task in tasks_placed_on(rows, node) {
        totals = totals.with(task);
        here += bit(task.is_of(service) && task.is_live());
    }
    (totals, here)
}

/// The totals of one node; what is asked of another one is found by a scan. Contracts see the tables that are read.
#[derive(Drop)]
pub struct OneNode<'a, R: Rows> {
    rows: &'a R,
    node: Id,
    totals: Totals,
}

impl<'a, R: Rows> Model for OneNode<'a, R> {
    ghost use Rattle.swarm_objects.specs.World.{Tables};
    ghost use Rattle.swarm_objects.specs.Usable.{IsUsable};
    ghost use Rattle.swarm_sched.specs.Inside.Totals.{AreTotals};

    ghost Value = { Tables };

    ghost view = { λ o. R.tables o.rows.now };

    ghost invariant = { λ o. IsUsable (R.tables o.rows.now) × AreTotals (R.tables o.rows.now) o.node o.totals };
}

impl<'a, R: Rows> OneNode<'a, R> {
    /// These totals of the node.
    pub fn new(rows: &'a R, node: Id, totals: Totals) -> OneNode<'a, R>
        requires usable { IsUsable (R.tables rows.now) }
        requires totals { AreTotals (R.tables rows.now) node totals }
        ensures { result ≡ R.tables rows.now }
    {
        OneNode { rows, node, totals }
    }
}

impl<'a, R: Rows> Loads for OneNode<'a, R> {
    ghost tables = { λ t. t };

    fn load(&self, node: Id) -> u64 {
        if node == self.node {
            self.totals.load
        } else {
            load(self.rows, node)
        }
    }

    fn cpu(&self, node: Id) -> u128 {
        if node == self.node {
            self.totals.cpu
        } else {
            reserved_cpu(self.rows, node)
        }
    }

    fn mem(&self, node: Id) -> u128 {
        if node == self.node {
            self.totals.mem
        } else {
            reserved_mem(self.rows, node)
        }
    }
}
