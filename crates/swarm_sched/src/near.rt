// The scheduler's first duty by what is kept beside the rows: totals, waiting tasks and spread trees.
ghost use Rattle.std.specs.Option.{option_map};
ghost use Rattle.std.specs.Prelude.{◌≡◌, ◌∷◌, IfOk, IfSome, OnOk, List as Seq, map, ℕ};
ghost use Rattle.swarm_objects.specs.Loops.Scheduler.{schedule, scheduler};
ghost use Rattle.swarm_objects.specs.Nodes.BestNode.{best_node};
ghost use Rattle.swarm_objects.specs.Rows.{IsRising, first_of, node_id};
ghost use Rattle.swarm_objects.specs.Usable.{IsUsable};
ghost use Rattle.swarm_objects.specs.World.{Tables};
ghost use Rattle.swarm_objects.specs.declared.tasks.Task.{Task as Row};
ghost use Rattle.swarm_sched.specs.Inside.Nearing.{IsNoting, IsPlace, schedule_at, totals_node, with_tree};
ghost use Rattle.swarm_sched.specs.Inside.Totals.{AreTotals};
ghost use Rattle.swarm_sched.specs.Near.{IsNear, totals_of, tree_service};
ghost use Rattle.swarm_spread.specs.Counts.{IsFor, Stands};

use crate::known_nodes::KnownNodes;
use crate::placing::{best_node, best_node_by};
use crate::refused::explained;
use crate::totals::{Totals, count_up};
use crate::{is_to_drop, is_to_place};
use std::alloc::Global;
use std::marker::Model;
use swarm_filters::counts_by;
use swarm_objects::loads::Loads;
use swarm_objects::placed::{load, reserved_cpu, reserved_mem};
use swarm_objects::walks::{nodes, tasks};
use swarm_objects::{Duty, Id, List, NoMemory, Rows, Task, add};
use swarm_spread::SpreadTree;

/// What the scheduler's first duty is found by.
#[derive(Drop)]
pub struct Near {
    /// Each node, by rising id, and what its tasks from ASSIGNED to RUNNING come to: the thousandths of a processor
    /// and the bytes of memory that they reserve, and how many live ones there are, of all services.
    pub totals: List<(Id, u128, u128, u64)>,
    /// The ids of the tasks below ASSIGNED, by rising id.
    pub waiting: List<Id>,
    /// Each service of these tasks, by rising id, and the counts of its tasks by the placement preferences of the least
    /// of these.
    pub trees: List<(Id, SpreadTree)>,
}

// Rows that stand by rising number.
trait Numbered {
    ghost number_of: { Self → ℕ };

    fn number(&self) -> Id
        ensures { result ≡ number_of self.now };
}

impl Numbered for (Id, u128, u128, u64) {
    ghost number_of = { totals_node };

    fn number(&self) -> Id {
        self.0
    }
}

impl Numbered for (Id, SpreadTree) {
    ghost number_of = { tree_service };

    fn number(&self) -> Id {
        self.0
    }
}

// Where the row with the number stands, or else where it would.
fn place_of<T: Numbered>(rows: &[T], number: Id) -> Result<usize, usize>
    requires { IsRising T.number_of rows.now }
    ensures { IsPlace T.number_of number rows.now result }
{
    rows.binary_search_by_key(&number, |row| row.number())
}

// The totals of each node.
fn all_totals<R: Rows>(alloc: Global, rows: &R) -> Result<List<(Id, u128, u128, u64)>, NoMemory>
    requires { IsUsable (R.tables rows.now) }
    ensures { let t = R.tables rows.now in IfOk result (λ totals. totals ≡ map (totals_of t) t.nodes) }
{
    let mut all = List::new(alloc);
    for node in nodes(rows) {
        let (totals, _) = count_up(rows, node.id, 0);
        add(&mut all, (node.id, totals.cpu, totals.mem, totals.load))?;
    }
    Ok(all)
}

// The service of the task has a tree: where it has none so far, one by the preferences of this task.
fn add_tree<R: Rows>(
    alloc: Global,
    rows: &R,
    trees: &mut List<(Id, SpreadTree)>,
    task: &Task,
) -> Result<(), NoMemory>
    requires usable { IsUsable (R.tables rows.now) }
    requires rising { IsRising tree_service trees.old }
    ensures { OnOk result (trees.new ≡ with_tree (R.tables rows.now) task.now trees.old) }
{
    let Err(place) = place_of(trees.as_slice(), task.service) else {
        return Ok(());
    };
    let tree = SpreadTree::build(alloc, rows, task.service, task.template.spread.as_slice())?;
    match trees.insert(place, (task.service, tree)) {
        Ok(()) => Ok(()),
        Err(_) => Err(NoMemory),
    }
}

impl Near {
    // The next task is noted, where it waits.
    fn note<R: Rows>(&mut self, alloc: Global, rows: &R, task: &Task) -> Result<(), NoMemory>
        requires usable { IsUsable (R.tables rows.now) }
        requires rising { IsRising tree_service self.old.trees }
        ensures { OnOk result ((left : Seq Row) → IsNoting (R.tables rows.now) (task.now ∷ left) self.old
            → IsNoting (R.tables rows.now) left self.new) }
    {
        if !task.is_below_assigned() {
            return Ok(());
        }
        add(&mut self.waiting, task.id)?;
        add_tree(alloc, rows, &mut self.trees, task)
    }

    /// What a scan of the rows gives.
    pub fn build<R: Rows>(alloc: Global, rows: &R) -> Result<Near, NoMemory>
        requires { IsUsable (R.tables rows.now) }
        ensures { IfOk result (λ near. IsNear (R.tables rows.now) near) }
    {
        let totals = all_totals(alloc, rows)?;
        let mut near = Near {
            totals,
            waiting: List::new(alloc),
            trees: List::new(alloc),
        };
        for task in tasks(rows) {
            near.note(alloc, rows, task)?;
        }
        Ok(near)
    }

    // The tree that counts for the task.
    fn tree_for(&self, task: &Task) -> Option<&SpreadTree>
        requires { IsRising tree_service self.now.trees }
        ensures own { IfSome result (λ tree. IsFor task.now tree.now) }
        ensures stands { (t : Tables) → IsNear t self.now → IfSome result (λ tree. Stands t tree.now) }
    {
        let trees = self.trees.as_slice();
        match place_of(trees, task.service) {
            Ok(place) if trees[place].1.is_for(task) => Some(&trees[place].1),
            _ => None,
        }
    }
}

// The totals that are kept, and scans of the tasks of other nodes. Contracts see the tables that are read.
#[derive(Drop)]
struct NearLoads<'a, R: Rows> {
    rows: &'a R,
    near: &'a Near,
}

impl<'a, R: Rows> Model for NearLoads<'a, R> {
    ghost use Rattle.swarm_objects.specs.World.{Tables};
    ghost use Rattle.swarm_objects.specs.Usable.{IsUsable};
    ghost use Rattle.swarm_sched.specs.Near.{IsNear};

    ghost Value = { Tables };

    ghost view = { λ l. R.tables l.rows.now };

    ghost invariant = { λ l. IsUsable (R.tables l.rows.now) × IsNear (R.tables l.rows.now) l.near.now };
}

impl<'a, R: Rows> NearLoads<'a, R> {
    // What is kept beside these rows.
    fn new(rows: &'a R, near: &'a Near) -> NearLoads<'a, R>
        requires usable { IsUsable (R.tables rows.now) }
        requires near { IsNear (R.tables rows.now) near.now }
        ensures { result ≡ R.tables rows.now }
    {
        NearLoads { rows, near }
    }

    // What is kept of the node.
    fn kept(&self, node: Id) -> Option<Totals>
        ensures { IfSome result (AreTotals self.now node) }
    {
        let all = self.near.totals.as_slice();
        match place_of(all, node) {
            Ok(place) => {
                let (_, cpu, mem, load) = all[place];
                Some(Totals { cpu, mem, load })
            }
            Err(_) => None,
        }
    }
}

impl<'a, R: Rows> Loads for NearLoads<'a, R> {
    ghost tables = { λ t. t };

    fn load(&self, node: Id) -> u64 {
        match self.kept(node) {
            Some(totals) => totals.load,
            None => load(self.rows, node),
        }
    }

    fn cpu(&self, node: Id) -> u128 {
        match self.kept(node) {
            Some(totals) => totals.cpu,
            None => reserved_cpu(self.rows, node),
        }
    }

    fn mem(&self, node: Id) -> u128 {
        match self.kept(node) {
            Some(totals) => totals.mem,
            None => reserved_mem(self.rows, node),
        }
    }
}

// The id of the best node for the task: by a tree that counts for it, or else by a scan.
fn best_near<R: Rows>(rows: &R, near: &Near, loads: &NearLoads<'_, R>, task: &Task) -> Option<Id>
    requires usable { IsUsable (R.tables rows.now) }
    requires near { IsNear (R.tables rows.now) near.now }
    requires same { loads.now ≡ R.tables rows.now }
    ensures { result ≡ option_map node_id (best_node (R.tables rows.now) task.now) }
{
    if let Some(tree) = near.tree_for(task) {
        return best_node_by(rows, loads, tree, task);
    }
    match best_node(rows, &mut KnownNodes::none(), task) {
        Some(node) => Some(node.id),
        None => None,
    }
}

// What there is to do about the task.
fn schedule_near<R: Rows>(rows: &R, near: &Near, task: &Task) -> Option<Duty>
    requires usable { IsUsable (R.tables rows.now) }
    requires near { IsNear (R.tables rows.now) near.now }
    ensures { result ≡ first_of (schedule (R.tables rows.now) task.now) }
{
    if is_to_drop(task) {
        return Some(Duty::Drop(task.id));
    }
    if !is_to_place(task) {
        return None;
    }
    let loads = NearLoads::new(rows, near);
    match best_near(rows, near, &loads, task) {
        Some(node) => Some(Duty::Place(task.id, node)),
        None => explained(task, counts_by(rows, &loads, task)),
    }
}

// The same of the task with this id.
fn schedule_at<R: Rows>(rows: &R, near: &Near, id: Id) -> Option<Duty>
    requires usable { IsUsable (R.tables rows.now) }
    requires near { IsNear (R.tables rows.now) near.now }
    ensures { result ≡ first_of (schedule_at (R.tables rows.now) id) }
{
    match rows.task(id) {
        Some(task) => schedule_near(rows, near, task),
        None => None,
    }
}

/// The scheduler's first duty, by the tasks that wait alone. It takes no memory.
pub fn least_near<R: Rows>(rows: &R, near: &Near) -> Option<Duty>
    requires usable { IsUsable (R.tables rows.now) }
    requires near { IsNear (R.tables rows.now) near.now }
    ensures { result ≡ first_of (scheduler (R.tables rows.now)) }
{
    let waiting = near.waiting.as_slice();
    for id in waiting {
        if let Some(duty) = schedule_at(rows, near, *id) {
            return Some(duty);
        }
    }
    None
}
