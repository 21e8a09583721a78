// The best node for a task.
ghost use Rattle.std.specs.Option.{option_copied, option_map};
ghost use Rattle.std.specs.Ordering.{nat_cmp, ordering_then};
ghost use Rattle.std.specs.Prelude.{◌≡◌, ◌↔◌, ◌⊎◌, ◌<◌, ◌&&◌, IfSome, IsTrue, None, Some, false, get_or, is_some};
ghost use Rattle.std.specs.Prelude.{set, ℕ};
ghost use Rattle.std.specs.declared.cmp.Ordering.TheVariants.{Less};
ghost use Rattle.swarm_filters.specs.Tested.{is_open};
ghost use Rattle.swarm_objects.specs.Nodes.BestNode.{best_node};
ghost use Rattle.swarm_objects.specs.Nodes.Filters.{here};
ghost use Rattle.swarm_objects.specs.Rows.{Has, node_id, row_at};
ghost use Rattle.swarm_objects.specs.Usable.{IsUsable};
ghost use Rattle.swarm_sched.specs.Inside.Classes.{AreSorted, AreValues, HaveClasses, IsOrder, class_in_turn};
ghost use Rattle.swarm_sched.specs.Inside.Known.{Knows};
ghost use Rattle.swarm_sched.specs.Inside.KnownNodes.{KnowsNodes};
ghost use Rattle.swarm_sched.specs.Inside.KnownRefusals.{KnowsOwn};
ghost use Rattle.swarm_sched.specs.Inside.Placing.{IsNodeLoad, comes_first};
ghost use Rattle.swarm_sched.specs.Inside.Ranks.{AreCurrent, AreRanked, of_class};
ghost use Rattle.swarm_sched.specs.declared.classes.TheConstants.{CLASSES};
ghost use Rattle.swarm_spread.specs.Counts.{IsFor, Stands};

use crate::branches::Branches;
use crate::class_loads::branches_of;
use crate::class_search::{any_of, best_of_class};
use crate::class_table::ClassTable;
use crate::classes::ClassedNode;
use crate::filters::Filters;
use crate::known::KnownTotals;
use crate::known_nodes::KnownNodes;
use crate::known_refusals::Group;
use crate::last_group::is_open_in;
use crate::orders::Orders;
use crate::ranks::Ranks;
use std::cmp::Ordering;
use swarm_objects::loads::Loads;
use swarm_objects::walks::nodes;
use swarm_objects::{Id, Node, Rows, Task};
use swarm_spread::SpreadTree;

/// How many live tasks are on a node: of all services, and of the task's own.
#[derive(Clone, Copy)]
pub struct NodeLoad {
    /// Of all services.
    pub load: u64,
    /// Of the task's service.
    pub here: u64,
}

impl NodeLoad {
    const NONE: NodeLoad = NodeLoad { load: 0, here: 0 };
}

// Which of two nodes comes first, by the placement preferences and then by their live tasks.
fn node_cmp(spread: Ordering, a: Id, b: Id, one: NodeLoad, other: NodeLoad) -> Ordering
    ensures { result ≡ ordering_then spread (ordering_then (nat_cmp one.here other.here)
        (ordering_then (nat_cmp one.load other.load) (nat_cmp a b))) }
{
    spread
        .then(one.here.cmp(&other.here))
        .then(one.load.cmp(&other.load))
        .then(a.cmp(&b))
}

/// Whether a node with so many tasks may come before one that has none of the service's: only by fewer of all services,
/// or by its id.
pub fn may_come_first(load: u64, node: Id, best: Id, held: NodeLoad) -> bool
    ensures { IsTrue result ↔ (ordering_then (nat_cmp load held.load) (nat_cmp node best) ≡ Less) }
{
    load.cmp(&held.load).then(node.cmp(&best)) == Ordering::Less
}

// Whether the node may come before the best one so far, or be the first. The placement preferences, by which it
// compares so, may rule it out, and the tasks of all services where the best one has none of the service's own.
fn is_rival<R: Rows>(
    known: &mut KnownTotals,
    rows: &R,
    service: Id,
    spread: Ordering,
    best: Option<&Node>,
    held: NodeLoad,
    node: Id,
) -> bool
    requires usable { IsUsable (R.tables rows.now) }
    requires knows { Knows (R.tables rows.now) known.old }
    requires held { IfSome best (λ b. IsNodeLoad (R.tables rows.now) b.now.id service held) }
    ensures ruled_out { result ≡ false →
        comes_first (R.tables rows.now) service spread node (option_copied best.entry) ≡ false }
    ensures knows { Knows (R.tables rows.now) known.new }
{
    let Some(best) = best else {
        return true;
    };
    match spread {
        Ordering::Less => true,
        Ordering::Greater => false,
        Ordering::Equal => {
            held.here > 0 || may_come_first(known.load(rows, node, service), node, best.id, held)
        }
    }
}

// How the node compares with the best one so far by the placement preferences: as less where there is none.
fn spread_order<'a, R: Rows>(
    branches: &mut Branches<'a, R>,
    best: Option<&'a Node>,
    node: &'a Node,
) -> Ordering
    ensures order { IsOrder branches.old result node.now (option_copied best.entry) }
    ensures same { branches.new ≡ branches.old }
{
    match best {
        Some(best) => branches.spread_cmp(node, best),
        None => Ordering::Less,
    }
}

// So the node with this id compares. Where there is no best one, its row isn't looked at.
fn order_of<'a, R: Rows>(
    branches: &mut Branches<'a, R>,
    rows: &'a R,
    best: Option<&'a Node>,
    node: Id,
) -> Ordering
    ensures order { IfSome (row_at node_id node (R.tables rows.now).nodes)
        (λ n. IsOrder branches.old result n (option_copied best.entry)) }
    ensures same { branches.new ≡ branches.old }
{
    let Some(best) = best else {
        return Ordering::Less;
    };
    match rows.node(node) {
        Some(node) => branches.spread_cmp(node, best),
        None => Ordering::Less,
    }
}

// The same, remembered for the node's class.
fn class_order<'a, R: Rows>(
    branches: &mut Branches<'a, R>,
    orders: &mut Orders,
    rows: &'a R,
    best: Option<&'a Node>,
    entry: ClassedNode,
) -> Ordering
    requires { entry.class < CLASSES }
    ensures order { (get_or orders.old entry.class None ≡ Some result)
        ⊎ IfSome (row_at node_id entry.id (R.tables rows.now).nodes)
        (λ n. IsOrder branches.old result n (option_copied best.entry)) }
    ensures orders { orders.new ≡ set orders.old entry.class (Some result) }
    ensures same { branches.new ≡ branches.old }
{
    if let Some(order) = orders.order(entry.class) {
        return order;
    }
    let order = order_of(branches, rows, best, entry.id);
    orders.set(entry.class, order);
    order
}

/// What a node's class tells of it.
#[derive(Clone, Copy)]
pub struct Standing {
    /// How it compares with the best one so far by the placement preferences.
    pub spread: Ordering,
    /// It is known that none of the service's live tasks is there.
    pub has_none: bool,
}

/// The node's live tasks, where it admits the task, and comes before the best one so far or is the first. The service's
/// own are asked for last: they alone are counted for each service anew, and not where its class has none.
pub fn if_better<R: Rows>(
    known: &mut KnownTotals,
    group: &mut Option<Group>,
    rows: &R,
    task: &Task,
    standing: Standing,
    best: Option<&Node>,
    held: NodeLoad,
    node: &Node,
) -> Option<NodeLoad>
    requires usable { IsUsable (R.tables rows.now) }
    requires knows { Knows (R.tables rows.now) known.old }
    requires row { IfSome group.old (λ g. Has (R.tables rows.now).nodes node.now) }
    requires own { KnowsOwn (R.tables rows.now) task.now group.old }
    requires none { IsTrue standing.has_none → here (R.tables rows.now) node.now.id task.now.service ≡ 0 }
    requires held { IfSome best (λ b. IsNodeLoad (R.tables rows.now) b.now.id task.now.service held) }
    ensures load { IfSome result (IsNodeLoad (R.tables rows.now) node.now.id task.now.service) }
    ensures better { is_some result ≡ (is_open (R.tables rows.now) task.now node.now
        && comes_first (R.tables rows.now) task.now.service standing.spread node.now.id (option_copied best.entry)) }
    ensures knows { Knows (R.tables rows.now) known.new }
    ensures own { KnowsOwn (R.tables rows.now) task.now group.new }
{
    let totals = known.totals(rows, node.id, task.service);
    if !is_open_in(rows, group, task, node, totals) {
        return None;
    }
    let own = NodeLoad {
        load: totals.load,
        here: if standing.has_none {
            0
        } else {
            known.here(rows, node.id, task.service)
        },
    };
    let Some(best) = best else {
        return Some(own);
    };
    if node_cmp(standing.spread, node.id, best.id, own, held) == Ordering::Less {
        return Some(own);
    }
    None
}

// The best of all nodes, one by one.
fn best_of_all<'a, R: Rows>(rows: &'a R, known: &mut KnownTotals, task: &Task) -> Option<&'a Node>
    requires usable { IsUsable (R.tables rows.now) }
    requires knows { Knows (R.tables rows.now) known.old }
    ensures best { option_copied result ≡ best_node (R.tables rows.now) task.now }
    ensures knows { Knows (R.tables rows.now) known.new }
{
    let mut branches = Branches::new(rows, task.service, task.template.spread.as_slice());
    let mut best = None;
    let mut held = NodeLoad::NONE;
    for node in nodes(rows) {
        let spread = spread_order(&mut branches, best, node);
        if !is_rival(known, rows, task.service, spread, best, held, node.id) {
            continue;
        }
        let standing = Standing {
            spread,
            has_none: false,
        };
        if let Some(own) = if_better(known, &mut None, rows, task, standing, best, held, node) {
            best = Some(node);
            held = own;
        }
    }
    best
}

// The class whose turn it is: one that is thought to lead, and then the others.
fn class_in_turn(turn: usize, lead: usize) -> usize
    ensures { result ≡ class_in_turn lead turn }
{
    if turn == 0 {
        lead
    } else if turn <= lead {
        turn - 1
    } else {
        turn
    }
}

/// The same, where the nodes are sorted into classes, and those of each are kept by rising live tasks: class by class.
/// How the classes compare stays so with a new best node that is the former one's equal by the preferences; with
/// another one it is told by the classes, unless there are more preferences than one.
pub fn best_of_classes<'a, R: Rows>(
    rows: &'a R,
    known: &mut KnownTotals,
    group: &mut Option<Group>,
    nodes: &[ClassedNode],
    ranks: &Ranks,
    table: &ClassTable,
    task: &Task,
) -> Option<&'a Node>
    requires usable { IsUsable (R.tables rows.now) }
    requires knows { Knows (R.tables rows.now) known.old }
    requires own { KnowsOwn (R.tables rows.now) task.now group.old }
    requires sorted { AreSorted (R.tables rows.now).nodes task.now.template.spread nodes.now }
    requires ranked { AreRanked nodes.now ranks.now }
    requires current { (class : ℕ) → AreCurrent (R.tables rows.now) (of_class ranks.now class) }
    requires classes { HaveClasses table.now.count nodes.now }
    requires values { AreValues (R.tables rows.now).nodes task.now.template.spread nodes.now table.now.values }
    ensures best { option_copied result ≡ best_node (R.tables rows.now) task.now }
    ensures knows { Knows (R.tables rows.now) known.new }
    ensures own { KnowsOwn (R.tables rows.now) task.now group.new }
{
    let keys = task.template.spread.as_slice();
    let (mut branches, most) = branches_of(rows, task, nodes, table.count);
    let mut orders = Orders::new();
    let (mut best, mut held) = (None, NodeLoad::NONE);
    let lead = table.leading(keys, &most);
    for turn in 0..table.count {
        let class = class_in_turn(turn, lead);
        if orders.is_behind(class) {
            continue;
        }
        let Some(ranked) = ranks.of(class) else {
            continue;
        };
        let Some(id) = any_of(ranked) else {
            continue;
        };
        let spread = class_order(
            &mut branches,
            &mut orders,
            rows,
            best,
            ClassedNode { id, class },
        );
        let standing = Standing {
            spread,
            has_none: most[class] == 0,
        };
        let Some((node, load)) = best_of_class(
            rows, known, group, task, standing, best, held, ranked,
        ) else {
            continue;
        };
        best = Some(node);
        held = load;
        if spread != Ordering::Equal {
            orders = table.orders(keys, &most, class);
        }
    }
    best
}

/// The best of the nodes that admit the task; None exactly where none does. What is known of the nodes' tasks isn't
/// counted again.
pub fn best_node<'a, R: Rows>(rows: &'a R, known: &mut KnownNodes, task: &Task) -> Option<&'a Node>
    requires usable { IsUsable (R.tables rows.now) }
    requires knows { KnowsNodes (R.tables rows.now) known.old }
    ensures best { option_copied result ≡ best_node (R.tables rows.now) task.now }
    ensures knows { KnowsNodes (R.tables rows.now) known.new }
{
    let keys = &task.template.spread;
    known.classes.ask(rows, keys);
    let mut group = known.placed.take(known.classes.count(), task);
    let best = known
        .classes
        .best(rows, &mut known.totals, &mut group, task);
    known.placed.put(group);
    match best {
        Some(best) => best,
        None => best_of_all(rows, &mut known.totals, task),
    }
}

/// Its id, by a tree that counts for the task, and where it is known what the tasks on each node come to.
pub fn best_node_by<R: Rows, L: Loads>(
    rows: &R,
    loads: &L,
    tree: &SpreadTree,
    task: &Task,
) -> Option<Id>
    requires usable { IsUsable (R.tables rows.now) }
    requires same { L.tables loads.now ≡ R.tables rows.now }
    requires own { IsFor task.now tree.now }
    requires stands { Stands (R.tables rows.now) tree.now }
    ensures { result ≡ option_map node_id (best_node (R.tables rows.now) task.now) }
{
    tree.best_by(rows, loads, task, &Filters::new(rows, loads))
}
