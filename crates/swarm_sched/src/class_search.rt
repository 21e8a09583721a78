// The best node of one class, whose nodes are gone through by rising live tasks.
ghost use Rattle.std.specs.Option.{option_copied};
ghost use Rattle.std.specs.Prelude.{◌≡◌, IfSome, IsTrue, None, [], true};
ghost use Rattle.swarm_objects.specs.Nodes.Filters.{here};
ghost use Rattle.swarm_objects.specs.Rows.{Has, has_row};
ghost use Rattle.swarm_objects.specs.Usable.{IsUsable};
ghost use Rattle.swarm_objects.specs.declared.nodes.Node.{Node as NodeRow};
ghost use Rattle.swarm_sched.specs.Inside.ClassSearch.{IsBehind, IsBetter, IsLed, IsPassed, found_node};
ghost use Rattle.swarm_sched.specs.Inside.Known.{Knows};
ghost use Rattle.swarm_sched.specs.Inside.KnownRefusals.{KnowsOwn};
ghost use Rattle.swarm_sched.specs.Inside.Placing.{IsNodeLoad};
ghost use Rattle.swarm_sched.specs.Inside.Ranks.{AreCurrent, IsFound};
ghost use Rattle.swarm_timers.specs.Timers.{timer_owner};

use crate::known::KnownTotals;
use crate::known_refusals::Group;
use crate::last_group::is_refused;
use crate::placing::{NodeLoad, Standing, if_better, may_come_first};
use std::cmp::Ordering;
use swarm_objects::{Id, Node, Rows, Task};
use swarm_timers::Timers;

// The node that those of a class have to come before, with its tasks, and what the class tells of them.
#[derive(Clone, Copy)]
struct Leader<'a> {
    node: Option<&'a Node>,
    held: NodeLoad,
    standing: Standing,
}

impl<'a> Leader<'a> {
    // What was found of the class, where anything was: the others are its equals by the placement preferences.
    fn after(self, found: Option<(&'a Node, NodeLoad)>) -> Leader<'a>
        ensures { IsLed self.entry found.entry result }
    {
        match found {
            Some((node, held)) => Leader {
                node: Some(node),
                held,
                standing: Standing {
                    spread: Ordering::Equal,
                    has_none: self.standing.has_none,
                },
            },
            None => self,
        }
    }

    // Neither this node of the class, which has so many live tasks, nor one that follows in their order comes before
    // it.
    fn is_ahead_of(self, load: u64, node: Id) -> bool
        ensures { IsTrue result →
            IsBehind (option_copied self.entry.node) self.entry.held self.entry.standing.spread load node }
    {
        let Some(leader) = self.node else {
            return false;
        };
        match self.standing.spread {
            Ordering::Less => false,
            Ordering::Greater => true,
            Ordering::Equal => {
                self.held.here == 0 && !may_come_first(load, node, leader.id, self.held)
            }
        }
    }
}

// The node with this id and its tasks, where it is open and comes before the leader. One that is remembered as refused
// isn't looked at.
fn better_node<'a, R: Rows>(
    rows: &'a R,
    known: &mut KnownTotals,
    group: &mut Option<Group>,
    task: &Task,
    leader: Leader<'a>,
    node: Id,
) -> Option<(&'a Node, NodeLoad)>
    requires usable { IsUsable (R.tables rows.now) }
    requires knows { Knows (R.tables rows.now) known.old }
    requires own { KnowsOwn (R.tables rows.now) task.now group.old }
    requires held { IfSome leader.node (λ b. IsNodeLoad (R.tables rows.now) b.now.id task.now.service leader.held) }
    requires none { IsTrue leader.standing.has_none → (n : NodeRow) → Has (R.tables rows.now).nodes n → n.id ≡ node →
        here (R.tables rows.now) n.id task.now.service ≡ 0 }
    ensures better { IfSome result (λ r. IsBetter (R.tables rows.now) task.now leader.entry.standing.spread
        (option_copied leader.entry.node) node r.0.now) }
    ensures none { result ≡ None → IsPassed (R.tables rows.now) task.now leader.entry.standing.spread
        (option_copied leader.entry.node) node }
    ensures load { IfSome result (λ r. IsNodeLoad (R.tables rows.now) r.0.now.id task.now.service r.1) }
    ensures knows { Knows (R.tables rows.now) known.new }
    ensures own { KnowsOwn (R.tables rows.now) task.now group.new }
{
    if is_refused(group, node) {
        return None;
    }
    let Some(node) = rows.node(node) else {
        return None;
    };
    let Leader {
        node: best,
        held,
        standing,
    } = leader;
    match if_better(known, group, rows, task, standing, best, held, node) {
        Some(load) => Some((node, load)),
        None => None,
    }
}

/// Any of the nodes.
pub fn any_of(ranked: &Timers) -> Option<Id>
    ensures there { IfSome result (λ node. has_row timer_owner node ranked.now ≡ true) }
    ensures none { result ≡ None → ranked.now ≡ [] }
{
    match ranked.iter().next() {
        Some(entry) => Some(entry.1),
        None => None,
    }
}

/// The best of the class's nodes that admit the task, with its tasks, where it comes before the best one so far. They
/// are gone through by rising live tasks, so the first of them that has none of the service's ends the search.
pub fn best_of_class<'a, R: Rows>(
    rows: &'a R,
    known: &mut KnownTotals,
    group: &mut Option<Group>,
    task: &Task,
    standing: Standing,
    best: Option<&'a Node>,
    held: NodeLoad,
    ranked: &Timers,
) -> Option<(&'a Node, NodeLoad)>
    requires usable { IsUsable (R.tables rows.now) }
    requires knows { Knows (R.tables rows.now) known.old }
    requires own { KnowsOwn (R.tables rows.now) task.now group.old }
    requires held { IfSome best (λ b. IsNodeLoad (R.tables rows.now) b.now.id task.now.service held) }
    requires current { AreCurrent (R.tables rows.now) ranked.now }
    requires none { IsTrue standing.has_none → (n : NodeRow) → Has (R.tables rows.now).nodes n →
        has_row timer_owner n.id ranked.now ≡ true → here (R.tables rows.now) n.id task.now.service ≡ 0 }
    ensures found { IsFound (R.tables rows.now) task.now ranked.now standing.spread (option_copied best.entry)
        (found_node result) }
    ensures load { IfSome result (λ r. IsNodeLoad (R.tables rows.now) r.0.now.id task.now.service r.1) }
    ensures knows { Knows (R.tables rows.now) known.new }
    ensures own { KnowsOwn (R.tables rows.now) task.now group.new }
{
    let first = Leader {
        node: best,
        held,
        standing,
    };
    let mut found = None;
    for entry in ranked.iter() {
        let (load, node) = *entry;
        let leader = first.after(found);
        if leader.is_ahead_of(load, node) {
            break;
        }
        if let Some(better) = better_node(rows, known, group, task, leader, node) {
            found = Some(better);
        }
    }
    found
}
