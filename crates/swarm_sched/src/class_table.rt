// What is known of classes of nodes, beside which node is of which.
ghost use Rattle.std.specs.Prelude.{◌≡◌, ◌<◌, ◌≤◌, ◌∷◌, IfSome, None, [], get_or, length, ℕ};
ghost use Rattle.swarm_objects.specs.declared.templates.Key.{Key as AnyKey};
ghost use Rattle.swarm_sched.specs.Inside.ClassTable.{AreRows, IsRow, IsTold};
ghost use Rattle.swarm_sched.specs.declared.classes.TheConstants.{CLASSES};

use crate::classes::CLASSES;
use crate::keys::value_cmp;
use crate::orders::Orders;
use std::cmp::Ordering;
use swarm_objects::{Key, Node};

/// How many classes there are, and where there is one placement preference, how the values of their nodes compare:
/// those of all classes with those of each.
#[derive(Drop)]
pub struct ClassTable {
    pub count: usize,
    pub values: [[Ordering; CLASSES]; CLASSES],
}

// The only one of the keys, where there is no other.
fn only(keys: &[Key]) -> Option<&Key>
    ensures one { IfSome result (λ key. keys.now ≡ key.now ∷ []) }
    ensures other { result ≡ None → (k : AnyKey) → (keys.now ≡ k ∷ []) → ⊥ }
{
    match keys {
        [key] => Some(key),
        _ => None,
    }
}

// How the values of the heads compare with that of the node.
#[tactic(auto, using(crate::proofs::Comparing::row_steps))]
fn row_of(key: &Key, heads: &[&Node], node: &Node) -> [Ordering; CLASSES]
    requires { length heads.now ≤ CLASSES }
    ensures { IsRow key.now heads.now node.now (length heads.now) result }
{
    let mut row = [Ordering::Equal; CLASSES];
    for class in 0..heads.len() {
        row[class] = value_cmp(key, heads[class], node);
    }
    row
}

// How the values of the heads compare with those of each, where there is one key.
#[tactic(auto, using(crate::proofs::Comparing::row_steps))]
fn values_of(keys: &[Key], heads: &[&Node]) -> [[Ordering; CLASSES]; CLASSES]
    requires { length heads.now ≤ CLASSES }
    ensures { (k : AnyKey) → keys.now ≡ k ∷ [] → AreRows k heads.now (length heads.now) result }
{
    let mut rows = [[Ordering::Equal; CLASSES]; CLASSES];
    let Some(key) = only(keys) else {
        return rows;
    };
    for class in 0..heads.len() {
        rows[class] = row_of(key, heads, heads[class]);
    }
    rows
}

impl ClassTable {
    /// So many classes, which have these heads for the keys.
    pub fn new(count: usize, keys: &[Key], heads: &[&Node]) -> ClassTable
        requires { length heads.now ≤ CLASSES }
        ensures count { result.count ≡ count }
        ensures values { (k : AnyKey) → keys.now ≡ k ∷ [] → AreRows k heads.now (length heads.now) result.values }
    {
        let values = values_of(keys, heads);
        ClassTable { count, values }
    }

    /// A class that is thought to have the best node, where there is any: by one placement preference it is told
    /// without a look at nodes which one comes first.
    pub fn leading(&self, keys: &[Key], loads: &[u64; CLASSES]) -> usize
        requires { self.now.count ≤ CLASSES }
        ensures { 0 < self.now.count → result < self.now.count }
    {
        let mut lead = 0;
        if keys.len() != 1 {
            return lead;
        }
        for class in 1..self.count {
            let order = loads[class]
                .cmp(&loads[lead])
                .then(self.values[lead][class]);
            if order == Ordering::Less {
                lead = class;
            }
        }
        lead
    }

    /// How the classes compare with a best node of this class, as far as it is told without a look at nodes: by one
    /// placement preference it is. By none they are all alike.
    pub fn orders(&self, keys: &[Key], loads: &[u64; CLASSES], class: usize) -> Orders
        requires few { self.now.count ≤ CLASSES }
        requires class { class < CLASSES }
        ensures told { (k : ℕ) → k < self.now.count → IfSome (get_or result k None)
            (IsTold keys.now loads.now (get_or self.now.values class []) class k) }
        ensures all { length result ≡ CLASSES }
    {
        match keys {
            [] => Orders::alike(),
            [_] => Orders::told(self.count, loads, loads[class], &self.values[class]),
            _ => Orders::new(),
        }
    }
}
