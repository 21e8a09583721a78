// Which of two nodes comes first by the placement preferences.
ghost use Rattle.std.specs.Prelude.{◌≡◌, ◌≤◌, IfSome, IsTrue, [], length, true};
ghost use Rattle.std.specs.Ordering.{nat_cmp};
ghost use Rattle.swarm_objects.specs.Nodes.BestNode.{agrees, branch_load, spread_cmp};
ghost use Rattle.swarm_objects.specs.Usable.{IsUsable};
ghost use Rattle.swarm_sched.specs.Inside.Branches.{HasText, IsToldByText, is_of_branch, load_at};

use crate::keys::{agrees, text_of, value_cmp};
use std::cmp::Ordering;
use std::marker::Model;
use swarm_objects::walks::tasks_of;
use swarm_objects::{Id, Key, Node, Rows, Task};

// How many branches are remembered.
const WIDTH: usize = 16;

// How many of the service's tasks are in the branch of the node by so many preferences.
#[derive(Clone, Copy)]
struct Known<'a> {
    depth: usize,
    node: &'a Node,
    // its text for the last of them
    text: &'a str,
    load: u64,
}

/// A service's tasks in the branches of its placement preferences. They are counted where they are asked for, by a walk
/// over the service's tasks, and remembered for the branches that were asked for last. Contracts see the tables that
/// are read, the service, and its preferences.
#[derive(Drop)]
pub struct Branches<'a, R: Rows> {
    rows: &'a R,
    service: Id,
    keys: &'a [Key],
    known: [Option<Known<'a>>; WIDTH],
    // the place of the one that was remembered longest ago
    next: usize,
}

impl<'a, R: Rows> Model for Branches<'a, R> {
    ghost use Rattle.std.specs.Prelude.{◌≡◌, ◌<◌, length};
    ghost use Rattle.swarm_objects.specs.Usable.{IsUsable};
    ghost use Rattle.swarm_sched.specs.Inside.Branches.{AreKnown, Preferences};
    ghost use Rattle.swarm_sched.specs.declared.branches.TheConstants.{WIDTH};

    ghost Value = { Preferences };

    ghost view = { λ b. record { tables = R.tables b.rows.now; service = b.service; keys = b.keys.now } };

    ghost invariant = { λ b. IsUsable (R.tables b.rows.now)
        × AreKnown (record { tables = R.tables b.rows.now; service = b.service; keys = b.keys.now }) b.known
        × (length b.known ≡ WIDTH) × (b.next < WIDTH) };
}

// The task counts on a node that agrees with this one on the keys.
fn is_of_branch<R: Rows>(rows: &R, keys: &[Key], node: &Node, task: &Task) -> bool
    ensures { result ≡ is_of_branch (R.tables rows.now) keys.now node.now task.now }
{
    if !task.is_live() || !task.is_placed() {
        return false;
    }
    match task.node {
        Some(id) => match rows.node(id) {
            Some(other) => agrees(keys, node, other),
            None => false,
        },
        None => false,
    }
}

// The service's tasks on all nodes, admitting or not, that agree with this one on the keys.
#[tactic(auto, using(crate::proofs::Branching::count_steps))]
fn branch_load<R: Rows>(rows: &R, service: Id, keys: &[Key], node: &Node) -> u64
    requires { IsUsable (R.tables rows.now) }
    ensures { result ≡ branch_load (R.tables rows.now) service keys.now node.now }
{
    let mut count = 0;
    for task in tasks_of(rows, service) {
        if is_of_branch(rows, keys, node, task) {
            count += 1;
        }
    }
    count
}

// The node's text for the last of the keys.
fn last_text<'a>(keys: &[Key], node: &'a Node) -> &'a str
    ensures { HasText keys.now node.now result.now }
{
    match keys.last() {
        Some(key) => text_of(node, key),
        None => "",
    }
}

// The text tells the branch: there is no other key, and this one isn't the node's id.
fn is_told_by_text(keys: &[Key]) -> bool
    ensures { IsTrue result → IsToldByText keys.now }
{
    match keys.first() {
        Some(Key::NodeId) | None => false,
        Some(_) => keys.len() == 1,
    }
}

// The nodes, which have these texts for the last of the keys, are of one branch. Most that aren't are told by their
// texts.
fn is_one(keys: &[Key], node: &Node, text: &str, other: &Node, other_text: &str) -> bool
    requires own { HasText keys.now node.now text.now }
    requires other { HasText keys.now other.now other_text.now }
    ensures { IsTrue result → agrees keys.now node.now other.now ≡ true }
{
    text == other_text && (is_told_by_text(keys) || agrees(keys, node, other))
}

impl<'a, R: Rows> Branches<'a, R> {
    /// Those of the service by these preferences.
    pub fn new(rows: &'a R, service: Id, keys: &'a [Key]) -> Branches<'a, R>
        requires { IsUsable (R.tables rows.now) }
        ensures { result ≡ record { tables = R.tables rows.now; service = service; keys = keys.now } }
    {
        Branches {
            rows,
            service,
            keys,
            known: [None; WIDTH],
            next: 0,
        }
    }

    // What is remembered of the node's branch.
    fn remembered(&self, depth: usize, node: &Node) -> Option<u64>
        requires { depth ≤ length self.now.keys }
        ensures { IfSome result (λ load. load ≡ load_at self.now depth node.now) }
    {
        let keys = &self.keys[..depth];
        let text = last_text(keys, node);
        for known in &self.known[..] {
            if let Some(known) = known {
                if known.depth == depth && is_one(keys, known.node, known.text, node, text) {
                    return Some(known.load);
                }
            }
        }
        None
    }

    // Remembers so many tasks in the node's branch.
    fn remember(&mut self, depth: usize, node: &'a Node, load: u64)
        requires deep { depth ≤ length self.old.keys }
        requires load { load ≡ load_at self.old depth node.now }
        ensures { self.new ≡ self.old }
    {
        let text = last_text(&self.keys[..depth], node);
        let next = self.next;
        let all = &mut self.known[..];
        all[next] = Some(Known {
            depth,
            node,
            text,
            load,
        });
        self.next = (next + 1) % WIDTH;
    }

    /// Remembers so many tasks in the node's branch by all preferences.
    #[tactic(auto, using(crate::proofs::Branching::all_keys))]
    pub fn tell(&mut self, node: &'a Node, load: u64)
        requires { let p = self.old in load ≡ branch_load p.tables p.service p.keys node.now }
        ensures { self.new ≡ self.old }
    {
        let depth = self.keys.len();
        self.remember(depth, node, load);
    }

    // Counts the tasks in the node's branch, and remembers them.
    fn counted(&mut self, depth: usize, node: &'a Node) -> u64
        requires { depth ≤ length self.old.keys }
        ensures load { result ≡ load_at self.old depth node.now }
        ensures same { self.new ≡ self.old }
    {
        let load = branch_load(self.rows, self.service, &self.keys[..depth], node);
        self.remember(depth, node, load);
        load
    }

    // The tasks in the node's branch by so many preferences.
    fn load(&mut self, depth: usize, node: &'a Node) -> u64
        requires { depth ≤ length self.old.keys }
        ensures load { result ≡ load_at self.old depth node.now }
        ensures same { self.new ≡ self.old }
    {
        match self.remembered(depth, node) {
            Some(load) => load,
            None => self.counted(depth, node),
        }
    }

    // Which of two nodes' branches by so many preferences has fewer tasks.
    fn branch_cmp(&mut self, depth: usize, a: &'a Node, b: &'a Node) -> Ordering
        requires { depth ≤ length self.old.keys }
        ensures order { let load = load_at self.old depth in result ≡ nat_cmp (load a.now) (load b.now) }
        ensures same { self.new ≡ self.old }
    {
        let one = self.load(depth, a);
        let other = self.load(depth, b);
        one.cmp(&other)
    }

    /// Which of two nodes comes first by each preference in turn: the first for which they have different values
    /// decides it, by the tasks in their branches and then by the values.
    #[tactic(auto, using(crate::proofs::Preferring::order_steps))]
    pub fn spread_cmp(&mut self, a: &'a Node, b: &'a Node) -> Ordering
        ensures order { let p = self.old in
            result ≡ spread_cmp p.tables p.service [] p.keys a.now b.now }
        ensures same { self.new ≡ self.old }
    {
        let keys = self.keys;
        for place in 0..keys.len() {
            let value = value_cmp(&keys[place], a, b);
            if value != Ordering::Equal {
                return self.branch_cmp(place + 1, a, b).then(value);
            }
        }
        Ordering::Equal
    }
}
