// How many of a service's live tasks are on a node.
ghost use Rattle.std.specs.Prelude.{◌≡◌, ◌<◌, IfSome, Some};
ghost use Rattle.swarm_objects.specs.Loops.Replicated.{crowd};
ghost use Rattle.swarm_objects.specs.Usable.{IsUsable};
ghost use Rattle.swarm_replicated.specs.Inside.Crowds.{crowd_in};

use std::marker::Model;
use swarm_objects::walks::tasks_on;
use swarm_objects::{Id, Rows, Service};

// How many nodes are remembered.
const SLOTS: usize = 256;

// How many of the service's live tasks are on the node.
#[derive(Clone, Copy)]
struct Known {
    node: Id,
    crowd: u64,
}

/// A service's live tasks on nodes. They are counted where they are asked for, by a walk over the node's tasks, and
/// remembered. Each node has one slot, by the rest of its id; of nodes with the same slot the last one is remembered.
/// Contracts see the tables that are read, and the service.
#[derive(Drop)]
pub struct Crowds<'a, R: Rows> {
    rows: &'a R,
    service: &'a Service,
    known: [Option<Known>; SLOTS],
}

impl<'a, R: Rows> Model for Crowds<'a, R> {
    ghost use Rattle.std.specs.Prelude.{◌≡◌, length};
    ghost use Rattle.swarm_objects.specs.Usable.{IsUsable};
    ghost use Rattle.swarm_replicated.specs.Inside.Crowds.{AreKnown, Counted};
    ghost use Rattle.swarm_replicated.specs.declared.crowds.TheConstants.{SLOTS};

    ghost Value = { Counted };

    ghost view = { λ c. record { tables = R.tables c.rows.now; service = c.service.now } };

    ghost invariant = { λ c. IsUsable (R.tables c.rows.now)
        × AreKnown (record { tables = R.tables c.rows.now; service = c.service.now }) c.known
        × (length c.known ≡ SLOTS) };
}

// The node's slot.
fn slot_of(node: Id) -> usize
    ensures { result < SLOTS }
{
    node as usize % SLOTS
}

// The service's live tasks on the node.
#[tactic(auto, using(crate::proofs::Counting::crowd_steps))]
fn count_on<R: Rows>(rows: &R, service: &Service, node: Id) -> u64
    requires { IsUsable (R.tables rows.now) }
    ensures { result ≡ crowd (R.tables rows.now) service.now (Some node) }
{
    let mut count = 0;
    for task in tasks_on(rows, node) {
        if task.is_of(service.id) && task.is_live() {
            count += 1;
        }
    }
    count
}

impl<'a, R: Rows> Crowds<'a, R> {
    /// Those of the service.
    pub fn new(rows: &'a R, service: &'a Service) -> Crowds<'a, R>
        requires { IsUsable (R.tables rows.now) }
        ensures { result ≡ record { tables = R.tables rows.now; service = service.now } }
    {
        Crowds {
            rows,
            service,
            known: [None; SLOTS],
        }
    }

    // What is remembered of the node.
    fn remembered(&self, node: Id) -> Option<u64>
        ensures { IfSome result (λ count. count ≡ crowd_in self.now (Some node)) }
    {
        let slot = self.known[slot_of(node)];
        match slot {
            Some(known) if known.node == node => Some(known.crowd),
            _ => None,
        }
    }

    // Counts those on the node, and remembers them.
    fn counted(&mut self, node: Id) -> u64
        ensures crowd { result ≡ crowd_in self.old (Some node) }
        ensures same { self.new ≡ self.old }
    {
        let crowd = count_on(self.rows, self.service, node);
        self.known[slot_of(node)] = Some(Known { node, crowd });
        crowd
    }

    /// Those on the node; none where there is no node.
    pub fn crowd(&mut self, node: Option<Id>) -> u64
        ensures crowd { result ≡ crowd_in self.old node }
        ensures same { self.new ≡ self.old }
    {
        let Some(node) = node else {
            return 0;
        };
        match self.remembered(node) {
            Some(crowd) => crowd,
            None => self.counted(node),
        }
    }
}
