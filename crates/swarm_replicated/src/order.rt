// Which slot is given up first.
ghost use Rattle.std.specs.Prelude.{◌≡◌};
ghost use Rattle.swarm_objects.specs.Kinds.{bit};
ghost use Rattle.swarm_objects.specs.Loops.Replicated.{first_to_go};
ghost use Rattle.swarm_objects.specs.Rows.{keep_least};
ghost use Rattle.swarm_objects.specs.Usable.{IsUsable};
ghost use Rattle.swarm_replicated.specs.Inside.Candidates.{candidate_cmp};

use crate::crowds::Crowds;
use crate::weights::{Weight, Weights};
use role_words::held_places;
use std::cmp::Ordering;
use swarm_objects::{Rows, Service};

// A held place, with what decides when it goes.
#[derive(Clone, Copy)]
struct Candidate {
    number: u64,
    weight: Weight,
}

// Yes is 1, and no is 0.
fn bit(yes: bool) -> u8
    ensures { result ≡ bit yes }
{
    if yes { 1 } else { 0 }
}

// Which of two places is given up first: one without a running task, then one on a fuller node, then the greater slot.
fn compare(a: Candidate, b: Candidate) -> Ordering
    ensures { result ≡ candidate_cmp a b }
{
    bit(a.weight.is_up)
        .cmp(&bit(b.weight.is_up))
        .then(b.weight.crowd.cmp(&a.weight.crowd))
        .then(b.number.cmp(&a.number))
}

// The first to go so far, or this one where it goes before.
fn sooner(first: Option<Candidate>, place: Candidate) -> Option<Candidate>
    ensures { result ≡ keep_least candidate_cmp first place }
{
    match first {
        Some(held) if compare(place, held) != Ordering::Less => first,
        _ => Some(place),
    }
}

/// The first of the held places to go, by one walk over the service's tasks for each window of place numbers.
pub fn first_to_go<R: Rows>(rows: &R, service: &Service) -> Option<u64>
    requires { IsUsable (R.tables rows.now) }
    ensures { result ≡ first_to_go (R.tables rows.now) service.now }
{
    let mut crowds = Crowds::new(rows, service);
    let mut weights = Weights::from(&mut crowds, rows, service, 1);
    let mut first = None;
    for number in held_places(rows, service) {
        let weight = weights.weigh(&mut crowds, rows, service, number);
        first = sooner(first, Candidate { number, weight });
    }
    Some(first?.number)
}
