// What decides when a place goes, for a window of place numbers: one walk over the service's tasks tells it of all.
ghost use Rattle.std.specs.Prelude.{IfSome, List, None, ◌&&◌, ◌<◌, ◌∷◌, ◌≡◌};
ghost use Rattle.role_words.specs.Marks.{stands};
ghost use Rattle.swarm_objects.specs.Tasks.Words.{is_live};
ghost use Rattle.swarm_objects.specs.Usable.{IsUsable};
ghost use Rattle.swarm_objects.specs.World.{Tables};
ghost use Rattle.swarm_objects.specs.declared.services.Service.{Service as ServiceRow};
ghost use Rattle.swarm_objects.specs.declared.tasks.Task.{Task as TaskRow};
ghost use Rattle.swarm_replicated.specs.Inside.Weights.{IsApart, IsAt, Remains, Weighs};
ghost use Rattle.swarm_replicated.specs.Inside.Weights.{blank, heavier, noted_at, weight_of};

use crate::crowds::Crowds;
use crate::place_changes::stands;
use swarm_objects::walks::tasks_of;
use swarm_objects::{Rows, Service, Task};

// How many numbers a window has.
const WIDTH: usize = 1024;

/// What the live tasks of a place say: one of them runs, and the most of the service's live tasks on a node of theirs.
#[derive(Clone, Copy, Drop)]
pub struct Weight {
    pub is_up: bool,
    pub crowd: u64,
}

const BLANK: Weight = Weight {
    is_up: false,
    crowd: 0,
};

/// The places from a first number on.
#[derive(Drop)]
pub struct Weights {
    first: u64,
    weights: [Weight; WIDTH],
}

// With a live task more, on a node with so many.
fn heavier(weight: Weight, is_running: bool, crowd: u64) -> Weight
    ensures { result ≡ heavier weight is_running crowd }
{
    Weight {
        is_up: weight.is_up || is_running,
        crowd: weight.crowd.max(crowd),
    }
}

// The task is live, and stands in the service's place with its number.
fn is_standing(service: &Service, task: &Task) -> bool
    ensures { result ≡ is_live task.now && stands service.now task.now }
{
    task.is_live() && stands(service, task)
}

impl Weights {
    // None of its places has a live task.
    fn blank(first: u64) -> Weights
        ensures { result ≡ blank first }
    {
        Weights {
            first,
            weights: [BLANK; WIDTH],
        }
    }

    // Notes a live task at this place.
    fn note_at(&mut self, index: usize, is_running: bool, crowd: u64)
        requires { index < WIDTH }
        ensures { self.new ≡ noted_at index is_running crowd self.old }
    {
        self.weights[index] = heavier(self.weights[index], is_running, crowd);
    }

    // The index of the place in which the task stands, where it is live.
    fn index_of(&self, service: &Service, task: &Task) -> Option<usize>
        ensures some { IfSome result (λ index. IsAt self.now service.now task.now index) }
        ensures none { result ≡ None → IsApart self.now service.now task.now }
    {
        let number = task.place.place_number();
        if number < self.first {
            return None;
        }
        let index = number - self.first;
        if index >= WIDTH as u64 {
            return None;
        }
        if !is_standing(service, task) {
            return None;
        }
        Some(index as usize)
    }

    // Notes the task, where it is live and stands in one of the places.
    fn note<R: Rows>(&mut self, crowds: &mut Crowds<R>, service: &Service, task: &Task)
        requires service { crowds.old.service ≡ service.now }
        ensures same { crowds.new ≡ crowds.old }
        ensures first { self.new.first ≡ self.old.first }
        ensures rest { let t = crowds.old.tables in (left : List TaskRow) →
            Remains t service.now self.old (task.now ∷ left) → Remains t service.now self.new left }
    {
        if let Some(index) = self.index_of(service, task) {
            let crowd = crowds.crowd(task.node);
            self.note_at(index, task.is_running(), crowd);
        }
    }

    /// The places of the service from this number on.
    pub fn from<R: Rows>(crowds: &mut Crowds<R>, rows: &R, service: &Service, first: u64) -> Weights
        requires usable { IsUsable (R.tables rows.now) }
        requires counts { crowds.old ≡ record { tables = R.tables rows.now; service = service.now } }
        ensures same { crowds.new ≡ crowds.old }
        ensures first { result.first ≡ first }
        ensures weighs { Weighs (R.tables rows.now) service.now result }
    {
        let mut weights = Weights::blank(first);
        for task in tasks_of(rows, service.id) {
            weights.note(crowds, service, task);
        }
        weights
    }

    // Goes on to the places from this number on.
    fn go_on<R: Rows>(&mut self, crowds: &mut Crowds<R>, rows: &R, service: &Service, first: u64)
        requires usable { IsUsable (R.tables rows.now) }
        requires counts { crowds.old ≡ record { tables = R.tables rows.now; service = service.now } }
        ensures same { crowds.new ≡ crowds.old }
        ensures first { self.new.first ≡ first }
        ensures weighs { Weighs (R.tables rows.now) service.now self.new }
    {
        *self = Weights::from(crowds, rows, service, first);
    }

    // The place with this number, where it is one of them.
    fn at(&self, number: u64) -> Option<Weight>
        ensures { (t : Tables) (s : ServiceRow) → Weighs t s self.now
            → IfSome result (λ weight. weight ≡ weight_of t s number) }
    {
        if number < self.first {
            return None;
        }
        let index = number - self.first;
        if index >= WIDTH as u64 {
            return None;
        }
        Some(self.weights[index as usize])
    }

    // The first of them.
    fn first_weight(&self) -> Weight
        ensures { (t : Tables) (s : ServiceRow) → Weighs t s self.now → result ≡ weight_of t s self.now.first }
    {
        self.weights[0]
    }

    /// The place with this number, in this window or in one that begins there.
    pub fn weigh<R: Rows>(
        &mut self,
        crowds: &mut Crowds<R>,
        rows: &R,
        service: &Service,
        number: u64,
    ) -> Weight
        requires usable { IsUsable (R.tables rows.now) }
        requires counts { crowds.old ≡ record { tables = R.tables rows.now; service = service.now } }
        requires weighs { Weighs (R.tables rows.now) service.now self.old }
        ensures weight { result ≡ weight_of (R.tables rows.now) service.now number }
        ensures same { crowds.new ≡ crowds.old }
        ensures weighs { Weighs (R.tables rows.now) service.now self.new }
    {
        match self.at(number) {
            Some(weight) => weight,
            None => {
                self.go_on(crowds, rows, service, number);
                self.first_weight()
            }
        }
    }
}
