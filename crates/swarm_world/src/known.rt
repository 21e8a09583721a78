// What is remembered of the rows from one look to the next.
ghost use Rattle.swarm_objects.specs.ChangeLists.{apply_changes};
ghost use Rattle.swarm_objects.specs.Usable.{IsUsable};
ghost use Rattle.swarm_objects.specs.World.{Tables};
ghost use Rattle.swarm_world.specs.Inside.Known.{AreForeseen, ForgetsServices, KnowsAll, PassesTime};

use std::alloc::Global;
use swarm_objects::{Change, Rows};
use swarm_replicated::{KnownPlaces, PlacesAfter};
use swarm_sched::{KnownNodes, Moved};
use swarm_update::KnownSurvey;

/// What the tasks on nodes come to, how nodes are sorted and which filters refused them; how many places services hold;
/// what the tasks tell of the updates that were looked at last, and services without a dirty place.
#[derive(Drop)]
pub struct Known {
    pub nodes: KnownNodes,
    pub places: KnownPlaces,
    pub survey: KnownSurvey,
}

/// What will be known once changes are made.
#[derive(Drop)]
pub struct Foreseen {
    nodes: Moved,
    places: PlacesAfter,
}

impl Known {
    /// Nothing is remembered, and nothing will be that takes memory.
    pub fn none() -> Known
        ensures { (t : Tables) → KnowsAll t result }
    {
        Known {
            nodes: KnownNodes::none(),
            places: KnownPlaces::none(),
            survey: KnownSurvey::none(),
        }
    }

    /// Nothing is remembered so far. What there is no memory for never will be.
    pub fn new(alloc: Global) -> Known
        ensures { (t : Tables) → KnowsAll t result }
    {
        Known {
            nodes: KnownNodes::new(alloc),
            places: KnownPlaces::none(),
            survey: KnownSurvey::new(alloc),
        }
    }

    /// Forgets what these changes of the rows make untrue. It is asked before they are made, and gives what will be so
    /// of what is forgotten.
    pub fn forget_changed<R: Rows>(&mut self, rows: &R, changes: &[Change]) -> Foreseen
        requires usable { IsUsable (R.tables rows.now) }
        requires knows { KnowsAll (R.tables rows.now) self.old }
        ensures stays { KnowsAll (R.tables rows.now) self.new }
        ensures goes_on { KnowsAll (apply_changes (R.tables rows.now) changes.now) self.new }
        ensures foreseen { AreForeseen (apply_changes (R.tables rows.now) changes.now) result }
    {
        self.survey.forget_changed(rows, changes);
        Foreseen {
            nodes: self.nodes.forget_changed(rows, changes),
            places: self.places.forget_changed(rows, changes),
        }
    }

    /// Remembers what is so by now.
    pub fn remember(&mut self, foreseen: Foreseen)
        ensures { (t : Tables) → KnowsAll t self.old → AreForeseen t foreseen → KnowsAll t self.new }
    {
        self.nodes.remember(foreseen.nodes);
        self.places.remember(foreseen.places);
    }

    /// Goes on as time goes by.
    #[tactic(auto, using(crate::proofs::RowsKnown::known_later))]
    pub fn pass_time(&mut self)
        ensures { PassesTime self.old self.new }
    {
        self.survey.pass_time();
    }

    /// Forgets what hangs on the rows of services.
    pub fn forget_services(&mut self)
        ensures { ForgetsServices self.old self.new }
    {
        self.places.forget_all();
        self.survey.forget_all();
    }

    /// Forgets all.
    pub fn forget_all(&mut self)
        ensures { (t : Tables) → KnowsAll t self.new }
    {
        self.nodes.forget_all();
        self.places.forget_all();
        self.survey.forget_all();
    }
}
