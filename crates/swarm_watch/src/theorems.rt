// That watches stand for a world: each law is the contract of a function that does nothing.
ghost use Rattle.swarm_watch.specs.Worlds.{BeginLaw, FinishLaw, FreeLaw, NotesLaw, PollsLaw};

/// A world's next id is no watcher's, and one that begins with it, among watches that stand for the world, is the one
/// that the world then has.
pub fn new_watches_are_the_worlds()
    ensures free { FreeLaw }
    ensures begun { BeginLaw }
{}

/// They stand for the world after any entry that leaves the watchers as they are, once its events are noted.
pub fn entries_are_noted()
    ensures { NotesLaw }
{}

/// A poll of them is answered as in the world, and they stand for the world after it.
pub fn polls_are_the_worlds()
    ensures { PollsLaw }
{}

/// A watcher that ends among them ends as in the world.
pub fn ended_watches_are_the_worlds()
    ensures { FinishLaw }
{}
