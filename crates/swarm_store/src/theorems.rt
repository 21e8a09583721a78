// What holds of stores: a law is the contract of a function that does nothing.
ghost use Rattle.swarm_store.specs.Followed.{UsableStoreLaw};

/// A store that stands for the world of a legal history has all that its calls ask of its tables.
pub fn followed_stores_are_usable()
    ensures { UsableStoreLaw }
{}
