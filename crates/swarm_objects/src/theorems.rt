// What holds of tables and of the effects of duties: a law is the contract of a function that does nothing.
ghost use Rattle.swarm_objects.specs.Effects.{TablesLaw};
ghost use Rattle.swarm_objects.specs.Usable.{UsableLaw};

/// A duty of any control loop but the agents' changes the tables alone, and alike in every world that has them.
pub fn duties_change_tables()
    ensures { TablesLaw }
{}

/// The loops can be run over every world that is sound and small, as all worlds of legal histories are.
pub fn small_worlds_are_usable()
    ensures { UsableLaw }
{}
