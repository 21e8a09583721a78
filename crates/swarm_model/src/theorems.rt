//! What holds over every legal history, of each of its worlds and of each step: each law is the contract of a function
//! that does nothing.
ghost use Rattle.swarm_model.specs.Events.{ChangesLaw, EventOrderLaw, PollLaw, ToldOnceLaw, WaitingLaw};
ghost use Rattle.swarm_model.specs.Kept.{KeptAloneLaw, KeptLastLaw, KeptLaw, KeptStopLaw, KeptUndoneLaw};
ghost use Rattle.swarm_model.specs.Laws.Beside.{BesideLaw};
ghost use Rattle.swarm_model.specs.Laws.DeadSessions.{DeadSessionLaw};
ghost use Rattle.swarm_model.specs.Laws.Fits.{FittingLaw};
ghost use Rattle.swarm_model.specs.Laws.OfService.{OfServiceLaw};
ghost use Rattle.swarm_model.specs.Laws.OneTemplate.{OneTemplateLaw};
ghost use Rattle.swarm_model.specs.Laws.Rises.{RisingLaw};
ghost use Rattle.swarm_model.specs.OneCaller.{RepliesLaw, SerialLaw, SerialPartLaw, SerialUndoneLaw};
ghost use Rattle.swarm_model.specs.Laws.Worlds.{OrderLaw, SizeLaw, SoundLaw};

/// A task keeps what it was made with, and its node; its state and what is wanted of it only rise; no id comes back,
/// and no two things share one, of whatever kinds they are.
pub fn tasks_rise()
    ensures { RisingLaw }
{}

/// On each node tasks reserve at most what it has; no ingress number is held by two services, no address by two tasks,
/// and no host port twice on a node.
pub fn reservations_fit()
    ensures { FittingLaw }
{}

/// A call under a session that isn't live changes nothing, and no duty that needs a session is due without a live one.
pub fn dead_sessions_change_nothing()
    ensures { DeadSessionLaw }
{}

/// What an accepted transaction makes of sessions, of what was sent and of agents, its operations and the ids of its
/// reply tell; all else beside the tables stays.
pub fn transactions_tell_what_stands_beside()
    ensures { BesideLaw }
{}

/// No two live tasks of a place have one template.
pub fn places_have_one_task_a_template()
    ensures { OneTemplateLaw }
{}

/// A task of a service that is there has the goal of the service's mode, and a place of its kind.
pub fn tasks_are_of_services()
    ensures { OfServiceLaw }
{}

/// The events of an entry are exactly what happened to objects, each once, by kind and id; a poll tells all that its
/// filter admits, and once, or how many wait where these are more than 10,000.
pub fn polls_tell_every_change_once()
    ensures changes { ChangesLaw }
    ensures order { EventOrderLaw }
    ensures waiting { WaitingLaw }
    ensures told { PollLaw }
    ensures once { ToldOnceLaw }
{}

/// Rows stand in order with ids below the next one, and numbers are far from the ends of their types.
pub fn worlds_are_sound()
    ensures sound { SoundLaw }
    ensures order { OrderLaw }
    ensures size { SizeLaw }
{}

/// A single caller that goes by the settle test has one history for each list of lines, and all replies are its own.
pub fn single_callers_are_serial()
    ensures serial { SerialLaw }
    ensures part { SerialPartLaw }
    ensures undone { SerialUndoneLaw }
    ensures replies { RepliesLaw }
{}

/// What caller 0 knows of its entries as it reads lines makes the whole history follow them, whatever the workers did
/// meanwhile.
pub fn kept_entries_follow()
    ensures many { KeptLaw }
    ensures alone { KeptAloneLaw }
    ensures last { KeptLastLaw }
    ensures undone { KeptUndoneLaw }
    ensures stop { KeptStopLaw }
{}
