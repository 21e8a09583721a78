//! What an agent makes of a session, and which of its times matter: each law is the contract of a function that does
//! nothing.
ghost use Rattle.swarm_agent.specs.Agent.{DutiesLaw};
ghost use Rattle.swarm_agent.specs.Hearing.{HearingLaw};
ghost use Rattle.swarm_agent.specs.Times.{TimesLaw};

/// After a session's messages in order an agent has for each task of the last due set an executor with its desired
/// state, and every other executor is gone; no message is refused as stale. No task may come back after it left the
/// due set.
pub fn messages_bring_the_last_due_set()
    ensures { HearingLaw }
{}

/// The first executor with a step that is due, and the first that is forgotten, have the first duties of their kinds.
pub fn what_is_found_is_the_first_duty()
    ensures { DutiesLaw }
{}

/// The time of an executor that is ACCEPTED, READY or has ended is looked at by no step, and may be any.
pub fn times_that_no_step_looks_at()
    ensures { TimesLaw }
{}
