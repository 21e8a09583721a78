// What the words of the contracts say: each law is the contract of a function that does nothing.
ghost use Rattle.swarm_timers.specs.Laws.{DueLaw, NextLaw};

/// What is due is no later than any other timer, and nothing is due exactly where all times are still to come; the next
/// time is the least.
pub fn answers_are_least()
    ensures due { DueLaw }
    ensures next { NextLaw }
{}
