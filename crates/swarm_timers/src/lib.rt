// Times of owners, of which the first is known without a look at the others.
#![tactic(auto)]

mod laws;
mod timers;
mod times;

pub use laws::answers_are_least;
pub use timers::Timers;
