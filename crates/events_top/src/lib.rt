// The events of a journal, entry by entry.
#![tactic(auto)]

mod endings;
mod events;

pub use endings::{Ending, why_not};
pub use events::tell_events;
