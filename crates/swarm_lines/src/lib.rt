//! A script that caller 0 reads, its lines called and answered on a world that it shares with workers.
#![tactic(auto)]

mod caller;
mod endings;
mod lines;
mod scripts;
mod stretches;
mod unanswered;

pub use caller::halt;
pub use endings::Ending;
pub use scripts::{read_script, tell_ending};
