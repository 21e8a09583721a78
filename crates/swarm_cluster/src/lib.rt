//! The world behind a turn, for callers in several threads.
#![tactic(auto)]

mod cluster;
mod pauses;
mod works;

pub use cluster::{Cluster, Pass};
pub use pauses::Pause;
pub use works::{Advance, Answer, Look};
