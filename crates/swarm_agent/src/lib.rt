//! The agents of nodes: each its inbox, and its executors by task.
#![tactic(auto)]

mod agent;
mod agents;
mod executors;
mod looks;
mod messages;
mod saying;
mod searching;
mod steps;
pub mod theorems;

pub use agent::{Agent, ApplyFault};
pub use agents::Agents;
pub use saying::{is_forgotten, is_news};
pub use steps::{has_passed, has_step, is_late, make_step, phase_time};
