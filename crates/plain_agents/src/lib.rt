// The agents' duties over the plain world, and the steps of their executors.
#![tactic(auto)]

pub mod agents;
pub mod executors;
pub mod news;
