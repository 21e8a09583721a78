// The update loop over the plain world, and its runs.
#![tactic(auto)]

pub mod runs;
pub mod update_effects;
pub mod updates;
