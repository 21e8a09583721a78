// The duties of the reaper and of the enforcer over any rows: which is the first, and what each changes.
#![tactic(auto)]

mod changing;
mod enforcing;
mod reaping;

pub use changing::changes;
pub use enforcing::{breaks_constraints, is_misplaced, least_enforcer};
pub use reaping::{is_removable, is_trimmed_past, least_reaper};
