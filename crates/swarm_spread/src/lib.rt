// The counts of a service's tasks, on each node and in each branch of its placement preferences.
#![tactic(auto)]

mod admits;
mod key_values;
mod levels;
mod tree;
mod values;

pub use admits::Admits;
pub use key_values::{key_value, label_value};
pub use tree::SpreadTree;
