// The restart policy: whether an ended task is made anew.
#![tactic(auto)]

mod policy;

pub use policy::{may_restart, no_restart};
