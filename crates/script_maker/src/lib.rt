// The script that a number gives.
#![tactic(auto)]

mod draws;
mod lines;
pub mod theorems;

pub use lines::{MOST_NUMBER, script};
