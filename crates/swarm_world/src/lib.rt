//! The world with its history, as callers share it.
#![tactic(auto)]

mod agent_duties;
mod agent_spans;
mod arrivals;
mod at_hand;
mod beginnings;
mod changes;
mod commits;
mod faults;
mod firsts;
mod known;
mod known_lines;
mod lines;
mod looks;
mod marks;
mod parts;
mod records;
mod remote;
mod removals;
mod scheduling;
mod settling;
mod touched;
mod turns;
mod world;

pub use turns::Turn;
pub use world::World;
