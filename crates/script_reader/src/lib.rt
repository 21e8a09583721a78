// The lines of scripts and of journals, read word by word.
#![tactic(auto)]

mod calls;
mod duties;
mod entries;
mod lines;
mod openings;
mod operations;
mod values;

pub use entries::read_entry;
pub use lines::read_line;
