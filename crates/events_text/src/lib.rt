// The line of an entry, as JSON: what it was, what it was answered, and what it made of each row.
#![tactic(auto)]

mod changed;
mod lines;
mod rows;

pub use lines::entry_line;
