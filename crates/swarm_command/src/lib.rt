// The words of the command line.
#![tactic(auto)]

mod commands;
mod finds;
mod forms;
mod spellings;

pub use forms::{Form, USAGE, WordFault, read_words};
