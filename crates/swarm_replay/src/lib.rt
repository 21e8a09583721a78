// A journal read back: each entry is judged and done as the next one, and what was found is told.
#![tactic(auto)]

pub mod entry_lines;
mod replays;
mod verdicts;

pub use replays::{read_end, read_head, replay, stopped};
pub use verdicts::{EntryFault, Verdict};
