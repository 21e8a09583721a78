// The journal's lines: what an entry's one text is.
#![tactic(auto)]

mod calls;
mod drafts;
mod duties;
mod entries;
mod operations;
mod rows;
mod words;

pub use duties::fits;
pub use entries::write_entry;
