// What a node is to have, and what it is sent: a whole message first in each session, and exact differences after it.
#![tactic(auto)]

mod differences;
mod due_sets;
mod merging;
mod sent;
mod sents;

pub use due_sets::due_set;
pub use sent::Sent;
pub use sents::Sents;
