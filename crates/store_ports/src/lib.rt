// How often services name each port number: a table of counts, so that a number that no other service holds is known
// without a look at any.
#![tactic(auto)]

mod counts;

pub use counts::{PortCounts, times};
