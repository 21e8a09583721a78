//! What the workers do: each makes turns of its share of the control loops.
#![tactic(auto)]

mod ends;
mod sharing;
mod working;

pub use ends::WorkEnd;
pub use sharing::{each_loop_is_shared, share};
pub use working::{work, work_on};
