// Sessions of nodes with the dispatcher: leases of three heartbeats, what a node may report under one, and the
// dispatcher's duties over any rows.
#![tactic(auto)]

mod changing;
mod dispatching;
mod reporting;
mod searching;
mod sessions;

pub use changing::changes;
pub use dispatching::{is_expired, is_long_down, is_orphaned, least_dispatcher};
pub use reporting::{is_no_report, status_check};
pub use sessions::Sessions;
