// The control loops over the plain world that make, mend and take away tasks: for each its list, the test of one duty
// and its effects. Dispatcher, enforcer and reaper stand with them.
#![tactic(auto)]

pub mod dispatcher;
pub mod enforcer;
pub mod global;
pub mod jobs;
pub mod reaper;
pub mod replicated;
pub mod restart;
