// What the control loops have to do, by whole scans over the plain world, and the doing of it.
#![tactic(auto)]

mod effects;
mod idle;
mod replay;
mod settling;
mod steps;
mod update_waits;
mod waits;

pub use effects::do_duty;
pub use replay::Replay;
pub use settling::{duties, settle, settle_call};
pub use steps::{StepFault, answer, step};
