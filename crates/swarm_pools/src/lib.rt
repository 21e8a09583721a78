// Pools of numbers to give out: ingress ports of a protocol, and addresses of a network.
#![tactic(auto)]

mod places;
mod pool;
mod subnet;
mod words;

pub use pool::Pool;
pub use subnet::usable;
pub use words::{low_ones, with_bit};
