// The rules that specifications are held to, the rows that calls make, and who uses a network.
#![tactic(auto)]

mod network_use;
mod new_rows;
mod others;
mod refusals;
mod services;

pub use network_use::{service_uses, task_uses};
pub use new_rows::{first_service, new_node, respecified, respecified_node, same_mode};
pub use others::{check_network, check_node, check_resources, check_settings};
pub use refusals::not_found;
pub use services::check_service;
