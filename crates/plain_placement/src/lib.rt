// The control loops over the plain world that give ports, addresses and nodes: allocator and scheduler.
#![tactic(auto)]

pub mod allocator;
pub mod best_node;
pub mod filters;
pub mod free_numbers;
pub mod loads;
pub mod scheduler;
