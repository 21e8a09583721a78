// Constraints on nodes: reading them and their keys, and which nodes they admit.
#![tactic(auto)]

mod constraint;
mod filters;
mod key;
mod machine;
mod matching;
mod refusals;
mod state;

pub use constraint::{ParseFault, parse_constraint, read_constraint};
pub use filters::{fits, has_host_clash, is_supported, takes_tasks};
pub use key::{parse_key, read_key};
pub use matching::{matches, meets_all};
pub use refusals::{
    counts, counts_by, first_refusal, first_refusal_by, is_open, is_open_by, is_tested_on,
};
pub use swarm_objects::names::read_name;
