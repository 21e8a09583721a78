// Rows by rising id, found by id and by keys.
#![tactic(auto)]

mod boxes;
mod ids;
mod indexed;
pub mod keys;
mod marks;
mod pages;
mod rows;
mod spare;
mod table;

pub use indexed::Indexed;
pub use keys::{IndexKey, Row};
