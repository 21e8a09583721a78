// The store: the rows of a cluster with their keys, and transactions of which all is done or nothing.
#![tactic(auto)]

mod attempts;
mod changes;
mod details;
mod held;
mod names;
mod networks;
mod nodes;
mod service_rows;
mod services;
mod state;
mod store;
mod theorems;
mod tracked;
mod transactions;
mod views;
mod walks;

pub use store::Store;
pub use theorems::followed_stores_are_usable;
