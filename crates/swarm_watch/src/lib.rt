// Watchers, and the events that they wait for.
#![tactic(auto)]

mod cursors;
mod theorems;
mod watches;

pub use theorems::{
    ended_watches_are_the_worlds, entries_are_noted, new_watches_are_the_worlds,
    polls_are_the_worlds,
};
pub use watches::Watches;
