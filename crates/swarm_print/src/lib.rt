// What replies look like.
#![tactic(auto)]

mod details;
mod lists;
mod notes;
mod objects;
mod refusals;
mod replies;
pub mod words;

pub use details::{id_value, note_value, place_value};
pub use objects::put_service_place;
pub use replies::reply_text;
