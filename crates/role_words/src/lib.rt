// What control loops over any rows share: places and which of them are held, words on services, changes of places.
#![tactic(auto)]

mod dirty_places;
mod place_effects;
mod places;
mod reading;
mod runs;
mod service_words;
mod suspects;
mod tallies;
mod update_window;
mod window;
mod windows;

pub use dirty_places::{
    dirty_count, first_to_replace, first_to_swap, has_dirty_place, has_dirty_place_in,
    has_waiting_place, is_running_clean,
};
pub use place_effects::{create_task, remove_place};
pub use places::{PlaceTasks, has_live, is_held_place, newest, place_tasks, tasks_of_place};
pub use reading::{ServiceSlots, slots_among};
pub use runs::{has_room, is_flying, is_in_flight, is_of_version, is_starting, is_watched};
pub use service_words::{has_open_run, is_under_way};
pub use suspects::{has_suspect, is_suspect};
pub use tallies::{Tally, tally_of};
pub use update_window::{UpdateWindow, update_places};
pub use window::{Slot, Window};
pub use windows::{
    HeldPlaces, PlaceNumbers, SlotRows, first_gap, held_count, held_places, live_count,
    place_numbers, slots, tally,
};
