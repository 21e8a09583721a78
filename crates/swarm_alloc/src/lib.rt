// The duties of the allocator over any rows: which is the first, and what each changes.
#![tactic(auto)]

mod changing;
mod finding;
mod free_numbers;
mod held;
mod held_ports;
mod pooling;
mod ports;
mod runs;

pub use changing::changes;
pub use finding::{gets_address, has_numbered_ports, least, port_of, same_note, wants_note};
pub use free_numbers::holds_address;
pub use ports::is_unnumbered;
