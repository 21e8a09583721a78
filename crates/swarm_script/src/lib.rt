//! The script language: the one name under which users of its parts find it.
#![tactic(auto)]

pub use script_grammar::{Line, LineFault};
pub use script_reader::{read_entry, read_line};
pub use script_writer::{fits, write_entry};
