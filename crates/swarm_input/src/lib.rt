// The lines of a source, and the faults of what is read and put.
#![tactic(auto)]

mod faults;
mod held;
mod input;

pub use faults::{Fault, FaultText, WriteFault, bad_line, put_line_fault};
pub use held::{CHUNK, Held, TakeFault, newline_in};
pub use input::{Input, ReadFault, ScriptLine};
