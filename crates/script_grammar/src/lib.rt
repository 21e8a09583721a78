// How far a line of a script or of a journal has been read, and what it says. The grammar itself stands in specs/.
#![tactic(auto)]

mod duties;
mod fields;
mod lines;
mod states;

pub use duties::{DutyState, OneNumber, TwoNumbers};
pub use fields::{Field, Head, NumberField, Table};
pub use lines::{EntryState, Line, LineFault, LineState};
pub use states::{CallNoun, CallVerb, Form, Noun, NumberVerb, SessionVerb, State, Verb};
