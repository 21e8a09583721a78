// Words of lines: names, numbers and fields, and what the fields of a line say together.
#![tactic(auto)]

mod drafts;
mod fields;
mod labels;
mod spelling;
mod tables;
mod values;
mod words;

pub use drafts::{
    availability_named, draft_of, node_draft_of, number_given, role_named, settings_of,
};
pub use fields::field_of;
pub use labels::labels_named;
pub use spelling::{put_constraint, put_field, put_key, put_port};
pub use tables::{may_stand, number_default};
pub use values::{byte_number, number_of, port_number, split_at};
pub use words::Words;
