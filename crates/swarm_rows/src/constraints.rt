// Texts of constraints, alone: spaces may stand in one, and in no word of a line.
use crate::lines::push_number;
use script_fields::put_constraint;
use std::alloc::Global;
use swarm_filters::{ParseFault, parse_constraint};
use swarm_objects::{Constraint, NoMemory};

fn push_put(
    seen: &mut Vec<u8>,
    text: &mut String,
    constraint: &Constraint,
) -> Result<(), NoMemory> {
    put_constraint(text, "", constraint)?;
    seen.extend_from_slice(text.as_bytes())?;
    Ok(seen.extend_from_slice(b"\n")?)
}

// The constraint without spaces.
fn push_spelled(
    alloc: Global,
    seen: &mut Vec<u8>,
    constraint: &Constraint,
) -> Result<(), NoMemory> {
    let mut text = String::new(alloc);
    let pushed = push_put(seen, &mut text, constraint);
    drop(text);
    pushed
}

fn push_parsed(
    alloc: Global,
    seen: &mut Vec<u8>,
    parsed: &Result<Constraint, ParseFault>,
) -> Result<(), NoMemory> {
    match parsed {
        Ok(constraint) => push_spelled(alloc, seen, constraint),
        Err(ParseFault::BadConstraint(place)) => push_number(seen, b"BadConstraint ", *place),
        Err(ParseFault::NoMemory) => Err(NoMemory),
    }
}

fn push_read(alloc: Global, seen: &mut Vec<u8>, text: &str) -> Result<(), NoMemory> {
    let parsed = parse_constraint(alloc, text);
    let pushed = push_parsed(alloc, seen, &parsed);
    drop(parsed);
    pushed
}

// The one spelling of the constraint that the line is, or the place of its fault; one that isn't UTF-8 is told as such.
pub(crate) fn push_constraint(
    alloc: Global,
    seen: &mut Vec<u8>,
    line: &[u8],
) -> Result<(), NoMemory> {
    match str::from_utf8(line) {
        Ok(text) => push_read(alloc, seen, text),
        Err(_) => Ok(seen.extend_from_slice(b"no text\n")?),
    }
}
