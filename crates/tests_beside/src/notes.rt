// What is noted of a difference.
use crate::faults::Fault;
use std::alloc::Global;
use swarm_objects::{Duty, NoMemory, put_duty};

// The first bytes of a text, and whether there are more.
fn push_short(note: &mut Vec<u8>, text: &[u8]) -> Result<(), NoMemory> {
    let shown = text.len().min(400);
    note.extend_from_slice(&text[..shown])?;
    if shown < text.len() {
        note.extend_from_slice(b"..\n")?;
    }
    Ok(())
}

fn push_duty(alloc: Global, note: &mut Vec<u8>, duty: Option<Duty>) -> Result<(), NoMemory> {
    let mut text = String::new(alloc);
    match duty {
        Some(duty) => put_duty(&mut text, &duty)?,
        None => text.push_str("none")?,
    }
    note.extend_from_slice(text.as_str().as_bytes())?;
    Ok(note.extend_from_slice(b"\n")?)
}

/// The answers of the plain world and of the store.
pub(crate) fn note_answers(note: &mut Vec<u8>, plain: &[u8], own: &[u8]) -> Result<(), NoMemory> {
    note.extend_from_slice(b"the plain world answers\n")?;
    push_short(note, plain)?;
    note.extend_from_slice(b"the store answers\n")?;
    push_short(note, own)
}

/// The first duties of the plain loop and of the loop over any rows.
pub(crate) fn note_duties(
    alloc: Global,
    note: &mut Vec<u8>,
    plain: Option<Duty>,
    own: Option<Duty>,
) -> Result<(), NoMemory> {
    note.extend_from_slice(b"the plain loop's first duty is ")?;
    push_duty(alloc, note, plain)?;
    note.extend_from_slice(b"the first duty over any rows is ")?;
    push_duty(alloc, note, own)
}

/// Notes these words as the difference.
pub(crate) fn differs(note: &mut Vec<u8>, words: &[u8]) -> Fault {
    match note.extend_from_slice(words) {
        Ok(()) => Fault::Differs,
        Err(_) => Fault::NoMemory,
    }
}
