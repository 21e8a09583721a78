//! Journals of whole runs, made by an independent program and gone over entry by entry, on the plain world and beside
//! it on the store with its watches, and then on the one world.
//!
//! Before each entry, the first duty of every control loop over any rows is compared with the head of the plain loop's
//! list. The entry is then done on the plain world and on the store with its watches: their answers and their rows are
//! compared, and at a duty the rows that the changes of its loop make with those of the plain world.
#![tactic(auto)]

mod beside;
mod calls;
mod copies;
mod differences;
mod expected;
mod faults;
mod following;
mod loops;
mod notes;
mod rows;
mod stored;
mod stores;
mod told;
mod world;

use crate::rows::Row;
use crate::told::Told;
use crate::world::report_world;
use std::alloc::Global;
use std::process::ExitCode;
use std::rt::Files;
use std::{fs, io};
use swarm_objects::{NoMemory, Sink, StdSink};

// Reads the rows one after the other.
fn tell(alloc: Global, told: &mut Told, bytes: &[u8]) -> Result<(), NoMemory> {
    let mut row = Row::new(alloc);
    for line in bytes.split_inclusive(|byte| *byte == b'\n') {
        row.line(told, line)?;
    }
    row.end(told)
}

fn report_store<R: AllocGlobal + Files>(rt: &R, alloc: Global) -> Result<Vec<u8>, NoMemory> {
    let mut told = Told::new(alloc);
    match fs::read(rt, "journals") {
        Ok(bytes) => tell(alloc, &mut told, bytes.as_slice())?,
        Err(_) => told.text.extend_from_slice(b"no file of journals\n")?,
    }
    told.end()?;
    Ok(told.text)
}

// What is told of the store, and then of the one world.
fn report_both<R: AllocGlobal + Files>(rt: &R, alloc: Global) -> Result<Vec<u8>, NoMemory> {
    let mut text = report_store(rt, alloc)?;
    text.extend_from_slice(report_world(rt, alloc)?.as_slice())?;
    Ok(text)
}

fn main(rt: HostRuntime) -> ExitCode {
    let Ok(text) = report_both(&rt, rt.alloc()) else {
        return ExitCode::from(5);
    };
    match StdSink::new(io::writer(&rt)).put(text.as_slice()) {
        Ok(()) => ExitCode::SUCCESS,
        Err(_) => ExitCode::from(4),
    }
}
