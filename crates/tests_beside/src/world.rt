// The one world beside the plain one: the journals of random scripts, entry by entry, and a full history to its end.
//
// A call is made on both, and their replies are compared; a duty is taken as the first of its control loop. After each
// entry the settle test's answers and all reads of rows are compared.
mod ends;
mod journals;
mod pairs;
mod reads;
mod told;

use crate::world::ends::tell_ends;
use crate::world::journals::tell_journals;
use crate::world::told::Told;
use std::alloc::Global;
use std::fs;
use std::rt::Files;
use swarm_objects::NoMemory;

/// What is told of all of them.
pub(crate) fn report_world<R: AllocGlobal + Files>(
    rt: &R,
    alloc: Global,
) -> Result<Vec<u8>, NoMemory> {
    let mut told = Told::new(alloc);
    match fs::read(rt, "random_journals") {
        Ok(bytes) => tell_journals(alloc, &mut told, bytes.as_slice())?,
        Err(_) => told.push(b"no file of journals\n")?,
    }
    told.end()?;
    tell_ends(alloc, &mut told)?;
    Ok(told.text)
}
