//! Rows: runs of the program, and texts of lines and entries, each beside what must be seen of it.
//!
//! A row is data, so it costs no proof. The files of `data/` have the rows of one topic each, and begin with a line
//! `// TOPIC`. A row is a line `= NAME OPTIONS`, its script, a line `-`, and what must be seen, which comes from worked
//! examples of the specification or from an independent program:
//!
//! ```text
//! = node_join_and_list
//! node join n1
//! list nodes
//! -
//! ok 1
//! nodes 1
//! node 1 n1 UNKNOWN ACTIVE worker 4000 8589934592
//! - status 0
//! ```
//!
//! - A line of a script that begins with `//` is a comment of the row. `*3 node join n@` is three lines, with 1, 2 and
//!   3 in the place of `@`. A `\` at the end takes the newline away; `\s` is a space, `\t` a tab, `\r` a carriage
//!   return, and `\` any other character itself.
//! - Without an option the script is run by `swarm run --workers 0`. Seen is the output, `- status N`, and of these
//!   what the row has, in this order: `- lines N` (of the journal), `- journal` and the journal, `- walked N` (entries
//!   up to the first world that isn't as it must be), `- judged legal` (a replay's word on the journal), `- unread`
//!   and what the source still has, `- stops`, `- cuts`. A first line `...` stands for whatever goes before.
//! - Behind `- stops` stand the runs in which the journal fails at each of its lines, after no byte and after one, as
//!   `2+1 4 17`: at the second line after 1 byte, status 4, and the first 17 bytes of the journal are kept. Behind
//!   `- cuts` stand the runs of the script cut after each of its bytes, as `17 6 bad line 2 Cut`: cut after 17 bytes
//!   and after more up to the next line's number, status 6 and the output.
//! - Options of a run: `words=replay` or `words=run,--workers=0` for the words of the command line, `piece=9` for the
//!   most bytes that the source gives at once, `take=2`, `out=1`, `put=2` for the call of the source, the output, the
//!   journal that fails; `out=1+3` and `put=2+3` fail after 3 bytes of the piece.
//! - Option `lines`: each line of the script as an entry of caller 0, written, read and written again, or `blank`,
//!   `wait N`, or its fault. `entries`: the same of each line of a journal. `entry`: of the whole text. `constraints`:
//!   each line as a constraint without spaces, or `BadConstraint` and the place of its fault.
//!
//! The output is one line with the number of rows, and of those that differ; above it the head of each that differs,
//! and what was seen of it.
#![tactic(auto)]

mod comparisons;
mod constraints;
mod heads;
mod lines;
mod rows;
mod runs;
mod scripts;
mod tables;
mod texts;
mod told;
mod walks;

use crate::rows::{Shown, tell_rows};
use crate::told::Told;
use std::process::ExitCode;
use std::rt::Files;
use std::sync::Wait;
use std::thread::Threads;
use std::{fs, io};
use swarm_objects::{NoMemory, Sink, StdSink};

/// The files of rows.
const FILES: [&str; 35] = [
    "faults",
    "words",
    "limits",
    "networks",
    "nodes",
    "remote",
    "replays",
    "replies",
    "restarts",
    "services",
    "settling",
    "stopped",
    "updates",
    "watches",
    "lines",
    "entries",
    "walks",
    "duties",
    "rules",
    "constraints",
    "fields",
    "usage",
    "answers",
    "queries",
    "watched",
    "notes",
    "orders",
    "placement",
    "places",
    "rollouts",
    "upkeep",
    "next_duties",
    "other_duties",
    "makes",
    "workers",
];

/// The statuses where the output can't be written, and where memory is wanting.
const UNWRITTEN: u8 = 4;

const NO_MEMORY: u8 = 5;

// Runs the rows of the file. One that is missing, or isn't UTF-8, is told.
fn tell_file<R: Threads + Wait + Sync + AllocGlobal + Files>(
    rt: &R,
    told: &mut Told,
    shown: &mut Shown,
    name: &str,
) -> Result<(), NoMemory> {
    let read = fs::read_to_string(rt, name);
    let done = match &read {
        Ok(text) => tell_rows(rt, told, shown, text.as_str()),
        Err(_) => told.add_missing(name),
    };
    drop(read);
    done
}

// Runs the rows of all files.
fn tell_files<R: Threads + Wait + Sync + AllocGlobal + Files>(
    rt: &R,
    told: &mut Told,
    shown: &mut Shown,
) -> Result<(), NoMemory> {
    for name in FILES {
        tell_file(rt, told, shown, name)?;
    }
    told.end()
}

fn put_told(rt: &HostRuntime, told: &Told) -> ExitCode {
    match StdSink::new(io::writer(rt)).put(told.text()) {
        Ok(()) => ExitCode::SUCCESS,
        Err(_) => ExitCode::from(UNWRITTEN),
    }
}

fn main(rt: HostRuntime) -> ExitCode {
    let mut told = Told::new(rt.alloc());
    let mut shown = Shown::new(rt.alloc());
    let done = tell_files(&rt, &mut told, &mut shown);
    drop(shown);
    let status = match done {
        Ok(()) => put_told(&rt, &told),
        Err(NoMemory) => ExitCode::from(NO_MEMORY),
    };
    drop(told);
    status
}
