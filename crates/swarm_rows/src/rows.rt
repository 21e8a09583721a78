// The rows of a file, one after the other.
use crate::constraints::push_constraint;
use crate::heads::{Head, Kind};
use crate::lines::is_newline;
use crate::runs::push_run;
use crate::scripts::push_script;
use crate::texts::{push_again, push_line};
use crate::told::Told;
use std::alloc::Global;
use std::sync::Wait;
use std::thread::Threads;
use swarm_objects::NoMemory;

// The script of a row, and what is seen of it. One stands for all rows, since its memory serves the next row too.
#[derive(Drop)]
pub(crate) struct Shown {
    script: Vec<u8>,
    seen: Vec<u8>,
}

impl Shown {
    pub(crate) fn new(alloc: Global) -> Shown {
        Shown {
            script: Vec::new(alloc),
            seen: Vec::new(alloc),
        }
    }
}

// What a line alone is seen as.
fn push_one(alloc: Global, seen: &mut Vec<u8>, kind: Kind, line: &[u8]) -> Result<(), NoMemory> {
    let text = line.strip_suffix(b"\n").unwrap_or(line);
    match kind {
        Kind::Lines => push_line(alloc, seen, text),
        Kind::Constraints => push_constraint(alloc, seen, text),
        _ => push_again(alloc, seen, line),
    }
}

// What each line is seen as.
fn push_each(alloc: Global, seen: &mut Vec<u8>, kind: Kind, script: &[u8]) -> Result<(), NoMemory> {
    for line in script.split_inclusive(is_newline) {
        push_one(alloc, seen, kind, line)?;
    }
    Ok(())
}

// What is seen of a row, as far as it says what is to be seen.
fn push_seen<R: Threads + Wait + Sync + AllocGlobal>(
    rt: &R,
    shown: &mut Shown,
    head: &Head<'_>,
    wanted: &str,
) -> Result<(), NoMemory> {
    let script = shown.script.as_slice();
    let seen = &mut shown.seen;
    match head.kind {
        Kind::Run => push_run(rt, seen, head, script, wanted),
        Kind::Entry => push_again(rt.alloc(), seen, script),
        kind => push_each(rt.alloc(), seen, kind, script),
    }
}

// Whether all is seen that is wanted, which has no newline at its end, and nothing else. Dots are the lines before.
fn is_as_wanted(seen: &[u8], wanted: &str) -> bool {
    let Some(seen) = seen.strip_suffix(b"\n") else {
        return false;
    };
    match wanted.strip_prefix("...") {
        Some(end) => seen.ends_with(end.as_bytes()),
        None => seen == wanted.as_bytes(),
    }
}

// Runs the row, and tells of it.
fn tell_row<R: Threads + Wait + Sync + AllocGlobal>(
    rt: &R,
    told: &mut Told,
    shown: &mut Shown,
    row: &str,
) -> Result<(), NoMemory> {
    let Some((asked, wanted)) = row.split_once("\n-\n") else {
        return told.add_other(row, b"no row\n");
    };
    let line = asked.split('\n').next().unwrap_or("");
    let Some(head) = Head::read(line) else {
        return told.add_other(line, b"no head\n");
    };
    shown.script.clear();
    shown.seen.clear();
    push_script(&mut shown.script, asked)?;
    push_seen(rt, shown, &head, wanted)?;
    if is_as_wanted(shown.seen.as_slice(), wanted) {
        told.add_row();
        Ok(())
    } else {
        told.add_other(line, shown.seen.as_slice())
    }
}

// Runs the rows of the file. What goes before the first one is its comment.
pub(crate) fn tell_rows<R: Threads + Wait + Sync + AllocGlobal>(
    rt: &R,
    told: &mut Told,
    shown: &mut Shown,
    file: &str,
) -> Result<(), NoMemory> {
    let file = file.strip_suffix('\n').unwrap_or(file);
    for row in file.split("\n= ") {
        if !row.starts_with("//") {
            tell_row(rt, told, shown, row)?;
        }
    }
    Ok(())
}
