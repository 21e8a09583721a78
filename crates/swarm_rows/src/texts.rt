// The texts of entries: what a line becomes, read back and written again, or why it is none.
use crate::lines::push_number;
use std::alloc::Global;
use swarm_objects::{Call, Entry, List, NoMemory, What};
use swarm_script::{Line, LineFault, read_entry, read_line, write_entry};

fn push_fault(seen: &mut Vec<u8>, fault: LineFault) -> Result<(), NoMemory> {
    match fault {
        LineFault::Long => Ok(seen.extend_from_slice(b"Long\n")?),
        LineFault::Byte => Ok(seen.extend_from_slice(b"Byte\n")?),
        LineFault::Word(place) => push_number(seen, b"Word ", place),
        LineFault::Cut => Ok(seen.extend_from_slice(b"Cut\n")?),
        LineFault::NoMemory => Err(NoMemory),
    }
}

fn push_text(seen: &mut Vec<u8>, text: &Result<List<u8>, NoMemory>) -> Result<(), NoMemory> {
    match text {
        Ok(text) => Ok(seen.extend_from_slice(text.as_slice())?),
        Err(NoMemory) => Err(NoMemory),
    }
}

fn push_written(seen: &mut Vec<u8>, text: Result<List<u8>, NoMemory>) -> Result<(), NoMemory> {
    let pushed = push_text(seen, &text);
    drop(text);
    pushed
}

// The text of the entry that the line of a journal is.
pub(crate) fn push_again(alloc: Global, seen: &mut Vec<u8>, line: &[u8]) -> Result<(), NoMemory> {
    let read = read_entry(alloc, line);
    let pushed = match &read {
        Ok(entry) => push_written(seen, write_entry(alloc, entry)),
        Err(fault) => push_fault(seen, *fault),
    };
    drop(read);
    pushed
}

fn push_text_again(
    alloc: Global,
    seen: &mut Vec<u8>,
    text: &Result<List<u8>, NoMemory>,
) -> Result<(), NoMemory> {
    match text {
        Ok(line) => push_again(alloc, seen, line.as_slice()),
        Err(NoMemory) => Err(NoMemory),
    }
}

// The text of the entry where caller 0 makes the call of the script's line.
pub(crate) fn push_line(alloc: Global, seen: &mut Vec<u8>, line: &[u8]) -> Result<(), NoMemory> {
    let call = match read_line(alloc, line) {
        Ok(Line::Call(call)) => call,
        Ok(Line::Settle(budget)) => Call::Settle(budget),
        Ok(Line::Blank) => return Ok(seen.extend_from_slice(b"blank\n")?),
        Ok(Line::Wait(ms)) => return push_number(seen, b"wait ", ms),
        Err(fault) => return push_fault(seen, fault),
    };
    let entry = Entry {
        by: 0,
        what: What::Call(call),
    };
    let text = write_entry(alloc, &entry);
    drop(entry);
    let pushed = push_text_again(alloc, seen, &text);
    drop(text);
    pushed
}
