// A row: a line `= NAME`, the entries of a journal, a line `-`, and the output that the journal's calls have.
use crate::beside::go_over;
use crate::expected::is_as_wanted;
use crate::following::Said;
use crate::told::Told;
use std::alloc::Global;
use swarm_objects::NoMemory;

#[derive(Drop)]
pub(crate) struct Row {
    alloc: Global,
    name: Vec<u8>,
    journal: Vec<u8>,
    wanted: Vec<u8>,
    entries: u64,
    is_journal: bool,
}

fn number_of(digits: &[u8]) -> u64 {
    let mut number = 0u64;
    for digit in digits {
        number = number
            .saturating_mul(10)
            .saturating_add(u64::from(digit.saturating_sub(b'0')));
    }
    number
}

// One entry of caller 0: a transaction of the words with each number up to this one.
fn push_numbered(
    alloc: Global,
    journal: &mut Vec<u8>,
    words: &[u8],
    count: u64,
) -> Result<(), NoMemory> {
    journal.extend_from_slice(b"0 ")?;
    for number in 1..=count {
        if number > 1 {
            journal.extend_from_slice(b" ; ")?;
        }
        journal.extend_from_slice(words)?;
        journal.extend_from_slice(number.to_string(alloc)?.as_bytes())?;
    }
    Ok(journal.extend_from_slice(b"\n")?)
}

// The line of an entry, or `+N WORDS` for a transaction of N operations.
fn push_entry(alloc: Global, journal: &mut Vec<u8>, line: &[u8]) -> Result<(), NoMemory> {
    match line.strip_prefix(b"+") {
        Some(rest) => {
            let mut parts = rest.trim_ascii_end().splitn(2, |byte| *byte == b' ');
            let count = number_of(parts.next().unwrap_or(b""));
            push_numbered(alloc, journal, parts.next().unwrap_or(b""), count)
        }
        None => Ok(journal.extend_from_slice(line)?),
    }
}

impl Row {
    /// No row at all.
    pub(crate) fn new(alloc: Global) -> Row {
        Row {
            alloc,
            name: Vec::new(alloc),
            journal: Vec::new(alloc),
            wanted: Vec::new(alloc),
            entries: 0,
            is_journal: true,
        }
    }

    fn begin(&mut self, name: &[u8]) -> Result<(), NoMemory> {
        self.name.clear();
        self.journal.clear();
        self.wanted.clear();
        self.entries = 0;
        self.is_journal = true;
        Ok(self.name.extend_from_slice(name.trim_ascii_end())?)
    }

    fn take(&mut self, line: &[u8]) -> Result<(), NoMemory> {
        if line == b"-\n".as_slice() {
            self.is_journal = false;
            Ok(())
        } else if self.is_journal {
            self.entries = self.entries.saturating_add(1);
            push_entry(self.alloc, &mut self.journal, line)
        } else {
            Ok(self.wanted.extend_from_slice(line)?)
        }
    }

    /// Takes the next line; where it begins another row, this one is gone over.
    pub(crate) fn line(&mut self, told: &mut Told, line: &[u8]) -> Result<(), NoMemory> {
        match line.strip_prefix(b"= ") {
            Some(name) => {
                self.end(told)?;
                self.begin(name)
            }
            None => self.take(line),
        }
    }

    /// Goes over the row, if there is one.
    pub(crate) fn end(&self, told: &mut Told) -> Result<(), NoMemory> {
        if self.name.as_slice().is_empty() {
            return Ok(());
        }
        let mut said = Said::new(self.alloc);
        let done = self.go_over(told, &mut said);
        drop(said);
        done
    }

    fn go_over(&self, told: &mut Told, said: &mut Said) -> Result<(), NoMemory> {
        let mut out = Vec::new(self.alloc);
        let alike = go_over(said, self.journal.as_slice(), &mut out)?;
        if alike != self.entries {
            return told.add_other(self.name.as_slice(), alike, said.note.as_slice());
        }
        if !is_as_wanted(out.as_slice(), self.wanted.as_slice()) {
            return told.add_other(self.name.as_slice(), alike, out.as_slice());
        }
        told.add(alike);
        Ok(())
    }
}
