// What is told of the rows.
use crate::lines::push_digits;
use std::alloc::Global;
use swarm_objects::NoMemory;

// How many rows there were and how many of them differ, and the text of the output.
#[derive(Drop)]
pub(crate) struct Told {
    rows: u64,
    others: u64,
    text: Vec<u8>,
}

impl Told {
    pub(crate) fn new(alloc: Global) -> Told {
        Told {
            rows: 0,
            others: 0,
            text: Vec::new(alloc),
        }
    }

    pub(crate) fn text(&self) -> &[u8] {
        self.text.as_slice()
    }

    pub(crate) fn add_missing(&mut self, name: &str) -> Result<(), NoMemory> {
        self.text.extend_from_slice(b"no file ")?;
        self.text.extend_from_slice(name.as_bytes())?;
        Ok(self.text.extend_from_slice(b"\n")?)
    }

    // A row that is as it must be.
    pub(crate) fn add_row(&mut self) {
        self.rows = self.rows.saturating_add(1);
    }

    // A row that differs, and what was seen of it.
    pub(crate) fn add_other(&mut self, head: &str, seen: &[u8]) -> Result<(), NoMemory> {
        self.rows = self.rows.saturating_add(1);
        self.others = self.others.saturating_add(1);
        self.text.extend_from_slice(b"= ")?;
        self.text.extend_from_slice(head.as_bytes())?;
        self.text.extend_from_slice(b"\n")?;
        Ok(self.text.extend_from_slice(seen)?)
    }

    pub(crate) fn end(&mut self) -> Result<(), NoMemory> {
        push_digits(&mut self.text, self.rows)?;
        self.text.extend_from_slice(b" rows, ")?;
        push_digits(&mut self.text, self.others)?;
        Ok(self.text.extend_from_slice(b" other than expected\n")?)
    }
}
