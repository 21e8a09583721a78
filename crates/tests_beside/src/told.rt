// What is told of all rows.
use std::alloc::Global;
use swarm_objects::NoMemory;

/// How many rows and entries there were, and what was seen of the rows that differ.
#[derive(Drop)]
pub(crate) struct Told {
    alloc: Global,
    rows: u64,
    entries: u64,
    others: u64,
    pub(crate) text: Vec<u8>,
}

impl Told {
    pub(crate) fn new(alloc: Global) -> Told {
        Told {
            alloc,
            rows: 0,
            entries: 0,
            others: 0,
            text: Vec::new(alloc),
        }
    }

    fn push_count(&mut self, count: u64, words: &[u8]) -> Result<(), NoMemory> {
        let digits = count.to_string(self.alloc)?;
        self.text.extend_from_slice(digits.as_bytes())?;
        Ok(self.text.extend_from_slice(words)?)
    }

    /// A row of so many entries, all of which are as they must be.
    pub(crate) fn add(&mut self, entries: u64) {
        self.rows = self.rows.saturating_add(1);
        self.entries = self.entries.saturating_add(entries);
    }

    /// A row whose first entries, so many, are as they must be, and what is seen behind them.
    pub(crate) fn add_other(
        &mut self,
        name: &[u8],
        entries: u64,
        seen: &[u8],
    ) -> Result<(), NoMemory> {
        self.add(entries);
        self.others = self.others.saturating_add(1);
        self.text.extend_from_slice(name)?;
        self.text.extend_from_slice(b" after entry ")?;
        self.push_count(entries, b"\n")?;
        Ok(self.text.extend_from_slice(seen)?)
    }

    /// The last line.
    pub(crate) fn end(&mut self) -> Result<(), NoMemory> {
        self.push_count(self.rows, b" rows, ")?;
        self.push_count(self.entries, b" entries alike, ")?;
        self.push_count(self.others, b" rows other than expected\n")
    }
}
