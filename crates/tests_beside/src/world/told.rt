// What is told of all journals.
use std::alloc::Global;
use swarm_objects::NoMemory;

/// How many journals and entries there were, and the text of what differs.
#[derive(Drop)]
pub(crate) struct Told {
    alloc: Global,
    journals: u64,
    entries: u64,
    pub(crate) text: Vec<u8>,
}

impl Told {
    pub(crate) fn new(alloc: Global) -> Told {
        Told {
            alloc,
            journals: 0,
            entries: 0,
            text: Vec::new(alloc),
        }
    }

    pub(crate) fn push(&mut self, words: &[u8]) -> Result<(), NoMemory> {
        Ok(self.text.extend_from_slice(words)?)
    }

    fn push_count(&mut self, count: u64, words: &[u8]) -> Result<(), NoMemory> {
        let digits = count.to_string(self.alloc)?;
        self.push(digits.as_bytes())?;
        self.push(words)
    }

    /// Another journal.
    pub(crate) fn begin(&mut self) {
        self.journals = self.journals.saturating_add(1);
    }

    /// An entry of it that is alike.
    pub(crate) fn add(&mut self) {
        self.entries = self.entries.saturating_add(1);
    }

    /// How the next entry differs, after so many in all.
    pub(crate) fn differs(&mut self, words: &[u8]) -> Result<(), NoMemory> {
        self.push(b"after entry ")?;
        self.push_count(self.entries, b": ")?;
        self.push(words)
    }

    /// The line behind all journals.
    pub(crate) fn end(&mut self) -> Result<(), NoMemory> {
        self.push_count(self.journals, b" journals, ")?;
        self.push_count(self.entries, b" entries alike\n")
    }
}
