// Journals: a line `= NAME`, the entries, a line `-`, and the replies that they have.
use crate::world::pairs::{Fault, Texts, enter};
use crate::world::told::Told;
use std::alloc::Global;
use swarm_duties::Replay;
use swarm_objects::NoMemory;
use swarm_script::{LineFault, read_entry};
use swarm_world::World;

fn enter_line(
    plain: &mut Replay,
    world: &mut World,
    texts: &mut Texts,
    line: &[u8],
) -> Result<(), Fault> {
    match read_entry(texts.alloc, line) {
        Ok(entry) => enter(plain, world, texts, entry),
        Err(LineFault::NoMemory) => Err(Fault::NoMemory),
        Err(_) => Err(Fault::Differs(b"it isn't in the grammar\n")),
    }
}

// Goes over the entries up to the first that differs, and says whether none does.
fn enter_lines(
    plain: &mut Replay,
    world: &mut World,
    texts: &mut Texts,
    told: &mut Told,
    lines: &[u8],
) -> Result<bool, NoMemory> {
    for line in lines.split_inclusive(|byte| *byte == b'\n') {
        match enter_line(plain, world, texts, line) {
            Ok(()) => told.add(),
            Err(Fault::NoMemory) => return Err(NoMemory),
            Err(Fault::Differs(words)) => {
                told.differs(words)?;
                return Ok(false);
            }
        }
    }
    Ok(true)
}

// Each world has an owner of its own with one way out, which drops it by name: else the proof goes through all its
// parts at each.
fn beside_plain(
    plain: &mut Replay,
    texts: &mut Texts,
    told: &mut Told,
    lines: &[u8],
) -> Result<bool, NoMemory> {
    let mut world = World::new(texts.alloc)?;
    let is_alike = enter_lines(plain, &mut world, texts, told, lines);
    drop(world);
    is_alike
}

fn go_over(texts: &mut Texts, told: &mut Told, lines: &[u8]) -> Result<bool, NoMemory> {
    let mut plain = Replay::new(texts.alloc);
    let is_alike = beside_plain(&mut plain, texts, told, lines);
    drop(plain);
    is_alike
}

// Goes over the entries; if they are alike, their replies are those that are wanted.
fn compare(
    texts: &mut Texts,
    told: &mut Told,
    lines: &[u8],
    wanted: &[u8],
) -> Result<(), NoMemory> {
    if !go_over(texts, told, lines)? || texts.replies.as_slice() == wanted {
        Ok(())
    } else {
        told.differs(b"the replies are others\n")
    }
}

/// The lines of a journal so far.
#[derive(Drop)]
struct Journal {
    alloc: Global,
    entries: Vec<u8>,
    wanted: Vec<u8>,
    /// Lines are entries, up to the line `-`.
    has_entries: bool,
}

impl Journal {
    /// An empty one.
    fn new(alloc: Global) -> Journal {
        Journal {
            alloc,
            entries: Vec::new(alloc),
            wanted: Vec::new(alloc),
            has_entries: true,
        }
    }

    fn begin(&mut self) {
        self.entries.clear();
        self.wanted.clear();
        self.has_entries = true;
    }

    fn take(&mut self, line: &[u8]) -> Result<(), NoMemory> {
        if line == b"-\n".as_slice() {
            self.has_entries = false;
            Ok(())
        } else if self.has_entries {
            Ok(self.entries.extend_from_slice(line)?)
        } else {
            Ok(self.wanted.extend_from_slice(line)?)
        }
    }

    // Goes over the journal.
    fn end(&self, told: &mut Told) -> Result<(), NoMemory> {
        let mut texts = Texts::new(self.alloc);
        let done = compare(
            &mut texts,
            told,
            self.entries.as_slice(),
            self.wanted.as_slice(),
        );
        drop(texts);
        done
    }

    fn line(&mut self, told: &mut Told, line: &[u8]) -> Result<(), NoMemory> {
        if !line.starts_with(b"= ") {
            return self.take(line);
        }
        self.end(told)?;
        told.begin();
        self.begin();
        Ok(())
    }

    /// Goes over the lines of all journals.
    fn lines(&mut self, told: &mut Told, bytes: &[u8]) -> Result<(), NoMemory> {
        for line in bytes.split_inclusive(|byte| *byte == b'\n') {
            self.line(told, line)?;
        }
        self.end(told)
    }
}

/// Goes over each journal.
pub(crate) fn tell_journals(alloc: Global, told: &mut Told, bytes: &[u8]) -> Result<(), NoMemory> {
    let mut journal = Journal::new(alloc);
    let done = journal.lines(told, bytes);
    drop(journal);
    done
}
