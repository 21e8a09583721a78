// The plain world beside the store with its watches, entry by entry.
ghost use Rattle.std.specs.Prelude.{◌≡◌};

use crate::faults::Fault;
use crate::following::{Said, follow};
use crate::loops::compare_firsts;
use crate::notes::differs;
use crate::stored::has_same_rows;
use std::alloc::Global;
use std::marker::Model;
use swarm_duties::Replay;
use swarm_objects::{Entry, NoMemory, What};
use swarm_script::{LineFault, read_entry};
use swarm_store::Store;
use swarm_watch::Watches;

// As long as all was alike, the store stands for the plain world, and may be asked what it is asked.
#[derive(Drop)]
struct Beside {
    replay: Replay,
    store: Store,
    watches: Watches,
    is_alike: bool,
}

impl Model for Beside {
    ghost use Rattle.std.specs.Prelude.{◌≡◌, Bool, true};
    ghost use Rattle.swarm_store.specs.Stored.{StandsFor};

    ghost Value = { Bool };

    ghost view = { λ b. b.is_alike };

    ghost invariant = { λ b. b.is_alike ≡ true → StandsFor b.store b.replay };
}

impl Beside {
    fn new(alloc: Global) -> Result<Beside, NoMemory> {
        let store = Store::new(alloc)?;
        Ok(Beside {
            replay: Replay::new(alloc),
            store,
            watches: Watches::new(alloc),
            is_alike: true,
        })
    }

    #[tactic(auto, using(crate::proofs::Standing::copied, crate::proofs::Standing::reached))]
    fn enter(&mut self, said: &mut Said, what: &What) -> Result<(), Fault> {
        if !self.is_alike {
            return Err(Fault::Differs);
        }
        compare_firsts(said.alloc, &self.replay, &mut said.note)?;
        let mut copy = self.replay.plain().duplicate()?;
        self.is_alike = false;
        let done = follow(
            &mut self.replay,
            &mut self.store,
            &mut self.watches,
            &mut copy,
            said,
            what,
        );
        drop(copy);
        match done {
            Ok(()) => {
                self.is_alike = true;
                Ok(())
            }
            Err(fault) => Err(fault),
        }
    }

    fn compare_rows(&self, said: &mut Said) -> Result<(), Fault> {
        if has_same_rows(self.replay.plain(), &self.store) {
            Ok(())
        } else {
            Err(differs(&mut said.note, b"the store's rows differ\n"))
        }
    }

    fn take(&mut self, said: &mut Said, read: &Result<Entry, LineFault>) -> Result<(), Fault> {
        match read {
            Ok(entry) => {
                self.enter(said, &entry.what)?;
                self.compare_rows(said)
            }
            Err(LineFault::NoMemory) => Err(Fault::NoMemory),
            Err(_) => Err(differs(&mut said.note, b"it isn't in the grammar\n")),
        }
    }

    fn line(&mut self, said: &mut Said, line: &[u8]) -> Result<(), Fault> {
        let read = read_entry(said.alloc, line);
        let done = self.take(said, &read);
        drop(read);
        done
    }

    // Puts the replies to the output, and gives how many entries were alike.
    fn lines(
        &mut self,
        said: &mut Said,
        journal: &[u8],
        out: &mut Vec<u8>,
    ) -> Result<u64, NoMemory> {
        let mut count = 0u64;
        for line in journal.split_inclusive(|byte| *byte == b'\n') {
            said.clear();
            match self.line(said, line) {
                Ok(()) => out.extend_from_slice(said.plain.as_slice())?,
                Err(Fault::NoMemory) => return Err(NoMemory),
                Err(Fault::Differs) => return Ok(count),
            }
            count = count.saturating_add(1);
        }
        Ok(count)
    }
}

/// Goes over the journal up to its end, or up to the first entry at which anything differs. Puts the replies to the
/// output, and gives how many entries were alike.
pub(crate) fn go_over(said: &mut Said, journal: &[u8], out: &mut Vec<u8>) -> Result<u64, NoMemory> {
    let mut beside = Beside::new(said.alloc)?;
    let count = beside.lines(said, journal, out);
    drop(beside);
    count
}
