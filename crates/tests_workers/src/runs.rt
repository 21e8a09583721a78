// Runs of a script that a gate holds.
ghost use Rattle.std.specs.Prelude.{Some};

use crate::gates::Holding;
use std::alloc::Global;
use std::sync::Wait;
use std::thread::Threads;
use swarm_objects::{Failed, MemorySink, MemorySource, NoMemory, PlainSink, Source};
use swarm_top::swarm;

// Gives the first lines at once. Where it is asked again it says so, and waits until worker 1 has made its turns.
#[derive(Drop)]
struct HeldSource<'a> {
    script: MemorySource,
    is_begun: bool,
    gate: &'a Holding,
}

impl<'a> Source for HeldSource<'a> {
    ghost left = { λ s. Some s.script.left };

    ghost faults = { λ s. s.script.faults };

    fn take(&mut self, buf: &mut [u8]) -> Result<usize, Failed> {
        if self.is_begun {
            self.gate.asked.set();
            self.gate.turned.wait();
        }
        self.is_begun = true;
        self.script.take(buf)
    }
}

fn held_source<'a>(
    alloc: Global,
    lines: &str,
    rest: &str,
    gate: &'a Holding,
) -> Result<HeldSource<'a>, NoMemory> {
    let mut bytes = lines.as_bytes().to_vec(alloc)?;
    bytes.extend_from_slice(rest.as_bytes())?;
    Ok(HeldSource {
        script: MemorySource::new(bytes, lines.len(), Vec::new(alloc)),
        is_begun: false,
        gate,
    })
}

fn words_of(alloc: Global, text: &str) -> Result<Vec<String>, NoMemory> {
    let mut words = Vec::new(alloc);
    for word in text.split(' ') {
        if words.push(String::from_str(alloc, word)?).is_err() {
            return Err(NoMemory);
        }
    }
    Ok(words)
}

// The journal of a run by these words. The rest of its script comes where the gate lets it.
pub fn journal_of<R: Threads + Wait + Sync>(
    rt: &R,
    alloc: Global,
    words: &str,
    lines: &str,
    rest: &str,
    gate: &Holding,
) -> Result<MemorySink, NoMemory> {
    let words = words_of(alloc, words)?;
    let mut script = held_source(alloc, lines, rest, gate)?;
    let mut journal = MemorySink::new(alloc, Vec::new(alloc));
    let mut out = PlainSink::new();
    swarm(
        rt,
        alloc,
        words.as_slice(),
        &mut script,
        &mut out,
        &mut journal,
        gate,
    );
    Ok(journal)
}
