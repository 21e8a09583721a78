// Whole runs over sources and sinks in memory.
use crate::heads::Head;
use crate::lines::{lines_of, push_number};
use crate::tables::{push_cuts, push_stops};
use crate::walks::walked;
use std::alloc::Global;
use std::sync::Wait;
use std::thread::Threads;
use swarm_objects::{FailedPut, MemorySink, MemorySource, NoMemory, RealGate, Source};
use swarm_top::swarm;

// What a run is given: its words, its script, and the calls of its source and its sinks that fail.
#[derive(Drop)]
struct Given {
    words: Vec<String>,
    script: Vec<u8>,
    take: Vec<u64>,
    out: Vec<FailedPut>,
    put: Vec<FailedPut>,
}

// A run that has ended: its status, and its source and its sinks as they are left.
#[derive(Drop)]
pub(crate) struct Ended {
    pub(crate) status: u8,
    pub(crate) source: MemorySource,
    pub(crate) out: MemorySink,
    pub(crate) journal: MemorySink,
}

fn add_word(alloc: Global, words: &mut Vec<String>, word: &str) -> Result<(), NoMemory> {
    match words.push(String::from_str(alloc, word)?) {
        Ok(()) => Ok(()),
        Err(_) => Err(NoMemory),
    }
}

fn add_call<T: Copy>(calls: &mut Vec<T>, call: Option<T>) -> Result<(), NoMemory> {
    let Some(call) = call else {
        return Ok(());
    };
    match calls.push(call) {
        Ok(()) => Ok(()),
        Err(_) => Err(NoMemory),
    }
}

impl Given {
    fn new(alloc: Global) -> Given {
        Given {
            words: Vec::new(alloc),
            script: Vec::new(alloc),
            take: Vec::new(alloc),
            out: Vec::new(alloc),
            put: Vec::new(alloc),
        }
    }

    // The words of the command line stand with commas between them.
    fn fill(&mut self, alloc: Global, head: &Head<'_>, script: &[u8]) -> Result<(), NoMemory> {
        for word in head.words.split(',') {
            if !word.is_empty() {
                add_word(alloc, &mut self.words, word)?;
            }
        }
        self.script.extend_from_slice(script)?;
        add_call(&mut self.take, head.take)?;
        add_call(&mut self.out, head.out)?;
        add_call(&mut self.put, head.put)
    }

    fn run<R: Threads + Wait + Sync + AllocGlobal>(self, rt: &R, piece: usize) -> Ended {
        let Given {
            words,
            script,
            take,
            out,
            put,
        } = self;
        let alloc = rt.alloc();
        let mut source = MemorySource::new(script, piece, take);
        let mut out = MemorySink::new(alloc, out);
        let mut journal = MemorySink::new(alloc, put);
        let status = swarm(
            rt,
            alloc,
            words.as_slice(),
            &mut source,
            &mut out,
            &mut journal,
            &RealGate,
        );
        drop(words);
        Ended {
            status,
            source,
            out,
            journal,
        }
    }
}

// Runs the script as the head says.
pub(crate) fn run<R: Threads + Wait + Sync + AllocGlobal>(
    rt: &R,
    head: &Head<'_>,
    script: &[u8],
) -> Result<Ended, NoMemory> {
    let mut given = Given::new(rt.alloc());
    match given.fill(rt.alloc(), head, script) {
        Ok(()) => Ok(given.run(rt, head.piece)),
        Err(NoMemory) => {
            drop(given);
            Err(NoMemory)
        }
    }
}

// What the source still has, at most a few pieces of it.
fn push_rest(seen: &mut Vec<u8>, source: &mut MemorySource) -> Result<(), NoMemory> {
    let mut piece = [0u8; 64];
    for _ in 0..4u8 {
        if let Ok(count) = source.take(&mut piece) {
            seen.extend_from_slice(&piece[..count])?;
        }
    }
    Ok(())
}

fn push_journal(seen: &mut Vec<u8>, journal: &[u8]) -> Result<(), NoMemory> {
    seen.extend_from_slice(b"- journal\n")?;
    Ok(seen.extend_from_slice(journal)?)
}

fn push_unread(seen: &mut Vec<u8>, source: &mut MemorySource) -> Result<(), NoMemory> {
    seen.extend_from_slice(b"- unread\n")?;
    push_rest(seen, source)
}

// That a replay calls the journal legal, or what it says.
fn push_verdict(seen: &mut Vec<u8>, replay: &Result<Ended, NoMemory>) -> Result<(), NoMemory> {
    let Ok(ended) = replay else {
        return Err(NoMemory);
    };
    seen.extend_from_slice(b"- judged ")?;
    if ended.out.bytes().starts_with(b"legal ") {
        Ok(seen.extend_from_slice(b"legal\n")?)
    } else {
        Ok(seen.extend_from_slice(ended.out.bytes())?)
    }
}

// What a replay says of the journal.
fn push_judged<R: Threads + Wait + Sync + AllocGlobal>(
    rt: &R,
    seen: &mut Vec<u8>,
    head: &Head<'_>,
    journal: &[u8],
) -> Result<(), NoMemory> {
    let judging = Head {
        kind: head.kind,
        words: "replay",
        piece: head.piece,
        take: None,
        out: None,
        put: None,
    };
    let replay = run(rt, &judging, journal);
    let pushed = push_verdict(seen, &replay);
    drop(replay);
    pushed
}

// What is to be seen of the journal: the parts that stand behind the status in the row.
fn push_kept<R: Threads + Wait + Sync + AllocGlobal>(
    rt: &R,
    seen: &mut Vec<u8>,
    head: &Head<'_>,
    journal: &[u8],
    wanted: &str,
) -> Result<(), NoMemory> {
    if wanted.contains("\n- lines ") {
        push_number(seen, b"- lines ", lines_of(journal))?;
    }
    if wanted.contains("\n- journal") {
        push_journal(seen, journal)?;
    }
    if wanted.contains("\n- walked ") {
        push_number(seen, b"- walked ", walked(rt.alloc(), journal)?)?;
    }
    if wanted.contains("\n- judged ") {
        push_judged(rt, seen, head, journal)?;
    }
    Ok(())
}

// Says what is seen of a run of the script.
fn push_ended<R: Threads + Wait + Sync + AllocGlobal>(
    rt: &R,
    seen: &mut Vec<u8>,
    head: &Head<'_>,
    script: &[u8],
    wanted: &str,
    ended: &mut Ended,
) -> Result<(), NoMemory> {
    seen.extend_from_slice(ended.out.bytes())?;
    push_number(seen, b"- status ", u64::from(ended.status))?;
    push_kept(rt, seen, head, ended.journal.bytes(), wanted)?;
    if wanted.contains("\n- unread") {
        push_unread(seen, &mut ended.source)?;
    }
    if wanted.contains("\n- stops") {
        push_stops(rt, seen, head, script, ended)?;
    }
    if wanted.contains("\n- cuts") {
        push_cuts(rt, seen, head, script)?;
    }
    Ok(())
}

// Runs the script, and says what is seen of it.
pub(crate) fn push_run<R: Threads + Wait + Sync + AllocGlobal>(
    rt: &R,
    seen: &mut Vec<u8>,
    head: &Head<'_>,
    script: &[u8],
    wanted: &str,
) -> Result<(), NoMemory> {
    let mut whole = run(rt, head, script);
    let pushed = match &mut whole {
        Ok(ended) => push_ended(rt, seen, head, script, wanted, ended),
        Err(NoMemory) => Err(NoMemory),
    };
    drop(whole);
    pushed
}
