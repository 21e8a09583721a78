// The one world beside the plain one.
use crate::world::reads::reads_alike;
use std::alloc::Global;
use swarm_duties::{Replay, StepFault, settle};
use swarm_objects::{Call, Duty, Entry, NoMemory, Refusal, Reply, What};
use swarm_print::reply_text;
use swarm_world::{Turn, World};

/// Why an entry isn't gone on with.
pub(crate) enum Fault {
    NoMemory,
    Differs(&'static [u8]),
}

impl From<NoMemory> for Fault {
    fn from(_: NoMemory) -> Fault {
        Fault::NoMemory
    }
}

/// The texts of both worlds' replies to an entry, and of all replies so far.
#[derive(Drop)]
pub(crate) struct Texts {
    pub(crate) alloc: Global,
    plain: Vec<u8>,
    own: Vec<u8>,
    pub(crate) replies: Vec<u8>,
}

impl Texts {
    pub(crate) fn new(alloc: Global) -> Texts {
        Texts {
            alloc,
            plain: Vec::new(alloc),
            own: Vec::new(alloc),
            replies: Vec::new(alloc),
        }
    }

    fn clear(&mut self) {
        self.plain.clear();
        self.own.clear();
    }

    fn compare(&mut self) -> Result<(), Fault> {
        if self.plain.as_slice() != self.own.as_slice() {
            return Err(Fault::Differs(b"the replies differ\n"));
        }
        match self.replies.extend_from_slice(self.own.as_slice()) {
            Ok(()) => Ok(()),
            Err(_) => Err(Fault::NoMemory),
        }
    }
}

fn push_text(alloc: Global, text: &mut Vec<u8>, reply: &Reply) -> Result<(), NoMemory> {
    let lines = reply_text(alloc, reply)?;
    let done = text.extend_from_slice(lines.as_slice());
    drop(lines);
    Ok(done?)
}

// Puts the reply's text; want of memory has none.
fn push_reply(alloc: Global, text: &mut Vec<u8>, reply: &Reply) -> Result<(), Fault> {
    if matches!(reply, Reply::Refused(Refusal::NoMemory)) {
        return Err(Fault::NoMemory);
    }
    Ok(push_text(alloc, text, reply)?)
}

fn push_step(texts: &mut Texts, stepped: &Result<Reply, StepFault>) -> Result<(), Fault> {
    match stepped {
        Ok(reply) => push_reply(texts.alloc, &mut texts.plain, reply),
        Err(StepFault::NoMemory) => Err(Fault::NoMemory),
        Err(StepFault::Illegal) => Err(Fault::Differs(b"it may not follow\n")),
    }
}

// A value with many parts has one owner with one way out, which drops it by name.
fn step(plain: &mut Replay, texts: &mut Texts, what: &What) -> Result<(), Fault> {
    let stepped = plain.step(what);
    let done = push_step(texts, &stepped);
    drop(stepped);
    done
}

fn turn(world: &mut World, by: u64, duty: Duty) -> Result<(), Fault> {
    match world.turn(by, duty.role()) {
        Turn::Did(done) if done == duty => Ok(()),
        Turn::NoMemory => Err(Fault::NoMemory),
        _ => Err(Fault::Differs(b"it isn't the first duty of its loop\n")),
    }
}

fn do_duty(world: &mut World, texts: &mut Texts, by: u64, duty: Duty) -> Result<(), Fault> {
    turn(world, by, duty)?;
    push_reply(texts.alloc, &mut texts.own, &Reply::Did)
}

fn make_call(world: &mut World, texts: &mut Texts, by: u64, call: Call) -> Result<(), Fault> {
    let reply = world.call(by, call);
    let done = push_reply(texts.alloc, &mut texts.own, &reply);
    drop(reply);
    done
}

fn enter_own(world: &mut World, texts: &mut Texts, entry: Entry) -> Result<(), Fault> {
    let by = entry.by;
    match entry.what {
        What::Call(call) => make_call(world, texts, by, call),
        What::Duty(duty) => do_duty(world, texts, by, duty),
    }
}

// Makes the entry on both.
fn enter_both(
    plain: &mut Replay,
    world: &mut World,
    texts: &mut Texts,
    entry: Entry,
) -> Result<(), Fault> {
    match step(plain, texts, &entry.what) {
        Ok(()) => enter_own(world, texts, entry),
        Err(fault) => {
            drop(entry);
            Err(fault)
        }
    }
}

/// Makes the entry on both, and compares their replies and what they answer without an entry.
pub(crate) fn enter(
    plain: &mut Replay,
    world: &mut World,
    texts: &mut Texts,
    entry: Entry,
) -> Result<(), Fault> {
    texts.clear();
    enter_both(plain, world, texts, entry)?;
    texts.compare()?;
    compare(plain, world)
}

fn compare(replay: &Replay, world: &World) -> Result<(), Fault> {
    let plain = replay.plain();
    if settle(plain)? != world.settled() {
        return Err(Fault::Differs(b"the settle answers differ\n"));
    }
    if plain.entries != world.len() || plain.entries != world.history().len() as u64 {
        return Err(Fault::Differs(b"the numbers of entries differ\n"));
    }
    if !reads_alike(plain, world) {
        return Err(Fault::Differs(b"the rows differ\n"));
    }
    Ok(())
}
