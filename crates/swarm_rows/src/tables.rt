// Tables: many runs of one script, and what is seen of each in a line.
use crate::heads::Head;
use crate::lines::{lines_of, push_digits};
use crate::runs::{Ended, run};
use std::mem;
use std::sync::Wait;
use std::thread::Threads;
use swarm_objects::{FailedPut, NoMemory};

// A number, and what stands behind it.
fn push_count(seen: &mut Vec<u8>, count: u64, behind: &[u8]) -> Result<(), NoMemory> {
    push_digits(seen, count)?;
    Ok(seen.extend_from_slice(behind)?)
}

// The run has the whole output, and of the journal no other bytes than its first ones.
fn is_part(ended: &Ended, whole: &Ended) -> bool {
    ended.out.bytes() == whole.out.bytes()
        && whole.journal.bytes().starts_with(ended.journal.bytes())
}

// The fault, the status, and how many bytes of the whole run's journal are kept.
fn push_stop(
    seen: &mut Vec<u8>,
    fault: FailedPut,
    stopped: &Result<Ended, NoMemory>,
    whole: &Ended,
) -> Result<(), NoMemory> {
    let Ok(ended) = stopped else {
        return Err(NoMemory);
    };
    push_count(seen, fault.call, b"+")?;
    push_count(seen, fault.taken as u64, b" ")?;
    push_count(seen, u64::from(ended.status), b" ")?;
    if is_part(ended, whole) {
        push_count(seen, ended.journal.bytes().len() as u64, b"\n")
    } else {
        Ok(seen.extend_from_slice(b"other\n")?)
    }
}

// Runs the script with a journal that fails so.
fn push_stopped<R: Threads + Wait + Sync + AllocGlobal>(
    rt: &R,
    seen: &mut Vec<u8>,
    head: &Head<'_>,
    script: &[u8],
    whole: &Ended,
    fault: FailedPut,
) -> Result<(), NoMemory> {
    let mut failing = *head;
    failing.put = Some(fault);
    let stopped = run(rt, &failing, script);
    let pushed = push_stop(seen, fault, &stopped, whole);
    drop(stopped);
    pushed
}

// The runs in which the journal fails at each of its lines, and at one more, after no byte and after one.
pub(crate) fn push_stops<R: Threads + Wait + Sync + AllocGlobal>(
    rt: &R,
    seen: &mut Vec<u8>,
    head: &Head<'_>,
    script: &[u8],
    whole: &Ended,
) -> Result<(), NoMemory> {
    seen.extend_from_slice(b"- stops\n")?;
    for call in 1..=lines_of(whole.journal.bytes()).saturating_add(1) {
        push_stopped(rt, seen, head, script, whole, FailedPut { call, taken: 0 })?;
        push_stopped(rt, seen, head, script, whole, FailedPut { call, taken: 1 })?;
    }
    Ok(())
}

// The status and the output of a run.
fn push_output(answer: &mut Vec<u8>, run: &Result<Ended, NoMemory>) -> Result<(), NoMemory> {
    let Ok(ended) = run else {
        return Err(NoMemory);
    };
    push_count(answer, u64::from(ended.status), b" ")?;
    Ok(answer.extend_from_slice(ended.out.bytes())?)
}

// The status and the output of the script's run.
fn push_answer<R: Threads + Wait + Sync + AllocGlobal>(
    rt: &R,
    answer: &mut Vec<u8>,
    head: &Head<'_>,
    script: &[u8],
) -> Result<(), NoMemory> {
    let run = run(rt, head, script);
    let pushed = push_output(answer, &run);
    drop(run);
    pushed
}

// The answer to a script, and the one to the script before it.
#[derive(Drop)]
struct Answers {
    last: Vec<u8>,
    next: Vec<u8>,
}

// Where several answers in a row are alike, the first one is pushed.
fn push_answers<R: Threads + Wait + Sync + AllocGlobal>(
    rt: &R,
    seen: &mut Vec<u8>,
    head: &Head<'_>,
    script: &[u8],
    answers: &mut Answers,
) -> Result<(), NoMemory> {
    for count in 0..=script.len() {
        answers.next.clear();
        push_answer(rt, &mut answers.next, head, &script[..count])?;
        if answers.next.as_slice() != answers.last.as_slice() {
            push_count(seen, count as u64, b" ")?;
            seen.extend_from_slice(answers.next.as_slice())?;
            mem::swap(&mut answers.last, &mut answers.next);
        }
    }
    Ok(())
}

// The answers to the script cut after each of its bytes.
pub(crate) fn push_cuts<R: Threads + Wait + Sync + AllocGlobal>(
    rt: &R,
    seen: &mut Vec<u8>,
    head: &Head<'_>,
    script: &[u8],
) -> Result<(), NoMemory> {
    seen.extend_from_slice(b"- cuts\n")?;
    let mut answers = Answers {
        last: Vec::new(rt.alloc()),
        next: Vec::new(rt.alloc()),
    };
    let pushed = push_answers(rt, seen, head, script, &mut answers);
    drop(answers);
    pushed
}
