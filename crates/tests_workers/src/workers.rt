//! What no clause says of workers: that they make turns at all, and in threads of their own.
use crate::gates::Holding;
use crate::runs::journal_of;
use std::test::Fail;
use swarm_objects::MemorySink;

// The journal as a text; one that isn't UTF-8 is none.
fn text_of(journal: &MemorySink) -> &str {
    str::from_utf8(journal.bytes()).unwrap_or("")
}

fn has_entry_of_worker_1(journal: &MemorySink) -> bool {
    text_of(journal).contains("\n1 ")
}

#[test]
fn two_workers_at_once(rt: HostRuntime) -> Result<(), Fail> {
    let gate = Holding::new(2, 7);
    let journal = journal_of(
        &rt,
        rt.alloc(),
        "run --workers 2",
        "node join n1 cpu=2000 mem=1073741824\nservice create web replicas=2\n",
        "wait 10\nsettle\nlist tasks\n",
        &gate,
    )?;
    assert!(rt; gate.was_kept());
    assert!(rt; has_entry_of_worker_1(&journal));
    Ok(())
}

// The calls of both lines, and then the duties of worker 1 in the order of its turns.
fn begins_with_duties_of_worker_1(journal: &MemorySink) -> bool {
    let calls = "swarm journal 1\n0 node join n1\n0 service create web\n";
    let duties = "1 duty replicated create 2 1\n1 duty allocator address 3\n\
        1 duty scheduler explain 3\n1 duty agents register 1\n";
    match text_of(journal).strip_prefix(calls) {
        Some(rest) => rest.starts_with(duties),
        None => false,
    }
}

fn has_duty_of_caller_0(journal: &MemorySink) -> bool {
    text_of(journal).contains("\n0 duty ")
}

#[test]
fn one_worker_makes_duties(rt: HostRuntime) -> Result<(), Fail> {
    let gate = Holding::new(1, 12);
    let lines = "node join n1\nservice create web\n";
    let journal = journal_of(&rt, rt.alloc(), "run --workers 1", lines, "", &gate)?;
    assert!(rt; gate.was_kept());
    assert!(rt; begins_with_duties_of_worker_1(&journal));
    assert!(rt; !has_duty_of_caller_0(&journal));
    Ok(())
}
