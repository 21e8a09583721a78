// Calls that no line of a script is, and worlds that a script leaves unasked: want of memory may come in place of any
// answer, and no contract refuses that.
use std::alloc::Global;
use std::test::Fail;
use swarm_check::check_service;
use swarm_objects::{
    Call, Draft, List, NoMemory, Port, Query, Refusal, Reply, Shared, Template, add,
};
use swarm_plain::Plain;

// How many ids the reply has, or whether it is that of a halt.
fn shown(reply: &Reply) -> (Option<usize>, bool) {
    match reply {
        Reply::Txn(ids) => (Some(ids.len()), false),
        Reply::HaltDone => (None, true),
        _ => (None, false),
    }
}

// What a transaction of no operation, or a halt, is answered in the empty world, and how many entries there are then.
fn asked(alloc: Global, halts: bool) -> ((Option<usize>, bool), u64) {
    let mut plain = Plain::new(alloc);
    let reply = if halts {
        plain.call(&Call::Halt)
    } else {
        plain.call(&Call::Txn(List::new(alloc)))
    };
    let entries = plain.entries;
    drop(plain);
    let shown = shown(&reply);
    drop(reply);
    (shown, entries)
}

#[test]
fn calls_that_no_line_is(rt: HostRuntime) {
    let alloc = rt.alloc();
    assert_eq!(rt; asked(alloc, false), ((Some(0), false), 1));
    assert_eq!(rt; asked(alloc, true), ((None, true), 1));
}

// Why a call becomes no entry.
#[derive(Clone, Copy, Debug, PartialEq, Eq)]
enum Told {
    Halted,
    Full(u64),
    Other,
}

fn told_of(refused: &Option<Refusal>) -> Option<Told> {
    match refused {
        Some(Refusal::Halted) => Some(Told::Halted),
        Some(Refusal::Full(entries)) => Some(Told::Full(*entries)),
        Some(_) => Some(Told::Other),
        None => None,
    }
}

// Why a call becomes no entry of a world with so many.
fn refusal(alloc: Global, entries: u64, halted: bool, call: &Call) -> Option<Told> {
    let mut plain = Plain::new(alloc);
    plain.entries = entries;
    plain.halted = halted;
    let refused = plain.refuses(call);
    drop(plain);
    let told = told_of(&refused);
    drop(refused);
    told
}

fn list_refusal(alloc: Global, entries: u64, halted: bool) -> Option<Told> {
    let list = Call::View(Query::ListNodes);
    let told = refusal(alloc, entries, halted, &list);
    drop(list);
    told
}

fn halt_refusal(alloc: Global, entries: u64, halted: bool) -> Option<Told> {
    let halt = Call::Halt;
    let told = refusal(alloc, entries, halted, &halt);
    drop(halt);
    told
}

#[test]
fn no_entries(rt: HostRuntime) {
    let alloc = rt.alloc();
    let full = Some(Told::Full(300_000));
    assert_eq!(rt; list_refusal(alloc, 0, false), None);
    assert_eq!(rt; list_refusal(alloc, 299_999, false), None);
    assert_eq!(rt; list_refusal(alloc, 300_000, false), full);
    assert_eq!(rt; halt_refusal(alloc, 300_000, false), None);
}

#[test]
fn no_entries_once_it_has_halted(rt: HostRuntime) {
    let alloc = rt.alloc();
    let halted = Some(Told::Halted);
    assert_eq!(rt; halt_refusal(alloc, 300_001, true), halted);
    assert_eq!(rt; list_refusal(alloc, 1, true), halted);
    assert_eq!(rt; list_refusal(alloc, 300_001, true), halted);
}

fn add_open(ports: &mut List<Port>) -> Result<(), NoMemory> {
    let port = Port {
        target: 80,
        number: None,
        udp: false,
    };
    add(ports, port)?;
    add(ports, port)
}

// Whether a service may have the same host port twice, where it has no number. In a line each host port has one.
fn may_stay_open(alloc: Global) -> Result<bool, NoMemory> {
    let mut template = Template::usual(alloc);
    add_open(&mut template.host_ports)?;
    let template = Shared::new(alloc, template)?;
    let mut draft = Draft::usual(alloc)?;
    draft.spec.template = template;
    let checked = check_service(&draft);
    drop(draft);
    Ok(checked.is_ok())
}

#[test]
fn host_ports_without_numbers(rt: HostRuntime) -> Result<(), Fail> {
    assert!(rt; may_stay_open(rt.alloc())?);
    Ok(())
}
