// Tasks that wait for addresses, and for port numbers of their services: they are touched by changes of what others
// hold.
ghost use Rattle.std.specs.Prelude.{◌≡◌, IsTrue, []};
ghost use Rattle.swarm_objects.specs.Services.Ports.{ports_of};
ghost use Rattle.swarm_objects.specs.declared.rows.Change.TheVariants as change;
ghost use Rattle.swarm_spans.specs.Holding.{
  AreAmong,
  EachPasses,
  FreesNone,
  HoldSamePorts,
  HoldsOn,
  KeepsPorts,
  TouchesWhere,
  held,
  held_at,
};
ghost use Rattle.swarm_spans.specs.Spans.{IsWider};

use crate::span::Span;
use swarm_objects::{Change, Id, Rows, Same, Service, ServiceSpec, Task};

// It is known that the task holds no address.
#[tactic(auto, using(crate::proofs::Holders::held_steps))]
fn holds_none(task: &Task) -> bool
    ensures { IsTrue result → AreAmong (held task.now) [] }
{
    if !task.is_not_over() {
        return true;
    }
    task.addresses.as_slice().is_empty()
}

// It is known that the other task holds each address that this one holds.
#[tactic(auto, using(crate::proofs::Holders::held_steps))]
fn passes_on(task: &Task, other: &Task) -> bool
    ensures { IsTrue result → AreAmong (held task.now) (held other.now) }
{
    if holds_none(task) {
        return true;
    }
    if !other.is_not_over() {
        return false;
    }
    if !task.addresses.same(&other.addresses) {
        return false;
    }
    true
}

// The put of the task sets no address free.
#[tactic(auto, using(crate::proofs::Holders::held_steps))]
fn put_frees_none<R: Rows>(rows: &R, task: &Task) -> bool
    ensures { IsTrue result → AreAmong (held_at (R.tables rows.now) task.now.id) (held task.now) }
{
    match rows.task(task.id) {
        Some(old) => passes_on(old, task),
        None => true,
    }
}

// It sets none free, and takes none.
#[tactic(auto, using(crate::proofs::Holders::held_steps))]
fn put_holds_on<R: Rows>(rows: &R, task: &Task) -> bool
    ensures { IsTrue result → HoldsOn (R.tables rows.now) (change.PutTask task.now) }
{
    match rows.task(task.id) {
        Some(old) => passes_on(old, task) && passes_on(task, old),
        None => holds_none(task),
    }
}

// The task that goes held none.
#[tactic(auto, using(crate::proofs::Holders::held_steps))]
fn drop_frees_none<R: Rows>(rows: &R, id: Id) -> bool
    ensures { IsTrue result → AreAmong (held_at (R.tables rows.now) id) [] }
{
    match rows.task(id) {
        Some(old) => holds_none(old),
        None => true,
    }
}

// It is known that both name the same ports, where one is there.
#[tactic(auto, using(crate::proofs::Holders::port_steps))]
fn name_same_ports(old: &Option<ServiceSpec>, new: &Option<ServiceSpec>) -> bool
    ensures { IsTrue result → ports_of new.now ≡ ports_of old.now }
{
    match (old, new) {
        (Some(old), Some(new)) => old.ports.same(&new.ports),
        (Some(one), None) | (None, Some(one)) => one.ports.as_slice().is_empty(),
        (None, None) => true,
    }
}

// It is known that both services hold the same port numbers.
#[tactic(auto, using(crate::proofs::Holders::port_steps))]
fn hold_same_ports(old: &Service, new: &Service) -> bool
    ensures { IsTrue result → HoldSamePorts old.now new.now }
{
    if !old.spec.ports.same(&new.spec.ports) {
        return false;
    }
    if !old.numbers.same(&new.numbers) {
        return false;
    }
    if !name_same_ports(&old.previous, &new.previous) {
        return false;
    }
    true
}

// The put of the service neither takes a port number nor sets one free.
#[tactic(auto, using(crate::proofs::Holders::port_steps))]
fn put_keeps_ports<R: Rows>(rows: &R, service: &Service) -> bool
    ensures { IsTrue result → KeepsPorts (R.tables rows.now) service.now }
{
    match rows.service(service.id) {
        Some(old) => hold_same_ports(old, service),
        None => true,
    }
}

// It is known that the change sets no address free.
fn frees_none<R: Rows>(rows: &R, change: &Change) -> bool
    ensures { IsTrue result → FreesNone (R.tables rows.now) change.now }
{
    match change {
        Change::PutTask(task) => put_frees_none(rows, task),
        Change::DropTask(id) => drop_frees_none(rows, *id),
        Change::PutNode(_) | Change::PutService(_) | Change::Keep(_) => true,
    }
}

// It is known that what is free of addresses and port numbers stays the same.
fn holds_on<R: Rows>(rows: &R, change: &Change) -> bool
    ensures { IsTrue result → HoldsOn (R.tables rows.now) change.now }
{
    match change {
        Change::PutTask(task) => put_holds_on(rows, task),
        Change::DropTask(id) => drop_frees_none(rows, *id),
        Change::PutService(service) => put_keeps_ports(rows, service),
        Change::PutNode(_) | Change::Keep(_) => true,
    }
}

#[tactic(auto, using(crate::proofs::Holders::pass_steps))]
fn free_none<R: Rows>(rows: &R, changes: &[Change]) -> bool
    ensures { IsTrue result → EachPasses (FreesNone (R.tables rows.now)) changes.now }
{
    let mut left = changes;
    while let Some((change, others)) = left.split_first() {
        if !frees_none(rows, change) {
            return false;
        }
        left = others;
    }
    true
}

#[tactic(auto, using(crate::proofs::Holders::pass_steps))]
fn hold_on<R: Rows>(rows: &R, changes: &[Change]) -> bool
    ensures { IsTrue result → EachPasses (HoldsOn (R.tables rows.now)) changes.now }
{
    let mut left = changes;
    while let Some((change, others)) = left.split_first() {
        if !holds_on(rows, change) {
            return false;
        }
        left = others;
    }
    true
}

/// What the changes touch of the tasks to get addresses by what others hold: all of those that wait, where an address
/// may be set free, or none.
#[tactic(auto, using(crate::proofs::Grown::over_steps))]
pub fn touch_freed<R: Rows>(rows: &R, changes: &[Change], waiting: &Span, span: &mut Span)
    ensures wider { IsWider span.new span.old }
    ensures touches { TouchesWhere (FreesNone (R.tables rows.now)) changes.now waiting.now span.new }
{
    if !waiting.is_over() && !free_none(rows, changes) {
        span.join(*waiting);
    }
}

/// What the changes touch of the tasks to be told why they get none: all of those that wait, where what is free may be
/// another, or none.
#[tactic(auto, using(crate::proofs::Grown::over_steps))]
pub fn touch_held<R: Rows>(rows: &R, changes: &[Change], waiting: &Span, span: &mut Span)
    ensures wider { IsWider span.new span.old }
    ensures touches { TouchesWhere (HoldsOn (R.tables rows.now)) changes.now waiting.now span.new }
{
    if !waiting.is_over() && !hold_on(rows, changes) {
        span.join(*waiting);
    }
}
