// What the duties change.
ghost use Rattle.std.specs.Prelude.{◌≡◌, IfOk};
ghost use Rattle.swarm_alloc.specs.Allocating.{put_service};
ghost use Rattle.swarm_objects.specs.Changes.{change_service, change_task};
ghost use Rattle.swarm_objects.specs.Kinds.{role_of};
ghost use Rattle.swarm_objects.specs.Loops.Allocator.{
  after_address,
  after_note,
  after_port,
  new_addresses,
  with_addresses,
  with_exhausted,
  with_port,
};
ghost use Rattle.swarm_objects.specs.Rows.{row_at, service_id, task_id};
ghost use Rattle.swarm_objects.specs.declared.loops.Role.TheVariants as role;
ghost use Rattle.swarm_objects.specs.ChangeLists.{Makes, put_found};
ghost use Rattle.swarm_objects.specs.Effects.{after_duty};
ghost use Rattle.swarm_objects.specs.Usable.{IsUsable};

use crate::finding::exhausted_for;
use crate::free_numbers::free_port;
use crate::pooling::free_address;
use std::alloc::Global;
use swarm_objects::effects::set_note;
use swarm_objects::{
    Address, Change, Duplicate, Duty, Id, List, NoMemory, Note, PortNumber, Rows, Service, Task,
    TaskState, Version, add, list_of,
};

// Ports.

// The service with this number too, by the entry with this number.
fn with_port(
    alloc: Global,
    service: &Service,
    version: Version,
    number: PortNumber,
) -> Result<Service, NoMemory>
    ensures { IfOk result (λ row. row ≡ with_port version number service.now) }
{
    let mut row = service.duplicate(alloc)?;
    row.version = version;
    add(&mut row.numbers, number)?;
    Ok(row)
}

fn numberings<R: Rows>(
    alloc: Global,
    rows: &R,
    version: Version,
    id: Id,
    number: PortNumber,
) -> Result<List<Change>, NoMemory>
    ensures { let t = R.tables rows.now in
        IfOk result (λ changes. changes ≡ put_service (with_port version number) (row_at service_id id t.services)) }
{
    match rows.service(id) {
        Some(service) => list_of(
            alloc,
            Change::PutService(with_port(alloc, service, version, number)?),
        ),
        None => Ok(List::new(alloc)),
    }
}

// The service with this id has the number too, where it is there.
#[tactic(auto, using(crate::proofs::Applying::numberings_make))]
fn number_service<R: Rows>(
    alloc: Global,
    rows: &R,
    version: Version,
    id: Id,
    number: PortNumber,
) -> Result<List<Change>, NoMemory>
    requires { IsUsable (R.tables rows.now) }
    ensures { let t = R.tables rows.now in
        IfOk result (λ changes. Makes t changes (change_service id (with_port version number) t)) }
{
    numberings(alloc, rows, version, id, number)
}

// The least free number of the protocol goes to the service's port of this target.
fn give_port<R: Rows>(
    alloc: Global,
    rows: &R,
    version: Version,
    service: Id,
    target: u16,
    udp: bool,
) -> Result<List<Change>, NoMemory>
    requires { IsUsable (R.tables rows.now) }
    ensures { let t = R.tables rows.now in
        IfOk result (λ changes. Makes t changes (after_port version t service target udp)) }
{
    let Some(number) = free_port(rows, udp) else {
        return Ok(List::new(alloc));
    };
    let number = PortNumber {
        target,
        udp,
        number,
    };
    number_service(alloc, rows, version, service, number)
}

// Addresses.

// The least free address of each of the task's networks.
fn new_addresses<R: Rows>(alloc: Global, rows: &R, task: &Task) -> Result<List<Address>, NoMemory>
    requires { IsUsable (R.tables rows.now) }
    ensures { IfOk result (λ addresses. addresses ≡ new_addresses (R.tables rows.now) task.now) }
{
    let mut addresses = List::new(alloc);
    for network in task.template.networks.as_slice() {
        if let Some(number) = free_address(alloc, rows, *network)? {
            let network = *network;
            add(&mut addresses, Address { network, number })?;
        }
    }
    Ok(addresses)
}

// The task is PENDING with these addresses, since now, by the entry with this number.
fn with_addresses<R: Rows>(
    alloc: Global,
    rows: &R,
    version: Version,
    task: &Task,
) -> Result<Task, NoMemory>
    requires { IsUsable (R.tables rows.now) }
    ensures { let t = R.tables rows.now in IfOk result (λ row. row ≡ with_addresses version t task.now) }
{
    let mut row = task.duplicate(alloc)?;
    row.version = version;
    row.state = TaskState::Pending;
    row.since = rows.now();
    row.addresses = new_addresses(alloc, rows, task)?;
    row.note = Note::Empty;
    Ok(row)
}

fn addressings<R: Rows>(
    alloc: Global,
    rows: &R,
    version: Version,
    id: Id,
) -> Result<List<Change>, NoMemory>
    requires { IsUsable (R.tables rows.now) }
    ensures { let t = R.tables rows.now in
        IfOk result (λ changes. changes ≡ put_found (with_addresses version t) (row_at task_id id t.tasks)) }
{
    match rows.task(id) {
        Some(task) => list_of(
            alloc,
            Change::PutTask(with_addresses(alloc, rows, version, task)?),
        ),
        None => Ok(List::new(alloc)),
    }
}

// The task gets the least free address of each of its networks, where it is there.
#[tactic(auto, using(crate::proofs::Applying::addressings_make))]
fn address_task<R: Rows>(
    alloc: Global,
    rows: &R,
    version: Version,
    id: Id,
) -> Result<List<Change>, NoMemory>
    requires { IsUsable (R.tables rows.now) }
    ensures { let t = R.tables rows.now in
        IfOk result (λ changes. Makes t changes (after_address version t id)) }
{
    addressings(alloc, rows, version, id)
}

// Notes.

#[tactic(auto, using(crate::proofs::Applying::no_changes))]
fn note_task<R: Rows>(
    alloc: Global,
    rows: &R,
    version: Version,
    task: &Task,
) -> Result<List<Change>, NoMemory>
    requires { IsUsable (R.tables rows.now) }
    ensures { let t = R.tables rows.now in
        IfOk result (λ changes. Makes t changes (with_exhausted version t task.now)) }
{
    match exhausted_for(rows, task) {
        Some(note) => set_note(alloc, rows, version, task.id, note),
        None => Ok(List::new(alloc)),
    }
}

// The task's note says why it gets no address, where it is there.
#[tactic(auto, using(crate::proofs::Applying::no_changes))]
fn note_found<R: Rows>(
    alloc: Global,
    rows: &R,
    version: Version,
    id: Id,
) -> Result<List<Change>, NoMemory>
    requires { IsUsable (R.tables rows.now) }
    ensures { let t = R.tables rows.now in
        IfOk result (λ changes. Makes t changes (after_note version t id)) }
{
    match rows.task(id) {
        Some(task) => note_task(alloc, rows, version, task),
        None => Ok(List::new(alloc)),
    }
}

/// The changes that a duty of the allocator makes as the entry with this number. What isn't due any more may be asked
/// for too: a service or task that isn't there is left out. A pool of the numbers is built for each address that is
/// given.
pub fn changes<R: Rows>(
    alloc: Global,
    rows: &R,
    version: Version,
    duty: Duty,
) -> Result<List<Change>, NoMemory>
    requires usable { IsUsable (R.tables rows.now) }
    requires own { role_of duty ≡ role.Allocator }
    ensures { let t = R.tables rows.now in
        IfOk result (λ changes. Makes t changes (after_duty version t duty)) }
{
    match duty {
        Duty::Port(service, target, udp) => {
            give_port(alloc, rows, version, service, target, udp)
        }
        Duty::Address(task) => address_task(alloc, rows, version, task),
        Duty::Note(task) => note_found(alloc, rows, version, task),
        _ => Ok(List::new(alloc)),
    }
}
