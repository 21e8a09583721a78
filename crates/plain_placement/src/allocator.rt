// The allocator's duties: numbers for open ports, addresses for tasks, and why there are none.
ghost use Rattle.std.specs.Prelude.{◌≡◌, ◌++◌, ◌==◌, ◌&&◌, IfOk, OnErr, OnOk, flat_map, not, true};
ghost use Rattle.std.specs.List.{list_all, list_any, position};
ghost use Rattle.plain_placement.specs.Allocating.{gets_number, given_addresses, is_open_port, is_to_address, is_to_note, is_to_number};
ghost use Rattle.swarm_objects.specs.Changes.{noted};
ghost use Rattle.swarm_objects.specs.Duties.{effect_by, is_due};
ghost use Rattle.swarm_objects.specs.Loops.Allocator.{allocator, exhausted, exhausted_for, exhausted_network, exhausted_port, gets_address, has_free_address, has_free_port, has_numbered_ports, is_fresh, new_addresses, port_duties, same_note, wants_note, with_port};
ghost use Rattle.swarm_objects.specs.Loops.Words.{duty_where};
ghost use Rattle.swarm_objects.specs.Rows.{IsRising, change_row, service_id, task_id};
ghost use Rattle.swarm_objects.specs.Services.Ports.{is_unnumbered};
ghost use Rattle.swarm_objects.specs.Services.Words.{is_service_and};
ghost use Rattle.swarm_objects.specs.Sound.{is_subnet};
ghost use Rattle.swarm_plain.specs.Entries.{HasOrder};
ghost use Rattle.swarm_plain.specs.Plain.{tables_of, world_of};

use crate::free_numbers::{free_address, free_port, has_free_address, has_free_port};
use swarm_alloc::{has_numbered_ports, is_unnumbered, same_note};
use swarm_objects::{
    Address, Duty, Id, Keyed, List, Ms, NoMemory, Note, Port, PortNumber, Rows, Service, Task,
    TaskState, Version, add,
};
use swarm_plain::Plain;

// The port can get a number.
fn gets_number(plain: &Plain, service: &Service, port: Port) -> bool
    ensures { result ≡ gets_number (tables_of plain.now) service.now port }
{
    is_unnumbered(service, port) && has_free_port(plain, port.udp)
}

// The task is NEW, wanted, and its service is there.
fn is_fresh(plain: &Plain, task: &Task) -> bool
    ensures { result ≡ is_fresh (tables_of plain.now) task.now }
{
    task.state.is_new() && task.is_wanted() && task.has_service(plain)
}

// Each port of the task's service has a number.
fn has_numbered_service(plain: &Plain, task: &Task) -> bool
    ensures { result ≡ is_service_and (tables_of plain.now) has_numbered_ports task.now }
{
    match plain.service(task.service) {
        Some(service) => has_numbered_ports(service),
        None => false,
    }
}

fn has_free_addresses(plain: &Plain, networks: &[Id]) -> bool
    ensures { result ≡ list_all (has_free_address (tables_of plain.now)) networks.now }
{
    networks
        .iter()
        .all(|network| has_free_address(plain, *network))
}

// The task can get its addresses.
fn gets_address(plain: &Plain, task: &Task) -> bool
    ensures { result ≡ gets_address (tables_of plain.now) task.now }
{
    is_fresh(plain, task)
        && has_numbered_service(plain, task)
        && has_free_addresses(plain, task.template.networks.as_slice())
}

// The port has no number, and its protocol none that is free.
fn is_exhausted(plain: &Plain, service: &Service, port: Port) -> bool
    ensures { result ≡ (is_unnumbered service.now port && not (has_free_port (tables_of plain.now) port.udp)) }
{
    is_unnumbered(service, port) && !has_free_port(plain, port.udp)
}

// The first port without a number whose protocol has none that is free.
fn exhausted_port(plain: &Plain, service: &Service) -> Option<Port>
    ensures { result ≡ exhausted_port (tables_of plain.now) service.now }
{
    for port in service.spec.ports.as_slice() {
        if is_exhausted(plain, service, *port) {
            return Some(*port);
        }
    }
    None
}

// The first of the task's networks that has no free address.
fn exhausted_network(plain: &Plain, task: &Task) -> Option<Id>
    ensures { result ≡ exhausted_network (tables_of plain.now) task.now }
{
    for network in task.template.networks.as_slice() {
        if !has_free_address(plain, *network) {
            return Some(*network);
        }
    }
    None
}

// The first thing of which none is free.
fn exhausted(plain: &Plain, task: &Task, service: &Service) -> Option<Note>
    ensures { result ≡ exhausted (tables_of plain.now) task.now service.now }
{
    if let Some(port) = exhausted_port(plain, service) {
        return Some(Note::NoPort(port.udp));
    }
    match exhausted_network(plain, task) {
        Some(network) => Some(Note::NoAddress(network)),
        None => None,
    }
}

fn exhausted_for(plain: &Plain, task: &Task) -> Option<Note>
    ensures { result ≡ exhausted_for (tables_of plain.now) task.now }
{
    match plain.service(task.service) {
        Some(service) => exhausted(plain, task, service),
        None => None,
    }
}

// The task can get no address, for another reason than its note says.
fn wants_note(plain: &Plain, task: &Task) -> bool
    ensures { result ≡ wants_note (tables_of plain.now) task.now }
{
    if !is_fresh(plain, task) {
        return false;
    }
    match exhausted_for(plain, task) {
        Some(note) => !same_note(note, task.note),
        None => false,
    }
}

// Adds the service's ports that can get a number.
fn add_ports_of(plain: &Plain, service: &Service, duties: &mut List<Duty>) -> Result<(), NoMemory>
    ensures { OnOk result (duties.new ≡ duties.old ++ port_duties (tables_of plain.now) service.now) }
{
    for port in service.spec.ports.as_slice() {
        if gets_number(plain, service, *port) {
            add(duties, Duty::Port(service.id, port.target, port.udp))?;
        }
    }
    Ok(())
}

// Adds those of all services.
fn add_ports(plain: &Plain, duties: &mut List<Duty>) -> Result<(), NoMemory>
    ensures { let t = tables_of plain.now in
        OnOk result (duties.new ≡ duties.old ++ flat_map (port_duties t) t.services) }
{
    for service in plain.services.as_slice() {
        add_ports_of(plain, service, duties)?;
    }
    Ok(())
}

// Adds the tasks that can get their addresses.
fn add_addresses(plain: &Plain, duties: &mut List<Duty>) -> Result<(), NoMemory>
    ensures { let t = tables_of plain.now in
        OnOk result (duties.new ≡ duties.old ++ duty_where (gets_address t) (λ x. Duty.Address x.id) t.tasks) }
{
    for task in plain.tasks.as_slice() {
        if gets_address(plain, task) {
            add(duties, Duty::Address(task.id))?;
        }
    }
    Ok(())
}

// Adds the tasks that are to get a note.
fn add_notes(plain: &Plain, duties: &mut List<Duty>) -> Result<(), NoMemory>
    ensures { let t = tables_of plain.now in
        OnOk result (duties.new ≡ duties.old ++ duty_where (wants_note t) (λ x. Duty.Note x.id) t.tasks) }
{
    for task in plain.tasks.as_slice() {
        if wants_note(plain, task) {
            add(duties, Duty::Note(task.id))?;
        }
    }
    Ok(())
}

/// The ports that get numbers, the tasks that get addresses, and those that get a note since they can't.
pub fn allocator_duties(plain: &Plain) -> Result<List<Duty>, NoMemory>
    ensures { IfOk result (λ duties. duties ≡ allocator (tables_of plain.now)) }
{
    let mut duties = List::new(plain.alloc);
    add_ports(plain, &mut duties)?;
    add_addresses(plain, &mut duties)?;
    add_notes(plain, &mut duties)?;
    Ok(duties)
}

// The port has this target and protocol, and can get a number.
fn is_open_port(plain: &Plain, target: u16, udp: bool, service: &Service, port: Port) -> bool
    ensures { result ≡ is_open_port (tables_of plain.now) target udp service.now port }
{
    port.target == target && port.udp == udp && gets_number(plain, service, port)
}

// A port of the service is such a one.
fn has_open_port(plain: &Plain, target: u16, udp: bool, service: &Service) -> bool
    ensures { result ≡
        list_any (is_open_port (tables_of plain.now) target udp service.now) service.now.spec.ports }
{
    service
        .spec
        .ports
        .as_slice()
        .iter()
        .any(|port| is_open_port(plain, target, udp, service, *port))
}

// The service is this one, and has such a port.
fn is_to_number(plain: &Plain, id: Id, target: u16, udp: bool, service: &Service) -> bool
    ensures { result ≡ is_to_number (tables_of plain.now) id target udp service.now }
{
    service.id == id && has_open_port(plain, target, udp, service)
}

// A service is such a one.
fn has_to_number(plain: &Plain, id: Id, target: u16, udp: bool) -> bool
    ensures { let t = tables_of plain.now in
        result ≡ list_any (is_to_number t id target udp) t.services }
{
    plain
        .services
        .as_slice()
        .iter()
        .any(|service| is_to_number(plain, id, target, udp, service))
}

/// Whether the service's port of this target and protocol is to get its number.
pub fn is_port_due(plain: &Plain, service: Id, target: u16, udp: bool) -> bool
    ensures { result ≡ is_due (world_of plain.now) (Duty.Port service target udp) }
{
    has_to_number(plain, service, target, udp)
}

// The task is this one, and can get its addresses.
fn is_to_address(plain: &Plain, id: Id, task: &Task) -> bool
    ensures { result ≡ is_to_address (tables_of plain.now) id task.now }
{
    task.id == id && gets_address(plain, task)
}

// A task is such a one.
fn has_to_address(plain: &Plain, id: Id) -> bool
    ensures { let t = tables_of plain.now in result ≡ list_any (is_to_address t id) t.tasks }
{
    plain
        .tasks
        .as_slice()
        .iter()
        .any(|task| is_to_address(plain, id, task))
}

/// Whether the task is to get its addresses.
pub fn is_address_due(plain: &Plain, task: Id) -> bool
    ensures { result ≡ is_due (world_of plain.now) (Duty.Address task) }
{
    has_to_address(plain, task)
}

// The task is this one, and is to get a note.
fn is_to_note(plain: &Plain, id: Id, task: &Task) -> bool
    ensures { result ≡ is_to_note (tables_of plain.now) id task.now }
{
    task.id == id && wants_note(plain, task)
}

// A task is such a one.
fn has_to_note(plain: &Plain, id: Id) -> bool
    ensures { let t = tables_of plain.now in result ≡ list_any (is_to_note t id) t.tasks }
{
    plain
        .tasks
        .as_slice()
        .iter()
        .any(|task| is_to_note(plain, id, task))
}

/// Whether the task is to get a note.
pub fn is_note_due(plain: &Plain, task: Id) -> bool
    ensures { result ≡ is_due (world_of plain.now) (Duty.Note task) }
{
    has_to_note(plain, task)
}

// The place of the row with this id.
fn place_of<T: Keyed>(rows: &[T], id: Id) -> Option<usize>
    ensures { result ≡ position (λ row. T.key_of row == id) rows.now }
{
    rows.iter().position(|row| row.key() == id)
}

// The service has this number too. Want of memory changes nothing.
fn take_number(service: &mut Service, version: Version, number: PortNumber) -> Result<(), NoMemory>
    ensures ok { OnOk result (service.new ≡ with_port version number service.old) }
    ensures err { OnErr result (service.new ≡ service.old) }
{
    add(&mut service.numbers, number)?;
    service.version = version;
    Ok(())
}

// The service with this id has it. Want of memory changes nothing.
fn number_service(
    services: &mut [Service],
    version: Version,
    id: Id,
    number: PortNumber,
) -> Result<(), NoMemory>
    requires { IsRising service_id services.old }
    ensures ok { OnOk result (services.new ≡ change_row service_id id (with_port version number) services.old) }
    ensures err { OnErr result (services.new ≡ services.old) }
{
    match place_of(services, id) {
        Some(at) => take_number(&mut services[at], version, number),
        None => Ok(()),
    }
}

/// The least free number of the protocol goes to the service's port of this target.
pub fn give_port(
    plain: &mut Plain,
    version: Version,
    service: Id,
    target: u16,
    udp: bool,
) -> Result<(), NoMemory>
    requires { HasOrder (tables_of plain.old) }
    ensures ok { let w = world_of plain.old in
        OnOk result (world_of plain.new ≡ effect_by version w (Duty.Port service target udp)) }
    ensures err { OnErr result (world_of plain.new ≡ world_of plain.old) }
{
    let Some(number) = free_port(plain, udp) else {
        return Ok(());
    };
    let number = PortNumber {
        target,
        udp,
        number,
    };
    number_service(plain.services.as_mut_slice(), version, service, number)
}

// An address of each of the task's networks.
fn new_addresses(plain: &Plain, task: &Task) -> Result<List<Address>, NoMemory>
    requires { list_all is_subnet (tables_of plain.now).networks ≡ true }
    ensures { IfOk result (λ addresses. addresses ≡ new_addresses (tables_of plain.now) task.now) }
{
    let mut addresses = List::new(plain.alloc);
    for network in task.template.networks.as_slice() {
        if let Some(number) = free_address(plain, *network) {
            let number = number as u32;
            add(
                &mut addresses,
                Address {
                    network: *network,
                    number,
                },
            )?;
        }
    }
    Ok(addresses)
}

// The task is PENDING now, with these addresses and an empty note.
fn take_addresses(task: &mut Task, version: Version, now: Ms, addresses: List<Address>)
    ensures { task.new ≡ given_addresses version now addresses task.old }
{
    task.version = version;
    task.state = TaskState::Pending;
    task.since = now;
    task.addresses = addresses;
    task.note = Note::Empty;
}

// So is the task with this id.
fn address(tasks: &mut [Task], version: Version, now: Ms, addresses: List<Address>, id: Id)
    requires { IsRising task_id tasks.old }
    ensures { tasks.new ≡ change_row task_id id (given_addresses version now addresses) tasks.old }
{
    if let Some(at) = place_of(tasks, id) {
        take_addresses(&mut tasks[at], version, now, addresses);
    }
}

/// The task gets the least free address of each of its networks.
pub fn address_task(plain: &mut Plain, version: Version, task: Id) -> Result<(), NoMemory>
    requires order { HasOrder (tables_of plain.old) }
    requires subnets { list_all is_subnet (tables_of plain.old).networks ≡ true }
    ensures ok { OnOk result (world_of plain.new ≡ effect_by version (world_of plain.old) (Duty.Address task)) }
    ensures err { OnErr result (world_of plain.new ≡ world_of plain.old) }
{
    let Some(waiting) = plain.task(task) else {
        return Ok(());
    };
    let addresses = new_addresses(plain, waiting)?;
    address(
        plain.tasks.as_mut_slice(),
        version,
        plain.clock,
        addresses,
        task,
    );
    Ok(())
}

// The note of the task with this id is this one now.
pub(crate) fn set_note(tasks: &mut [Task], version: Version, note: Note, id: Id)
    ensures { tasks.new ≡ change_row task_id id (noted version note) tasks.old }
{
    for task in tasks.iter_mut() {
        if task.id == id {
            task.version = version;
            task.note = note;
        }
    }
}

/// The task's note says why it gets no address.
pub fn note_task(plain: &mut Plain, version: Version, task: Id)
    ensures { world_of plain.new ≡ effect_by version (world_of plain.old) (Duty.Note task) }
{
    let Some(waiting) = plain.task(task) else {
        return;
    };
    let id = waiting.id;
    let Some(note) = exhausted_for(plain, waiting) else {
        return;
    };
    set_note(plain.tasks.as_mut_slice(), version, note, id);
}
