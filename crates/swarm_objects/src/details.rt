// What queries show of a row by itself.
ghost use Rattle.std.specs.Prelude.{◌≡◌, IfOk, find, map};
ghost use Rattle.std.specs.Option.{option_copied};
ghost use Rattle.swarm_objects.specs.Services.Ports.{gives_number};
ghost use Rattle.swarm_objects.specs.Shown.{detail_counted, service_counted, status_of, is_shown_running, network_detail, node_detail, number_of, numbered};

use crate::ports::gives_number;
use crate::views::{NetworkDetail, NodeDetail, ServiceDetail, ServiceShown};
use crate::{
    Address, Duplicate, List, Network, NoMemory, Node, Port, PortNumber, RunStatus, Service, Task,
    add,
};
use std::alloc::Global;

/// What an inspected node shows.
pub fn node_detail(alloc: Global, node: &Node) -> Result<NodeDetail, NoMemory>
    ensures { IfOk result (λ detail. detail ≡ node_detail node.now) }
{
    Ok(NodeDetail {
        id: node.id,
        version: node.version,
        name: node.name.duplicate(alloc)?,
        labels: node.labels.duplicate(alloc)?,
        role: node.role,
        availability: node.availability,
        state: node.state,
        cpu: node.cpu,
        mem: node.mem,
    })
}

/// What an inspected network shows.
pub fn network_detail(alloc: Global, network: &Network) -> Result<NetworkDetail, NoMemory>
    ensures { IfOk result (λ detail. detail ≡ network_detail network.now) }
{
    Ok(NetworkDetail {
        id: network.id,
        version: network.version,
        name: network.name.duplicate(alloc)?,
        base: network.base,
        length: network.length,
    })
}

// The first number that this open port was given.
fn given_number<'a>(numbers: &'a [PortNumber], port: Port) -> Option<&'a PortNumber>
    ensures { option_copied result ≡ find (gives_number port) numbers.now }
{
    numbers.iter().find(|given| gives_number(port, **given))
}

// The port's own number, or the one that it was given.
fn number_of(numbers: &[PortNumber], port: Port) -> Option<u16>
    ensures { result ≡ number_of numbers.now port port.number }
{
    match port.number {
        Some(number) => Some(number),
        None => match given_number(numbers, port) {
            Some(given) => Some(given.number),
            None => None,
        },
    }
}

fn numbered(numbers: &[PortNumber], port: Port) -> Port
    ensures { result ≡ numbered numbers.now port }
{
    Port {
        target: port.target,
        number: number_of(numbers, port),
        udp: port.udp,
    }
}

/// Its ingress ports, each with its number.
pub fn numbered_ports(alloc: Global, service: &Service) -> Result<List<Port>, NoMemory>
    ensures { IfOk result (λ ports. ports ≡ map (numbered service.now.numbers) service.now.spec.ports) }
{
    let mut ports = List::new(alloc);
    for port in service.spec.ports.as_slice() {
        add(&mut ports, numbered(service.numbers.as_slice(), *port))?;
    }
    Ok(ports)
}

/// The numbers of the addresses.
pub fn address_numbers(alloc: Global, addresses: &[Address]) -> Result<List<u32>, NoMemory>
    ensures { IfOk result (λ numbers. numbers ≡ map (λ address. address.number) addresses.now) }
{
    let mut numbers = List::new(alloc);
    for address in addresses {
        add(&mut numbers, address.number)?;
    }
    Ok(numbers)
}

/// It is a live task of the service that was seen running.
pub fn is_shown_running(service: &Service, task: &Task) -> bool
    ensures { result ≡ is_shown_running service.now task.now }
{
    task.is_of(service.id) && task.is_live() && task.is_running()
}

/// How the service's last update stands, if there was one.
pub fn status_of(service: &Service) -> Option<RunStatus>
    ensures { result ≡ status_of service.now }
{
    match &service.run {
        Some(run) => Some(run.status),
        None => None,
    }
}

/// What a list of services shows of one that has so many running tasks and is to have so many.
pub fn service_counted(
    alloc: Global,
    service: &Service,
    running: u64,
    wanted: u64,
) -> Result<ServiceShown, NoMemory>
    ensures { IfOk result (λ row. row ≡ service_counted running wanted service.now) }
{
    Ok(ServiceShown {
        id: service.id,
        name: service.name.duplicate(alloc)?,
        mode: service.spec.mode,
        running,
        wanted,
        update: status_of(service),
    })
}

/// What an inspected service shows, that has so many running tasks and is to have so many.
pub fn detail_counted(
    alloc: Global,
    service: &Service,
    running: u64,
    wanted: u64,
) -> Result<ServiceDetail, NoMemory>
    ensures { IfOk result (λ detail. detail ≡ detail_counted running wanted service.now) }
{
    Ok(ServiceDetail {
        id: service.id,
        version: service.version,
        name: service.name.duplicate(alloc)?,
        mode: service.spec.mode,
        running,
        wanted,
        update: status_of(service),
        ports: numbered_ports(alloc, service)?,
    })
}
