// How often services name each port number, counted.
ghost use Rattle.std.specs.Prelude.{◌≡◌, ◌-◌, ◌^◌, if◌then◌else◌, ◌==◌, ℕ, Bool, IfOk, None, Some, count_by, false, min, nat_lt};
ghost use Rattle.std.specs.Prelude.{slice_get, true};
ghost use Rattle.std.specs.Option.{option_map};
ghost use Rattle.swarm_objects.specs.Services.Ports.{has_port_number, is_numbered, ports_of};
ghost use Rattle.store_ports.specs.Counts.{AreNone, MovesAll, all_numbers, count_of, known, moved, once, times};

use std::alloc::Global;
use std::marker::Model;
use swarm_objects::{NoMemory, Port, PortNumber, Service, ServiceSpec};

// How many numbers a protocol has.
const NUMBERS: usize = 65_536;

/// The counts of the numbers of both protocols, 256 KB. A count that reached its end, 65,535, stays there and tells
/// nothing.
#[derive(Drop)]
pub struct PortCounts {
    tcp: Vec<u16>,
    udp: Vec<u16>,
}

impl Model for PortCounts {
    ghost use Rattle.store_ports.specs.Counts.{Counts};

    ghost Value = { Counts };

    ghost view = { λ c. record { tcp = c.tcp.items; udp = c.udp.items } };
}

// So many counts of 0.
#[tactic(auto, using(crate::proofs::Counting::all_none))]
fn no_counts(alloc: Global) -> Result<Vec<u16>, NoMemory>
    ensures { IfOk result (λ counts. (n : ℕ) →
        slice_get counts.items n ≡ (if nat_lt n all_numbers then Some 0 else None)) }
{
    let mut counts = Vec::new(alloc);
    match counts.resize(NUMBERS, 0) {
        Ok(()) => Ok(counts),
        Err(_) => Err(NoMemory),
    }
}

// All counts are 0 again.
fn clear_counts(counts: &mut Vec<u16>)
    ensures { (n : ℕ) → slice_get counts.new.items n ≡ option_map (λ _. 0) (slice_get counts.old.items n) }
{
    for at in 0..counts.len() {
        counts[at] = 0;
    }
}

// One more or one fewer.
fn moved(more: bool, count: u16) -> u16
    ensures { result ≡ moved more 1 count }
{
    if count == u16::MAX {
        return count;
    }
    if more {
        count + 1
    } else {
        count.saturating_sub(1)
    }
}

#[tactic(auto, using(crate::proofs::Counting::moved_none))]
fn move_at(counts: &mut Vec<u16>, more: bool, number: u16)
    ensures { (n : ℕ) → slice_get counts.new.items n
        ≡ option_map (moved more (if number == n then 1 else 0)) (slice_get counts.old.items n) }
{
    let at = usize::from(number);
    if at < counts.len() {
        counts[at] = moved(more, counts[at]);
    }
}

// The count of the number, where it isn't at its end.
fn known_count(counts: &Vec<u16>, number: u16) -> Option<usize>
    ensures { result ≡ known (slice_get counts.now.items number) }
{
    match counts.get(usize::from(number)) {
        Some(count) if *count < u16::MAX => Some(usize::from(*count)),
        _ => None,
    }
}

// How often the ports name the number.
fn times_in_ports(udp: bool, number: u16, ports: &[Port]) -> usize
    ensures { result ≡ count_by (has_port_number udp number) ports.now }
{
    ports
        .iter()
        .filter(|port| port.udp == udp && port.number == Some(number))
        .count()
}

fn times_before(udp: bool, number: u16, previous: &Option<ServiceSpec>) -> usize
    ensures { result ≡ count_by (has_port_number udp number) (ports_of previous.now) }
{
    match previous {
        Some(spec) => times_in_ports(udp, number, spec.ports.as_slice()),
        None => 0,
    }
}

fn times_given(udp: bool, number: u16, numbers: &[PortNumber]) -> usize
    ensures { result ≡ count_by (is_numbered udp number) numbers.now }
{
    numbers
        .iter()
        .filter(|given| given.udp == udp && given.number == number)
        .count()
}

/// How often the service names the number of this protocol, up to the greatest of all counts.
pub fn times(udp: bool, number: u16, service: &Service) -> usize
    ensures { result ≡ min (times udp number service.now) (2 ^ 64 - 1) }
{
    times_in_ports(udp, number, service.spec.ports.as_slice())
        .saturating_add(times_before(udp, number, &service.previous))
        .saturating_add(times_given(udp, number, service.numbers.as_slice()))
}

impl PortCounts {
    /// No number is held.
    pub fn new(alloc: Global) -> Result<PortCounts, NoMemory>
        ensures { IfOk result (λ counts. AreNone counts) }
    {
        Ok(PortCounts {
            tcp: no_counts(alloc)?,
            udp: no_counts(alloc)?,
        })
    }

    /// No number is held any more.
    pub fn clear(&mut self)
        ensures { (udp : Bool) (n : ℕ) → count_of udp self.new n ≡ option_map (λ _. 0) (count_of udp self.old n) }
    {
        clear_counts(&mut self.tcp);
        clear_counts(&mut self.udp);
    }

    /// How often the number is named; none where its count is at its end.
    pub fn times(&self, udp: bool, number: u16) -> Option<usize>
        ensures { result ≡ known (count_of udp self.now number) }
    {
        if udp {
            known_count(&self.udp, number)
        } else {
            known_count(&self.tcp, number)
        }
    }

    // The number is named once more, or once less.
    #[tactic(auto, using(crate::proofs::Counting::moved_none))]
    fn move_one(&mut self, more: bool, udp: bool, number: u16)
        ensures { MovesAll more (once udp number) self.old self.new }
    {
        if udp {
            move_at(&mut self.udp, more, number);
        } else {
            move_at(&mut self.tcp, more, number);
        }
    }

    #[tactic(auto, using(crate::proofs::Counting::moved_none))]
    fn move_port(&mut self, more: bool, port: Port)
        ensures { MovesAll more (λ udp n. if has_port_number udp n port then 1 else 0) self.old self.new }
    {
        if let Some(number) = port.number {
            self.move_one(more, port.udp, number);
        }
    }

    fn move_ports(&mut self, more: bool, ports: &[Port])
        ensures { MovesAll more (λ udp n. count_by (has_port_number udp n) ports.now) self.old self.new }
    {
        for port in ports {
            self.move_port(more, *port);
        }
    }

    #[tactic(auto, using(crate::proofs::Counting::moved_none))]
    fn move_previous(&mut self, more: bool, previous: &Option<ServiceSpec>)
        ensures { MovesAll more (λ udp n. count_by (has_port_number udp n) (ports_of previous.now))
            self.old self.new }
    {
        if let Some(spec) = previous {
            self.move_ports(more, spec.ports.as_slice());
        }
    }

    fn move_given(&mut self, more: bool, numbers: &[PortNumber])
        ensures { MovesAll more (λ udp n. count_by (is_numbered udp n) numbers.now) self.old self.new }
    {
        for given in numbers {
            self.move_one(more, given.udp, given.number);
        }
    }

    #[tactic(auto, using(crate::proofs::Counting::moves_three))]
    fn move_service(&mut self, more: bool, service: &Service)
        ensures { MovesAll more (λ udp n. times udp n service.now) self.old self.new }
    {
        self.move_ports(more, service.spec.ports.as_slice());
        self.move_previous(more, &service.previous);
        self.move_given(more, service.numbers.as_slice());
    }

    /// The numbers of the service are counted.
    pub fn enter(&mut self, service: &Service)
        ensures { MovesAll true (λ udp n. times udp n service.now) self.old self.new }
    {
        self.move_service(true, service);
    }

    /// The numbers of the service, which were counted, are no longer.
    pub fn leave(&mut self, service: &Service)
        ensures { MovesAll false (λ udp n. times udp n service.now) self.old self.new }
    {
        self.move_service(false, service);
    }
}
