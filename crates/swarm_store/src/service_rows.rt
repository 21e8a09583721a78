// The services under change, with a count of the port numbers that they hold.
ghost use Rattle.std.specs.Prelude.{◌≡◌, ◌<◌, ◌≤◌, ◌+◌, IfOk, OnErr, OnOk, [], false, true};
ghost use Rattle.std.specs.List.{list_any};
ghost use Rattle.swarm_objects.specs.Rows.{drop_row, row_at, service_id, with_row};
ghost use Rattle.store_ports.specs.Counts.{AreTimes, MovesAll, is_other, own_times, times_of};

use crate::tracked::Tracked;
use std::alloc::Global;
use std::marker::Model;
use store_ports::{PortCounts, times};
use swarm_objects::{Id, NoMemory, Service};

#[derive(Drop)]
pub(crate) struct Services {
    rows: Tracked<Service>,
    ports: PortCounts,
}

impl Model for Services {
    ghost use Rattle.swarm_objects.specs.declared.services.Service.{Service as Row};
    ghost use Rattle.store_ports.specs.Counts.{AreTimes};
    ghost use Rattle.swarm_store.specs.Inside.Span.{Track};

    ghost Value = { Track Row };

    ghost view = { λ s. s.rows };

    ghost invariant = { λ s. AreTimes s.ports s.rows.rows };
}

// The numbers of the row with this id are no longer counted.
fn leave(rows: &Tracked<Service>, ports: &mut PortCounts, id: Id)
    ensures { MovesAll false (λ udp n. times_of udp n (row_at service_id id rows.now.rows)) ports.old ports.new }
{
    if let Some(service) = rows.get(id) {
        ports.leave(service);
    }
}

// The numbers of the row with this id are counted.
fn enter(rows: &Tracked<Service>, ports: &mut PortCounts, id: Id)
    ensures { MovesAll true (λ udp n. times_of udp n (row_at service_id id rows.now.rows)) ports.old ports.new }
{
    if let Some(service) = rows.get(id) {
        ports.enter(service);
    }
}

// The numbers of what a row was are no longer counted.
fn leave_row(ports: &mut PortCounts, row: &Option<Service>)
    ensures { MovesAll false (λ udp n. times_of udp n row.now) ports.old ports.new }
{
    if let Some(service) = row {
        ports.leave(service);
    }
}

// How often the row with this id names the number, or fewer.
fn own_times(rows: &Tracked<Service>, own: Option<Id>, udp: bool, number: u16) -> usize
    ensures { result ≤ own_times own udp number rows.now.rows }
{
    let Some(id) = own else {
        return 0;
    };
    match rows.get(id) {
        Some(service) => times(udp, number, service),
        None => 0,
    }
}

impl Services {
    #[tactic(auto, using(store_ports::proofs::Rows::none_named))]
    pub(crate) fn new(alloc: Global) -> Result<Services, NoMemory>
        ensures { IfOk result (λ s. (s.start ≡ []) × (s.rows ≡ []) × (s.changed ≡ 0)) }
    {
        Ok(Services {
            rows: Tracked::new(alloc),
            ports: PortCounts::new(alloc)?,
        })
    }

    pub(crate) fn rows(&self) -> &Tracked<Service>
        ensures { result.now ≡ self.now }
    {
        &self.rows
    }

    // Whether another service may hold the number: it is false only where none does.
    pub(crate) fn may_hold(&self, own: Option<Id>, udp: bool, number: u16) -> bool
        ensures { result ≡ false → list_any (is_other own udp number) self.now.rows ≡ false }
    {
        self.rows.rise();
        match self.ports.times(udp, number) {
            Some(times) => own_times(&self.rows, own, udp, number) < times,
            None => true,
        }
    }

    // Puts the row, in the place of the one with its id if that is there.
    pub(crate) fn put(&mut self, row: Service) -> Result<(), NoMemory>
        requires { 0 < row.id }
        ensures ok { OnOk result (self.new.rows ≡ with_row service_id row self.old.rows) }
        ensures err { OnErr result (self.new.rows ≡ self.old.rows) }
        ensures start { self.new.start ≡ self.old.start }
        ensures changed { self.new.changed ≤ self.old.changed + 1 }
    {
        let id = row.id;
        self.rows.rise();
        leave(&self.rows, &mut self.ports, id);
        let done = self.rows.put(row);
        self.rows.rise();
        enter(&self.rows, &mut self.ports, id);
        done
    }

    // The row with this id goes.
    pub(crate) fn remove(&mut self, id: Id) -> Result<(), NoMemory>
        requires { 0 < id }
        ensures ok { OnOk result (self.new.rows ≡ drop_row service_id id self.old.rows) }
        ensures err { OnErr result (self.new.rows ≡ self.old.rows) }
        ensures start { self.new.start ≡ self.old.start }
        ensures changed { self.new.changed ≤ self.old.changed + 1 }
    {
        self.rows.rise();
        leave(&self.rows, &mut self.ports, id);
        let done = self.rows.remove(id);
        self.rows.rise();
        enter(&self.rows, &mut self.ports, id);
        done
    }

    // The rows are again what they were. It takes no memory.
    pub(crate) fn take_back(&mut self)
        ensures rows { self.new.rows ≡ self.old.start }
        ensures start { self.new.start ≡ self.old.start }
        ensures changed { self.new.changed ≡ 0 }
    {
        while self.take_back_last() {}
    }

    // The last one of the rows that changed is again what it was; false where none changed.
    fn take_back_last(&mut self) -> bool
        ensures start { self.new.start ≡ self.old.start }
        ensures fewer { result ≡ true → self.new.changed < self.old.changed }
        ensures none { result ≡ false → self.new.changed ≡ 0 }
        ensures back { result ≡ false → self.new.rows ≡ self.new.start }
    {
        self.rows.rise();
        let Some(was) = self.rows.take_back_last() else {
            return false;
        };
        self.rows.rise();
        leave_row(&mut self.ports, &was.row);
        enter(&self.rows, &mut self.ports, was.id);
        true
    }

    // The changes stay.
    pub(crate) fn settle(&mut self)
        ensures rows { self.new.rows ≡ self.old.rows }
        ensures start { self.new.start ≡ self.old.rows }
        ensures changed { self.new.changed ≡ 0 }
    {
        self.rows.settle();
    }
}
