// The operations on services.
ghost use Rattle.std.specs.Prelude.{◌≡◌, ◌⊎◌, ℕ, ◌+◌, ◌^◌, ◌<◌, IfOk, None, Some, not, filter};
ghost use Rattle.std.specs.Result.{result_err};
ghost use Rattle.swarm_model.specs.Calls.Refusals.{is_missing_network, missing_network, other_holder, port_taken};
ghost use Rattle.swarm_objects.specs.NewRows.{same_mode};
ghost use Rattle.swarm_model.specs.Calls.Services.{filled, is_attempt_of, network_ids, new_service};
ghost use Rattle.swarm_objects.specs.NewRows.{respecified};
ghost use Rattle.swarm_objects.specs.Rows.{first_of};
ghost use Rattle.swarm_plain.specs.Operations.{AppliesOp};
ghost use Rattle.swarm_model.specs.Calls.Services.{update_refusal};
ghost use Rattle.swarm_plain.specs.Plain.{tables_of};

use crate::Plain;
use crate::names::{network_id, network_named, service_id, service_named};
use crate::transactions::check_version;
use std::alloc::Global;
use std::mem::replace;
use swarm_check::{check_service, first_service, not_found, respecified, same_mode};
use swarm_objects::limits::MOST_SERVICES;
use swarm_objects::ports::is_other_holder;
use swarm_objects::{
    Attempt, Draft, Duplicate, Id, Kind, List, Name, NoMemory, Op, Port, Refusal, Same, Service,
    ServiceSpec, Shared, Template, Version, add, drop_row, put_row,
};

// The attempts of the service are forgotten.
fn drop_attempts(alloc: Global, attempts: &mut List<Attempt>, service: Id)
    ensures { attempts.new ≡ filter (λ a. not (is_attempt_of service a)) attempts.old }
{
    let mut kept = replace(attempts, List::new(alloc)).into_vec();
    kept.retain(|attempt| attempt.service != service);
    *attempts = List::from_vec(kept);
}

impl Plain {
    // No network has this name.
    fn is_missing_network(&self, name: &Name) -> bool
        ensures { result ≡ is_missing_network (tables_of self.now) name.now }
    {
        network_named(self.networks.as_slice(), name).is_none()
    }

    // Each of the named networks is there.
    fn check_networks(&self, names: &[Name]) -> Result<(), Refusal>
        ensures { (result_err result ≡ Some Refusal.NoMemory)
            ⊎ (result_err result ≡ missing_network (tables_of self.now) names.now) }
    {
        for name in names {
            if self.is_missing_network(name) {
                return Err(not_found(self.alloc, Kind::Network, name));
            }
        }
        Ok(())
    }

    // The ids of the named networks, in order.
    fn network_ids(&self, names: &[Name]) -> Result<List<Id>, NoMemory>
        ensures { IfOk result (λ ids. ids ≡ network_ids (tables_of self.now) names.now) }
    {
        let mut ids = List::new(self.alloc);
        for name in names {
            if let Some(id) = network_id(self.networks.as_slice(), name) {
                add(&mut ids, id)?;
            }
        }
        Ok(ids)
    }

    // The draft's specification, with the ids of the networks that it names.
    fn filled(&self, draft: &Draft) -> Result<ServiceSpec, NoMemory>
        ensures { IfOk result (λ spec. spec ≡ filled (tables_of self.now) draft.now) }
    {
        let mut spec = draft.spec.duplicate(self.alloc)?;
        let mut template = Template::duplicate(&draft.spec.template, self.alloc)?;
        template.networks = self.network_ids(draft.networks.as_slice())?;
        spec.template = Shared::new(self.alloc, template)?;
        Ok(spec)
    }

    // The first other service that holds this number of the port's protocol.
    fn other_holder(&self, own: Option<Id>, port: Port, number: u16) -> Option<Id>
        ensures { result ≡ first_of (other_holder (tables_of self.now) own port (Some number)) }
    {
        for service in self.services.as_slice() {
            if is_other_holder(own, port.udp, number, service) {
                return Some(service.id);
            }
        }
        None
    }

    // The first other service that holds the port's number.
    fn port_holder(&self, own: Option<Id>, port: Port) -> Option<Id>
        ensures { result ≡ first_of (other_holder (tables_of self.now) own port port.number) }
    {
        match port.number {
            Some(number) => self.other_holder(own, port, number),
            None => None,
        }
    }

    // No other service holds the number of a port.
    fn check_ports(&self, own: Option<Id>, ports: &[Port]) -> Result<(), Refusal>
        ensures { result_err result ≡ port_taken (tables_of self.now) own ports.now }
    {
        for port in ports {
            if let Some(holder) = self.port_holder(own, *port) {
                return Err(Refusal::PortTaken(holder));
            }
        }
        Ok(())
    }

    // The row of a service that comes.
    fn new_service(&self, version: Version, name: &Name, draft: &Draft) -> Result<Service, NoMemory>
        ensures { IfOk result (λ s. s ≡ new_service version (tables_of self.now) name.now draft.now) }
    {
        let spec = self.filled(draft)?;
        first_service(self.alloc, version, self.next_id, name, spec)
    }

    // Why another specification is refused.
    fn check_update(
        &self,
        asked: Option<Version>,
        draft: &Draft,
        service: &Service,
    ) -> Result<(), Refusal>
        ensures { (result_err result ≡ Some Refusal.NoMemory)
            ⊎ (result_err result ≡ update_refusal (tables_of self.now) asked draft.now service.now) }
    {
        check_version(asked, service.version)?;
        if let Err(rule) = check_service(draft) {
            return Err(Refusal::BadSpec(rule));
        }
        if !same_mode(draft.spec.mode, service.spec.mode) {
            return Err(Refusal::ModeChange);
        }
        self.check_networks(draft.networks.as_slice())?;
        self.check_ports(Some(service.id), draft.spec.ports.as_slice())
    }

    // A service comes.
    pub(crate) fn create_service(
        &mut self,
        version: Version,
        name: &Name,
        draft: &Draft,
    ) -> Result<Id, Refusal>
        requires { self.old.next_id + 1 < 2 ^ 64 }
        ensures { AppliesOp version (Op.CreateService name.now draft.now) self.old result self.new }
    {
        if let Err(rule) = check_service(draft) {
            return Err(Refusal::BadSpec(rule));
        }
        if let Some(id) = service_id(self.services.as_slice(), name) {
            return Err(Refusal::NameTaken(id));
        }
        self.check_networks(draft.networks.as_slice())?;
        self.check_ports(None, draft.spec.ports.as_slice())?;
        let count = self.services.len();
        if count >= MOST_SERVICES {
            return Err(Refusal::TooMany(Kind::Service, count as u64));
        }
        let id = self.next_id;
        let service = self.new_service(version, name, draft)?;
        if self.services.push(service).is_err() {
            return Err(Refusal::NoMemory);
        }
        self.next_id += 1;
        Ok(id)
    }

    // A service gets another specification.
    pub(crate) fn update_service(
        &mut self,
        version: Version,
        name: &Name,
        asked: Option<Version>,
        draft: &Draft,
    ) -> Result<Id, Refusal>
        ensures { AppliesOp version (Op.UpdateService name.now asked draft.now) self.old result self.new }
    {
        let Some(service) = service_named(self.services.as_slice(), name) else {
            return Err(not_found(self.alloc, Kind::Service, name));
        };
        self.check_update(asked, draft, service)?;
        let id = service.id;
        let spec = self.filled(draft)?;
        let new = respecified(self.alloc, version, false, spec, service)?;
        put_row(self.alloc, &mut self.services, new)?;
        Ok(id)
    }

    // A service gets the specification that it had before.
    pub(crate) fn rollback_service(
        &mut self,
        version: Version,
        name: &Name,
        asked: Option<Version>,
    ) -> Result<Id, Refusal>
        ensures { AppliesOp version (Op.RollbackService name.now asked) self.old result self.new }
    {
        let Some(service) = service_named(self.services.as_slice(), name) else {
            return Err(not_found(self.alloc, Kind::Service, name));
        };
        check_version(asked, service.version)?;
        let Some(previous) = &service.previous else {
            return Err(Refusal::NoPrevious);
        };
        let id = service.id;
        let spec = previous.duplicate(self.alloc)?;
        let new = respecified(self.alloc, version, true, spec, service)?;
        put_row(self.alloc, &mut self.services, new)?;
        Ok(id)
    }

    // A service goes, with the attempts of its places.
    pub(crate) fn remove_service(&mut self, name: &Name) -> Result<Id, Refusal>
        ensures { (version : ℕ) → AppliesOp version (Op.RemoveService name.now) self.old result self.new }
    {
        let Some(id) = service_id(self.services.as_slice(), name) else {
            return Err(not_found(self.alloc, Kind::Service, name));
        };
        drop_row(&mut self.services, id);
        drop_attempts(self.alloc, &mut self.attempts, id);
        Ok(id)
    }
}
