// The operations on services.
ghost use Rattle.std.specs.Prelude.{◌≡◌, ◌⊎◌, ◌∷◌, [], IfOk, None, Some, length};
ghost use Rattle.std.specs.Option.{option_map};
ghost use Rattle.std.specs.Result.{result_err};
ghost use Rattle.swarm_objects.specs.Refusals.{first_refusal};
ghost use Rattle.swarm_model.specs.Calls.Refusals.{is_missing_network, missing_network, name_taken, network_by, other_holder, port_taken, service_by, too_many};
ghost use Rattle.swarm_objects.specs.NewRows.{same_mode};
ghost use Rattle.swarm_model.specs.Calls.Services.{broken_draft, filled, network_ids, new_service};
ghost use Rattle.swarm_objects.specs.NewRows.{respecified};
ghost use Rattle.swarm_objects.specs.Limits.{most_services};
ghost use Rattle.swarm_objects.specs.Rows.{first_of, network_id, service_id};
ghost use Rattle.swarm_model.specs.Calls.Services.{update_refusal};
ghost use Rattle.swarm_store.specs.Inside.Ops.{Does};
ghost use Rattle.swarm_store.specs.Inside.State.{Stands, tables_now, tables_start};

use crate::state::State;
use crate::transactions::check_version;
use swarm_check::{check_service, first_service, not_found, respecified, same_mode};
use swarm_objects::limits::MOST_SERVICES;
use swarm_objects::ports::is_other_holder;
use swarm_objects::{
    Draft, Duplicate, Id, Kind, List, Name, NoMemory, Op, Port, Refusal, Rows, Same, Service,
    ServiceSpec, Shared, Template, Version, add,
};

impl State {
    // No network has this name.
    fn is_missing_network(&self, name: &Name) -> bool
        requires { Stands (tables_now self.now) }
        ensures { result ≡ is_missing_network (tables_now self.now) name.now }
    {
        self.network_named(name).is_none()
    }

    // Each of the named networks is there.
    fn check_networks(&self, names: &[Name]) -> Result<(), Refusal>
        requires { Stands (tables_now self.now) }
        ensures { (result_err result ≡ Some Refusal.NoMemory)
            ⊎ (result_err result ≡ missing_network (tables_now self.now) names.now) }
    {
        for name in names {
            if self.is_missing_network(name) {
                return Err(not_found(self.alloc, Kind::Network, name));
            }
        }
        Ok(())
    }

    // The ids of the named networks, in order.
    fn network_ids(&self, names: &[Name]) -> Result<List<Id>, NoMemory>
        requires { Stands (tables_now self.now) }
        ensures { IfOk result (λ ids. ids ≡ network_ids (tables_now self.now) names.now) }
    {
        let mut ids = List::new(self.alloc);
        for name in names {
            if let Some(id) = self.network_id(name) {
                add(&mut ids, id)?;
            }
        }
        Ok(ids)
    }

    // The draft's specification, with the ids of the networks that it names.
    fn filled(&self, draft: &Draft) -> Result<ServiceSpec, NoMemory>
        requires { Stands (tables_now self.now) }
        ensures { IfOk result (λ spec. spec ≡ filled (tables_now self.now) draft.now) }
    {
        let mut spec = draft.spec.duplicate(self.alloc)?;
        let mut template = Template::duplicate(&draft.spec.template, self.alloc)?;
        template.networks = self.network_ids(draft.networks.as_slice())?;
        spec.template = Shared::new(self.alloc, template)?;
        Ok(spec)
    }

    // The first other service that holds this number of the port's protocol, by a scan.
    fn scanned_holder(&self, own: Option<Id>, port: Port, number: u16) -> Option<Id>
        requires { Stands (tables_now self.now) }
        ensures { result ≡ first_of (other_holder (tables_now self.now) own port (Some number)) }
    {
        let mut after = 0;
        while let Some(service) = self.next_service(after) {
            if is_other_holder(own, port.udp, number, service) {
                return Some(service.id);
            }
            after = service.id;
        }
        None
    }

    // The same; the services are gone through only where there may be one.
    #[tactic(auto, using(crate::proofs::Ports::none_first))]
    fn other_holder(&self, own: Option<Id>, port: Port, number: u16) -> Option<Id>
        requires { Stands (tables_now self.now) }
        ensures { result ≡ first_of (other_holder (tables_now self.now) own port (Some number)) }
    {
        if self.services.may_hold(own, port.udp, number) {
            self.scanned_holder(own, port, number)
        } else {
            None
        }
    }

    // The first other service that holds the port's number.
    fn port_holder(&self, own: Option<Id>, port: Port) -> Option<Id>
        requires { Stands (tables_now self.now) }
        ensures { result ≡ first_of (other_holder (tables_now self.now) own port port.number) }
    {
        match port.number {
            Some(number) => self.other_holder(own, port, number),
            None => None,
        }
    }

    // No other service holds the number of a port.
    fn check_ports(&self, own: Option<Id>, ports: &[Port]) -> Result<(), Refusal>
        requires { Stands (tables_now self.now) }
        ensures { result_err result ≡ port_taken (tables_now self.now) own ports.now }
    {
        for port in ports {
            if let Some(holder) = self.port_holder(own, *port) {
                return Err(Refusal::PortTaken(holder));
            }
        }
        Ok(())
    }

    // The row of a service that comes.
    fn new_service(&self, version: Version, name: &Name, draft: &Draft) -> Result<Service, NoMemory>
        requires { Stands (tables_now self.now) }
        ensures { IfOk result (λ s. s ≡ new_service version (tables_now self.now) name.now draft.now) }
    {
        let spec = self.filled(draft)?;
        first_service(self.alloc, version, self.next_id, name, spec)
    }

    // Why another specification is refused.
    fn check_update(
        &self,
        asked: Option<Version>,
        draft: &Draft,
        service: &Service,
    ) -> Result<(), Refusal>
        requires { Stands (tables_now self.now) }
        ensures { (result_err result ≡ Some Refusal.NoMemory)
            ⊎ (result_err result ≡ update_refusal (tables_now self.now) asked draft.now service.now) }
    {
        check_version(asked, service.version)?;
        if let Err(rule) = check_service(draft) {
            return Err(Refusal::BadSpec(rule));
        }
        if !same_mode(draft.spec.mode, service.spec.mode) {
            return Err(Refusal::ModeChange);
        }
        self.check_networks(draft.networks.as_slice())?;
        self.check_ports(Some(service.id), draft.spec.ports.as_slice())
    }

    // The id of the network with this name.
    fn network_id(&self, name: &Name) -> Option<Id>
        requires { Stands (tables_now self.now) }
        ensures { result ≡ option_map network_id (network_by (tables_now self.now) name.now) }
    {
        match self.network_named(name) {
            Some(network) => Some(network.id),
            None => None,
        }
    }

    // The id of the service with this name.
    fn service_id(&self, name: &Name) -> Option<Id>
        requires { Stands (tables_now self.now) }
        ensures { result ≡ option_map service_id (service_by (tables_now self.now) name.now) }
    {
        match self.service_named(name) {
            Some(service) => Some(service.id),
            None => None,
        }
    }

    // Why a service that comes is refused.
    fn check_new_service(&self, name: &Name, draft: &Draft) -> Result<(), Refusal>
        requires { Stands (tables_now self.now) }
        ensures { (result_err result ≡ Some Refusal.NoMemory) ⊎ (result_err result ≡ first_refusal (
            broken_draft draft.now
            ∷ name_taken (option_map service_id (service_by (tables_now self.now) name.now))
            ∷ missing_network (tables_now self.now) draft.now.networks
            ∷ port_taken (tables_now self.now) None draft.now.spec.ports
            ∷ too_many Kind.Service most_services (length self.now.services.rows)
            ∷ [])) }
    {
        if let Err(rule) = check_service(draft) {
            return Err(Refusal::BadSpec(rule));
        }
        if let Some(id) = self.service_id(name) {
            return Err(Refusal::NameTaken(id));
        }
        self.check_networks(draft.networks.as_slice())?;
        self.check_ports(None, draft.spec.ports.as_slice())?;
        let count = self.services.rows().len();
        if count >= MOST_SERVICES {
            return Err(Refusal::TooMany(Kind::Service, count as u64));
        }
        Ok(())
    }

    // A service comes.
    pub(crate) fn create_service(
        &mut self,
        version: Version,
        name: &Name,
        draft: &Draft,
    ) -> Result<Id, Refusal>
        requires { Stands (tables_now self.old) }
        ensures done { Does version (Op.CreateService name.now draft.now) self.old result self.new }
        ensures start { tables_start self.new ≡ tables_start self.old }
    {
        self.check_new_service(name, draft)?;
        let id = self.next_id;
        let next_id = self.later_id()?;
        let service = self.new_service(version, name, draft)?;
        self.services.put(service)?;
        self.next_id = next_id;
        Ok(id)
    }

    // A service gets another specification.
    pub(crate) fn update_service(
        &mut self,
        version: Version,
        name: &Name,
        asked: Option<Version>,
        draft: &Draft,
    ) -> Result<Id, Refusal>
        requires { Stands (tables_now self.old) }
        ensures done { Does version (Op.UpdateService name.now asked draft.now) self.old result self.new }
        ensures start { tables_start self.new ≡ tables_start self.old }
    {
        let Some(service) = self.service_named(name) else {
            return Err(not_found(self.alloc, Kind::Service, name));
        };
        self.check_update(asked, draft, service)?;
        let id = service.id;
        let spec = self.filled(draft)?;
        let new = respecified(self.alloc, version, false, spec, service)?;
        self.services.put(new)?;
        Ok(id)
    }

    // A service gets the specification that it had before.
    pub(crate) fn rollback_service(
        &mut self,
        version: Version,
        name: &Name,
        asked: Option<Version>,
    ) -> Result<Id, Refusal>
        requires { Stands (tables_now self.old) }
        ensures done { Does version (Op.RollbackService name.now asked) self.old result self.new }
        ensures start { tables_start self.new ≡ tables_start self.old }
    {
        let Some(service) = self.service_named(name) else {
            return Err(not_found(self.alloc, Kind::Service, name));
        };
        check_version(asked, service.version)?;
        let Some(previous) = &service.previous else {
            return Err(Refusal::NoPrevious);
        };
        let id = service.id;
        let spec = previous.duplicate(self.alloc)?;
        let new = respecified(self.alloc, version, true, spec, service)?;
        self.services.put(new)?;
        Ok(id)
    }

    // A service goes, with the attempts of its places.
    pub(crate) fn remove_service(&mut self, version: Version, name: &Name) -> Result<Id, Refusal>
        requires { Stands (tables_now self.old) }
        ensures done { Does version (Op.RemoveService name.now) self.old result self.new }
        ensures start { tables_start self.new ≡ tables_start self.old }
    {
        let Some(service) = self.service_named(name) else {
            return Err(not_found(self.alloc, Kind::Service, name));
        };
        let id = service.id;
        self.services.remove(id)?;
        self.attempts.forget(self.alloc, id)?;
        Ok(id)
    }
}
