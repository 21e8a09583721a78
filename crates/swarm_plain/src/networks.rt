// The operations on networks, and the one on the settings of the cluster.
ghost use Rattle.std.specs.Prelude.{◌≡◌, ℕ, ◌+◌, ◌^◌, ◌<◌, None};
ghost use Rattle.std.specs.Ordering.{nat_cmp};
ghost use Rattle.swarm_objects.specs.NetworkUse.{service_uses, task_uses};
ghost use Rattle.swarm_model.specs.Calls.Refusals.{users};
ghost use Rattle.swarm_objects.specs.Rows.{keep_least, least_by};
ghost use Rattle.swarm_plain.specs.Operations.{AppliesOp};
ghost use Rattle.swarm_plain.specs.Plain.{tables_of};

use crate::Plain;
use crate::names::{network_id, network_named};
use swarm_check::{check_network, check_settings, not_found, service_uses, task_uses};
use swarm_objects::limits::MOST_NETWORKS;
use swarm_objects::{Duplicate, Id, Kind, Name, Network, Op, Refusal, Settings, Version, drop_row};

// The lesser of the least id so far and this one.
fn keep_least(least: Option<Id>, id: Id) -> Option<Id>
    ensures { result ≡ keep_least nat_cmp least id }
{
    match least {
        Some(best) if best <= id => Some(best),
        _ => Some(id),
    }
}

impl Plain {
    // The least id of those that use the network.
    fn least_user(&self, network: Id) -> Option<Id>
        ensures { result ≡ least_by nat_cmp None (users (tables_of self.now) network) }
    {
        let mut least = None;
        for service in self.services.as_slice() {
            if service_uses(network, service) {
                least = keep_least(least, service.id);
            }
        }
        for task in self.tasks.as_slice() {
            if task_uses(network, task) {
                least = keep_least(least, task.id);
            }
        }
        least
    }

    // A network comes.
    pub(crate) fn create_network(
        &mut self,
        version: Version,
        name: &Name,
        base: u32,
        length: u8,
    ) -> Result<Id, Refusal>
        requires { self.old.next_id + 1 < 2 ^ 64 }
        ensures { AppliesOp version (Op.CreateNetwork name.now base length) self.old result self.new }
    {
        if let Err(rule) = check_network(base, length) {
            return Err(Refusal::BadSpec(rule));
        }
        if let Some(id) = network_id(self.networks.as_slice(), name) {
            return Err(Refusal::NameTaken(id));
        }
        let count = self.networks.as_slice().len();
        if count >= MOST_NETWORKS {
            return Err(Refusal::TooMany(Kind::Network, count as u64));
        }
        let id = self.next_id;
        let name = name.duplicate(self.alloc)?;
        let network = Network {
            id,
            version,
            name,
            base,
            length,
        };
        if self.networks.push(network).is_err() {
            return Err(Refusal::NoMemory);
        }
        self.next_id += 1;
        Ok(id)
    }

    // A network goes.
    pub(crate) fn remove_network(&mut self, name: &Name) -> Result<Id, Refusal>
        ensures { (version : ℕ) → AppliesOp version (Op.RemoveNetwork name.now) self.old result self.new }
    {
        let Some(network) = network_named(self.networks.as_slice(), name) else {
            return Err(not_found(self.alloc, Kind::Network, name));
        };
        let id = network.id;
        if let Some(user) = self.least_user(id) {
            return Err(Refusal::InUse(user));
        }
        drop_row(&mut self.networks, id);
        Ok(id)
    }

    // The settings of the cluster are these.
    pub(crate) fn set_cluster(&mut self, settings: Settings) -> Result<Id, Refusal>
        ensures { (version : ℕ) → AppliesOp version (Op.SetCluster settings) self.old result self.new }
    {
        if let Err(rule) = check_settings(&settings) {
            return Err(Refusal::BadSpec(rule));
        }
        self.settings = settings;
        Ok(0)
    }
}
