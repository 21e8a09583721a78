// The operations on networks, and the one on the settings of the cluster.
ghost use Rattle.std.specs.Prelude.{if◌then◌else◌, ◌≡◌, ◌∷◌, [], None, find, length};
ghost use Rattle.std.specs.Ordering.{nat_cmp};
ghost use Rattle.std.specs.Option.{option_map};
ghost use Rattle.std.specs.Result.{result_err};
ghost use Rattle.swarm_model.specs.Calls.Refusals.{bad_spec, name_taken, network_by};
ghost use Rattle.swarm_objects.specs.Refusals.{first_refusal};
ghost use Rattle.swarm_objects.specs.NetworkUse.{service_uses, task_uses};
ghost use Rattle.swarm_model.specs.Calls.Refusals.{too_many, users};
ghost use Rattle.swarm_objects.specs.Limits.{most_networks};
ghost use Rattle.swarm_objects.specs.Rows.{keep_least, least_by, network_id};
ghost use Rattle.swarm_objects.specs.Rules.Networks.{subnet_breaks, subnet_rules};
ghost use Rattle.swarm_store.specs.Inside.Ops.{Does};
ghost use Rattle.swarm_store.specs.Inside.State.{Stands, tables_now, tables_start};

use crate::state::State;
use swarm_check::{check_network, check_settings, not_found, service_uses, task_uses};
use swarm_objects::limits::MOST_NETWORKS;
use swarm_objects::{Duplicate, Id, Kind, Name, Network, Op, Refusal, Rows, Settings, Version};

// The least id so far with that of a further user, if it is one.
fn keep_user(least: Option<Id>, uses: bool, id: Id) -> Option<Id>
    ensures { result ≡ (if uses then keep_least nat_cmp least id else least) }
{
    if !uses {
        return least;
    }
    match least {
        Some(best) if best <= id => Some(best),
        _ => Some(id),
    }
}

impl State {
    // The least id of those that use the network.
    fn least_user(&self, network: Id) -> Option<Id>
        requires { Stands (tables_now self.now) }
        ensures { result ≡ least_by nat_cmp None (users (tables_now self.now) network) }
    {
        let mut least = None;
        let mut after = 0;
        while let Some(service) = self.next_service(after) {
            least = keep_user(least, service_uses(network, service), service.id);
            after = service.id;
        }
        after = 0;
        while let Some(task) = self.next_task(after) {
            least = keep_user(least, task_uses(network, task), task.id);
            after = task.id;
        }
        least
    }

    // Why a network that comes is refused.
    fn check_new_network(&self, name: &Name, base: u32, bits: u8) -> Result<(), Refusal>
        requires { Stands (tables_now self.now) }
        ensures { result_err result ≡ first_refusal (
            bad_spec (find (subnet_breaks base bits) subnet_rules)
            ∷ name_taken (option_map network_id (network_by (tables_now self.now) name.now))
            ∷ too_many Kind.Network most_networks (length self.now.networks.rows)
            ∷ []) }
    {
        if let Err(rule) = check_network(base, bits) {
            return Err(Refusal::BadSpec(rule));
        }
        if let Some(network) = self.network_named(name) {
            return Err(Refusal::NameTaken(network.id));
        }
        let count = self.networks.len();
        if count >= MOST_NETWORKS {
            return Err(Refusal::TooMany(Kind::Network, count as u64));
        }
        Ok(())
    }

    // A network comes.
    pub(crate) fn create_network(
        &mut self,
        version: Version,
        name: &Name,
        base: u32,
        bits: u8,
    ) -> Result<Id, Refusal>
        requires { Stands (tables_now self.old) }
        ensures done { Does version (Op.CreateNetwork name.now base bits) self.old result self.new }
        ensures start { tables_start self.new ≡ tables_start self.old }
    {
        self.check_new_network(name, base, bits)?;
        let id = self.next_id;
        let next_id = self.later_id()?;
        let name = name.duplicate(self.alloc)?;
        let network = Network {
            id,
            version,
            name,
            base,
            length: bits,
        };
        self.networks.put(network)?;
        self.next_id = next_id;
        Ok(id)
    }

    // A network goes.
    pub(crate) fn remove_network(&mut self, version: Version, name: &Name) -> Result<Id, Refusal>
        requires { Stands (tables_now self.old) }
        ensures done { Does version (Op.RemoveNetwork name.now) self.old result self.new }
        ensures start { tables_start self.new ≡ tables_start self.old }
    {
        let Some(network) = self.network_named(name) else {
            return Err(not_found(self.alloc, Kind::Network, name));
        };
        let id = network.id;
        if let Some(user) = self.least_user(id) {
            return Err(Refusal::InUse(user));
        }
        self.networks.remove(id)?;
        Ok(id)
    }

    // The settings of the cluster are these.
    pub(crate) fn set_cluster(
        &mut self,
        version: Version,
        settings: Settings,
    ) -> Result<Id, Refusal>
        ensures done { Does version (Op.SetCluster settings) self.old result self.new }
        ensures start { tables_start self.new ≡ tables_start self.old }
    {
        if let Err(rule) = check_settings(&settings) {
            return Err(Refusal::BadSpec(rule));
        }
        self.settings = settings;
        Ok(0)
    }
}
