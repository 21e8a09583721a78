// Rows by name, found by their keys.
ghost use Rattle.std.specs.Prelude.{◌≡◌};
ghost use Rattle.std.specs.Option.{option_copied};
ghost use Rattle.swarm_model.specs.Calls.Refusals.{network_by, node_by, service_by};
ghost use Rattle.swarm_objects.specs.Sound.{IsOrdered};
ghost use Rattle.swarm_store.specs.Inside.State.{tables_now};

use crate::state::State;
use swarm_index::IndexKey;
use swarm_index::keys::NAME;
use swarm_objects::{Name, Network, Node, Service};

impl State {
    #[tactic(auto, using(crate::proofs::Lookups::named_node))]
    pub(crate) fn node_named(&self, name: &Name) -> Option<&Node>
        requires { IsOrdered (tables_now self.now) }
        ensures { option_copied result ≡ node_by (tables_now self.now) name.now }
    {
        self.nodes.next_by_key(NAME, &IndexKey::Text(name), 0)
    }

    #[tactic(auto, using(crate::proofs::Lookups::named_service))]
    pub(crate) fn service_named(&self, name: &Name) -> Option<&Service>
        requires { IsOrdered (tables_now self.now) }
        ensures { option_copied result ≡ service_by (tables_now self.now) name.now }
    {
        self.services
            .rows()
            .next_by_key(NAME, &IndexKey::Text(name), 0)
    }

    #[tactic(auto, using(crate::proofs::Lookups::named_network))]
    pub(crate) fn network_named(&self, name: &Name) -> Option<&Network>
        requires { IsOrdered (tables_now self.now) }
        ensures { option_copied result ≡ network_by (tables_now self.now) name.now }
    {
        self.networks.next_by_key(NAME, &IndexKey::Text(name), 0)
    }
}
