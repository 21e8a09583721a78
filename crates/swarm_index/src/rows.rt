// The keys of a world's rows.
ghost use Rattle.std.specs.Prelude.{◌≡◌};
ghost use Rattle.std.specs.Option.{option_map};
ghost use Rattle.swarm_index.specs.Keys.{Num, value_of};
ghost use Rattle.swarm_index.specs.Rows.{network_key, node_key, service_key, task_key};
ghost use Rattle.swarm_objects.specs.Rows.{network_id, node_id, service_id, task_id};

use crate::keys::{HOST, NODE, SERVICE, SLOT};
use crate::{IndexKey, Row};
use swarm_objects::{Id, Network, Node, Place, Service, Task};

/// By name.
impl Row for Node {
    ghost KEYS = { 1 };

    ghost id_of = { node_id };

    ghost key_of = { node_key };

    const KEYS: u32 = 1;

    fn id(&self) -> Id {
        self.id
    }

    fn key(&self, _which: u32) -> Option<IndexKey<'_>> {
        Some(IndexKey::Text(&self.name))
    }
}

/// By name.
impl Row for Service {
    ghost KEYS = { 1 };

    ghost id_of = { service_id };

    ghost key_of = { service_key };

    const KEYS: u32 = 1;

    fn id(&self) -> Id {
        self.id
    }

    fn key(&self, _which: u32) -> Option<IndexKey<'_>> {
        Some(IndexKey::Text(&self.name))
    }
}

/// By service, by node, and by place: service with slot, or service with node.
impl Row for Task {
    ghost KEYS = { 4 };

    ghost id_of = { task_id };

    ghost key_of = { task_key };

    const KEYS: u32 = 4;

    fn id(&self) -> Id {
        self.id
    }

    fn key(&self, which: u32) -> Option<IndexKey<'_>> {
        if which == SERVICE {
            return Some(IndexKey::Num(self.service));
        }
        if which == NODE {
            return number_key(self.node);
        }
        match self.place {
            Place::Slot(slot) if which == SLOT => Some(IndexKey::Pair(self.service, slot)),
            Place::On(node) if which == HOST => Some(IndexKey::Pair(self.service, node)),
            _ => None,
        }
    }
}

// A number that there may be, as a key.
fn number_key(number: Option<u64>) -> Option<IndexKey<'static>>
    ensures { option_map value_of result ≡ option_map Num number }
{
    match number {
        Some(number) => Some(IndexKey::Num(number)),
        None => None,
    }
}

/// By name.
impl Row for Network {
    ghost KEYS = { 1 };

    ghost id_of = { network_id };

    ghost key_of = { network_key };

    const KEYS: u32 = 1;

    fn id(&self) -> Id {
        self.id
    }

    fn key(&self, _which: u32) -> Option<IndexKey<'_>> {
        Some(IndexKey::Text(&self.name))
    }
}
