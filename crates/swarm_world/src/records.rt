// The rows of the world with the sessions of its nodes: what control loops read.
ghost use Rattle.swarm_world.specs.Inside.Records.{tables_of};

use swarm_objects::{
    Id, Ms, Network, Node, Place, Rows, Service, Settings, Task, TaskKey, Version,
};
use swarm_sessions::Sessions;
use swarm_store::Store;

/// The store, and the sessions on record.
#[derive(Drop)]
pub struct Records {
    pub store: Store,
    pub sessions: Sessions,
}

impl Rows for Records {
    ghost tables = { tables_of };

    fn now(&self) -> Ms {
        self.store.now()
    }

    fn next_id(&self) -> Id {
        self.store.next_id()
    }

    fn settings(&self) -> Settings {
        self.store.settings()
    }

    fn node(&self, id: Id) -> Option<&Node> {
        self.store.node(id)
    }

    fn service(&self, id: Id) -> Option<&Service> {
        self.store.service(id)
    }

    fn task(&self, id: Id) -> Option<&Task> {
        self.store.task(id)
    }

    fn network(&self, id: Id) -> Option<&Network> {
        self.store.network(id)
    }

    fn next_node(&self, after: Id) -> Option<&Node> {
        self.store.next_node(after)
    }

    fn next_service(&self, after: Id) -> Option<&Service> {
        self.store.next_service(after)
    }

    fn next_task(&self, after: Id) -> Option<&Task> {
        self.store.next_task(after)
    }

    fn next_network(&self, after: Id) -> Option<&Network> {
        self.store.next_network(after)
    }

    fn next_task_of(&self, service: Id, after: Id) -> Option<&Task> {
        self.store.next_task_of(service, after)
    }

    fn next_task_at(&self, service: Id, place: Place, after: Id) -> Option<&Task> {
        self.store.next_task_at(service, place, after)
    }

    fn next_task_on(&self, node: Id, after: Id) -> Option<&Task> {
        self.store.next_task_on(node, after)
    }

    fn ids_with(&self, key: TaskKey) -> Option<&[Id]> {
        self.store.ids_with(key)
    }

    fn session_live(&self, node: Id) -> bool {
        match self.sessions.get(node) {
            Some(session) => self.store.now() < session.deadline,
            None => false,
        }
    }

    fn attempts(&self, service: Id, place: Place, version: Version, window: Ms) -> u64 {
        self.store.attempts(service, place, version, window)
    }
}
