// How many places of a service are held, by its tasks alone.
ghost use Rattle.std.specs.Prelude.{◌≡◌, length};
ghost use Rattle.swarm_objects.specs.Tasks.Places.{held_places};
ghost use Rattle.swarm_store.specs.Inside.Held.{tasks_alone};
ghost use Rattle.swarm_store.specs.Inside.State.{Stands, tables_now};
ghost use Rattle.swarm_store.specs.Stored.{HasNearTasks};

use crate::state::State;
use swarm_objects::{
    Id, Ms, Network, Node, Place, Rows, Service, Settings, Task, TaskKey, Version,
};

// The tasks of a store, and no other rows.
#[derive(Drop)]
struct TasksAlone<'a> {
    state: &'a State,
}

impl Rows for TasksAlone<'_> {
    ghost tables = { λ rows. tasks_alone (tables_now rows.state.now) };

    fn now(&self) -> Ms {
        0
    }

    fn next_id(&self) -> Id {
        self.state.next_id
    }

    fn settings(&self) -> Settings {
        Settings::usual()
    }

    fn node(&self, _id: Id) -> Option<&Node> {
        None
    }

    fn service(&self, _id: Id) -> Option<&Service> {
        None
    }

    fn task(&self, id: Id) -> Option<&Task> {
        self.state.task(id)
    }

    fn network(&self, _id: Id) -> Option<&Network> {
        None
    }

    fn next_node(&self, _after: Id) -> Option<&Node> {
        None
    }

    fn next_service(&self, _after: Id) -> Option<&Service> {
        None
    }

    fn next_task(&self, after: Id) -> Option<&Task> {
        self.state.next_task(after)
    }

    fn next_network(&self, _after: Id) -> Option<&Network> {
        None
    }

    fn next_task_of(&self, service: Id, after: Id) -> Option<&Task> {
        self.state.next_task_of(service, after)
    }

    fn next_task_at(&self, service: Id, place: Place, after: Id) -> Option<&Task> {
        self.state.next_task_at(service, place, after)
    }

    fn next_task_on(&self, node: Id, after: Id) -> Option<&Task> {
        self.state.next_task_on(node, after)
    }

    fn ids_with(&self, key: TaskKey) -> Option<&[Id]> {
        self.state.ids_with(key)
    }

    fn session_live(&self, _node: Id) -> bool {
        false
    }

    fn attempts(&self, _service: Id, _place: Place, _version: Version, _window: Ms) -> u64 {
        0
    }
}

// How many places of the service are held.
pub(crate) fn held_count(state: &State, service: &Service) -> u64
    requires stands { Stands (tables_now state.now) }
    requires near { HasNearTasks (tables_now state.now) }
    ensures { result ≡ length (held_places (tables_now state.now) service.now) }
{
    let tasks = TasksAlone { state };
    role_words::held_count(&tasks, service)
}
