// The records with the row of one task at hand.
ghost use Rattle.std.specs.Prelude.{◌≡◌};
ghost use Rattle.swarm_world.specs.Inside.Records.{tables_of};

use crate::records::Records;
use std::marker::Model;
use swarm_objects::{
    Change, Id, Ms, Network, Node, Place, Rows, Service, Settings, Task, TaskKey, Version,
};

/// The records, where the row of one task is at hand: what a change touches is found by a dozen looks at the row that
/// it replaces. Contracts see the tables.
#[derive(Drop)]
pub struct AtHand<'a> {
    records: &'a Records,
    id: Id,
    task: Option<&'a Task>,
}

impl<'a> Model for AtHand<'a> {
    ghost use Rattle.std.specs.Option.{option_copied};
    ghost use Rattle.std.specs.Prelude.{◌≡◌};
    ghost use Rattle.swarm_objects.specs.Rows.{row_at, task_id};
    ghost use Rattle.swarm_objects.specs.World.{Tables};
    ghost use Rattle.swarm_world.specs.Inside.Records.{tables_of};

    ghost Value = { Tables };

    ghost view = { λ h. tables_of h.records.now };

    ghost invariant = { λ h. option_copied h.task ≡ row_at task_id h.id (tables_of h.records.now).tasks };
}

// The task that the change puts or drops; 0, which none has, for any other change.
fn task_of(change: &Change) -> Id {
    match change {
        Change::PutTask(task) => task.id,
        Change::DropTask(task) => *task,
        Change::PutNode(_) | Change::PutService(_) | Change::Keep(_) => 0,
    }
}

impl<'a> AtHand<'a> {
    /// The row that the first of the changes replaces is at hand: most duties change one.
    pub fn new(records: &'a Records, changes: &[Change]) -> AtHand<'a>
        ensures { result ≡ tables_of records.now }
    {
        let id = changes.first().map_or(0, task_of);
        AtHand {
            records,
            id,
            task: records.task(id),
        }
    }
}

impl<'a> Rows for AtHand<'a> {
    ghost tables = { λ t. t };

    fn now(&self) -> Ms {
        self.records.now()
    }

    fn next_id(&self) -> Id {
        self.records.next_id()
    }

    fn settings(&self) -> Settings {
        self.records.settings()
    }

    fn node(&self, id: Id) -> Option<&Node> {
        self.records.node(id)
    }

    fn service(&self, id: Id) -> Option<&Service> {
        self.records.service(id)
    }

    fn task(&self, id: Id) -> Option<&Task> {
        if id == self.id {
            self.task
        } else {
            self.records.task(id)
        }
    }

    fn network(&self, id: Id) -> Option<&Network> {
        self.records.network(id)
    }

    fn next_node(&self, after: Id) -> Option<&Node> {
        self.records.next_node(after)
    }

    fn next_service(&self, after: Id) -> Option<&Service> {
        self.records.next_service(after)
    }

    fn next_task(&self, after: Id) -> Option<&Task> {
        self.records.next_task(after)
    }

    fn next_network(&self, after: Id) -> Option<&Network> {
        self.records.next_network(after)
    }

    fn next_task_of(&self, service: Id, after: Id) -> Option<&Task> {
        self.records.next_task_of(service, after)
    }

    fn next_task_at(&self, service: Id, place: Place, after: Id) -> Option<&Task> {
        self.records.next_task_at(service, place, after)
    }

    fn next_task_on(&self, node: Id, after: Id) -> Option<&Task> {
        self.records.next_task_on(node, after)
    }

    fn ids_with(&self, key: TaskKey) -> Option<&[Id]> {
        self.records.ids_with(key)
    }

    fn session_live(&self, node: Id) -> bool {
        self.records.session_live(node)
    }

    fn attempts(&self, service: Id, place: Place, version: Version, window: Ms) -> u64 {
        self.records.attempts(service, place, version, window)
    }
}
