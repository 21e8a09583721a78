// Reading the rows by scans.
ghost use Rattle.std.specs.Prelude.{◌≡◌, filter};
ghost use Rattle.std.specs.Option.{option_copied};
ghost use Rattle.swarm_objects.specs.Rows.{row_above, row_at, session_node, task_id};
ghost use Rattle.swarm_objects.specs.Tasks.Words.{is_at, is_of, is_on};
ghost use Rattle.swarm_plain.specs.Plain.{tables_of};

use crate::Plain;
use swarm_objects::{
    Id, Keyed, Ms, Network, Node, NodeSession, Place, Rows, Service, Settings, Task, Version,
};

impl Rows for Plain {
    ghost tables = { tables_of };

    fn now(&self) -> Ms {
        self.clock
    }

    fn next_id(&self) -> Id {
        self.next_id
    }

    fn settings(&self) -> Settings {
        self.settings
    }

    fn node(&self, id: Id) -> Option<&Node> {
        row_at(self.nodes.as_slice(), id)
    }

    fn service(&self, id: Id) -> Option<&Service> {
        row_at(self.services.as_slice(), id)
    }

    fn task(&self, id: Id) -> Option<&Task> {
        row_at(self.tasks.as_slice(), id)
    }

    fn network(&self, id: Id) -> Option<&Network> {
        row_at(self.networks.as_slice(), id)
    }

    fn next_node(&self, after: Id) -> Option<&Node> {
        row_above(self.nodes.as_slice(), after)
    }

    fn next_service(&self, after: Id) -> Option<&Service> {
        row_above(self.services.as_slice(), after)
    }

    fn next_task(&self, after: Id) -> Option<&Task> {
        row_above(self.tasks.as_slice(), after)
    }

    fn next_network(&self, after: Id) -> Option<&Network> {
        row_above(self.networks.as_slice(), after)
    }

    fn next_task_of(&self, service: Id, after: Id) -> Option<&Task> {
        next_of(self.tasks.as_slice(), service, after)
    }

    fn next_task_at(&self, service: Id, place: Place, after: Id) -> Option<&Task> {
        next_at(self.tasks.as_slice(), service, place, after)
    }

    fn next_task_on(&self, node: Id, after: Id) -> Option<&Task> {
        next_on(self.tasks.as_slice(), node, after)
    }

    fn session_live(&self, node: Id) -> bool {
        match session_of(self.sessions.as_slice(), node) {
            Some(row) => self.clock < row.session.deadline,
            None => false,
        }
    }

    fn attempts(&self, service: Id, place: Place, version: Version, window: Ms) -> u64 {
        let clock = self.clock;
        self.attempts
            .as_slice()
            .iter()
            .filter(|attempt| {
                attempt.service == service
                    && attempt.place == place
                    && attempt.version == version
                    && (window == 0 || clock.saturating_sub(attempt.at) < window)
            })
            .count() as u64
    }
}

// The first row with this key.
pub(crate) fn row_at<T: Keyed>(rows: &[T], key: Id) -> Option<&T>
    ensures { option_copied result ≡ row_at T.key_of key rows.now }
{
    rows.iter().find(|row| row.key() == key)
}

// The first row whose key is above this one.
fn row_above<T: Keyed>(rows: &[T], after: Id) -> Option<&T>
    ensures { option_copied result ≡ row_above T.key_of after rows.now }
{
    rows.iter().find(|row| row.key() > after)
}

// The first of the service's tasks whose id is above this one.
fn next_of(tasks: &[Task], service: Id, after: Id) -> Option<&Task>
    ensures { option_copied result ≡ row_above task_id after (filter (is_of service) tasks.now) }
{
    for task in tasks {
        if task.is_of(service) && task.id > after {
            return Some(task);
        }
    }
    None
}

// The first of the tasks at the service's place whose id is above this one.
fn next_at(tasks: &[Task], service: Id, place: Place, after: Id) -> Option<&Task>
    ensures { option_copied result ≡ row_above task_id after (filter (is_at service place) tasks.now) }
{
    for task in tasks {
        if task.is_at(service, place) && task.id > after {
            return Some(task);
        }
    }
    None
}

// The first of the node's tasks whose id is above this one.
fn next_on(tasks: &[Task], node: Id, after: Id) -> Option<&Task>
    ensures { option_copied result ≡ row_above task_id after (filter (is_on node) tasks.now) }
{
    for task in tasks {
        if task.is_on(node) && task.id > after {
            return Some(task);
        }
    }
    None
}

// The session on record of a node.
pub(crate) fn session_of(sessions: &[NodeSession], node: Id) -> Option<&NodeSession>
    ensures { option_copied result ≡ row_at session_node node sessions.now }
{
    row_at(sessions, node)
}
