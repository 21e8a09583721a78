// The store.
ghost use Rattle.std.specs.Prelude.{◌≡◌, ◌+◌, ◌<◌, ◌≤◌, IfOk, IfSome, OnOk, [], count_by, filter, length, true};
ghost use Rattle.std.specs.Option.{option_copied};
ghost use Rattle.swarm_model.specs.Calls.Refusals.{node_by, service_by};
ghost use Rattle.swarm_objects.specs.Bounds.{far_end};
ghost use Rattle.swarm_objects.specs.Changes.{id_taken};
ghost use Rattle.swarm_objects.specs.Limits.{is_tick};
ghost use Rattle.swarm_objects.specs.Rows.{network_id, node_id, row_above, row_at, service_id, task_id};
ghost use Rattle.swarm_objects.specs.Tasks.Attempts.{is_kept_attempt};
ghost use Rattle.swarm_objects.specs.Tasks.Words.{has_key, is_at, is_of, is_on};
ghost use Rattle.swarm_objects.specs.Walks.{named_with};
ghost use Rattle.swarm_objects.specs.World.{World, empty_tables};
ghost use Rattle.swarm_objects.specs.ChangeLists.{CanApplyAll};
ghost use Rattle.swarm_store.specs.Stored.{AppliesChanges, HasNearTasks, Shows, StandsFor, Transacts, row_count};

use crate::state::State;
use std::alloc::Global;
use std::marker::Model;
use swarm_objects::limits::MOST_OPS;
use swarm_objects::{
    Change, Event, Id, List, Ms, Name, Network, NoMemory, Node, Op, Place, Query, Refusal, Rows,
    Service, Settings, Task, TaskKey, Version, ViewReply,
};

/// The rows of a cluster with the clock, the next id, the kept attempts and the settings; and the events of the last
/// change. Rows are found by id and by key, and of a transaction all is done or nothing. Contracts see what it holds.
#[derive(Drop)]
pub struct Store {
    state: State,
    changes: Vec<Event>,
}

impl Model for Store {
    ghost use Rattle.swarm_store.specs.Stored.{Stored};

    ghost Value = { Stored };

    ghost use Rattle.swarm_store.specs.Inside.State.{IsUntouched, tables_now};

    ghost view = { λ s. record { tables = tables_now s.state; changes = s.changes.items } };

    ghost invariant = { λ s. IsUntouched s.state };
}

impl Store {
    /// The store of the empty cluster at time 0.
    pub fn new(alloc: Global) -> Result<Store, NoMemory>
        ensures { IfOk result (λ store. (store.tables ≡ empty_tables) × (store.changes ≡ [])) }
    {
        Ok(Store {
            state: State::new(alloc)?,
            changes: Vec::new(alloc),
        })
    }

    /// Gives the next id and moves it on, for a session or a watcher. It takes no memory.
    pub fn take_id(&mut self) -> Id
        requires { self.old.tables.next_id < far_end }
        ensures id { result ≡ self.old.tables.next_id }
        ensures taken { self.new ≡ record self.old { tables = id_taken self.old.tables } }
    {
        let id = self.state.next_id;
        self.state.next_id += 1;
        self.state.next_id_before = self.state.next_id;
        id
    }

    /// The clock goes on by so many milliseconds, 1 to 1,000. It takes no memory.
    pub fn tick(&mut self, ms: Ms)
        requires ms { is_tick ms ≡ true }
        requires clock { self.old.tables.clock < far_end }
        ensures { self.new ≡
            record self.old { tables = record self.old.tables { clock = self.old.tables.clock + ms } } }
    {
        self.state.clock += ms;
    }

    /// The events of the last accepted transaction or list of changes.
    pub fn changes(&self) -> &[Event]
        ensures { result.now ≡ self.now.changes }
    {
        self.changes.as_slice()
    }

    /// Does all of the operations as the entry with this number and gives the ids of their objects in order, 0 for
    /// settings; or none of them: then the refusal is that of the first that is refused, TooManyOps or NoMemory. There
    /// is at most an event of each row before and of each new one.
    pub fn txn(&mut self, version: Version, ops: &[Op]) -> Result<List<Id>, Refusal>
        ensures done { (w : World) → StandsFor self.old w → Transacts version ops.now w self.old result self.new }
        ensures few { OnOk result (length self.new.changes ≤ row_count self.old.tables + length ops.now) }
    {
        let count = ops.len();
        if count > MOST_OPS {
            return Err(Refusal::TooManyOps(count as u64));
        }
        self.state.transact(&mut self.changes, version, ops)
    }

    /// Applies the changes that a duty makes, as the entry with this number: each puts or drops a row that is there at
    /// its place in the list, or puts a task with the next id. All are applied, or none for want of memory.
    pub fn apply(&mut self, version: Version, changes: List<Change>) -> Result<(), NoMemory>
        requires { CanApplyAll self.old.tables changes }
        ensures applied { (w : World) → StandsFor self.old w
            → AppliesChanges version changes w self.old result self.new }
        ensures few { OnOk result (length self.new.changes ≤ length changes) }
    {
        self.state.apply(&mut self.changes, version, changes)
    }

    /// What the query shows: NotFound where the object isn't there, or NoMemory.
    pub fn view(&self, query: &Query) -> Result<ViewReply, Refusal>
        requires { HasNearTasks self.now.tables }
        ensures { (w : World) → StandsFor self.now w → Shows query.now w result }
    {
        self.state.shows(query)
    }

    /// How many nodes, services, tasks and networks there are.
    pub fn rows(&self) -> u64
        ensures count { result ≡ row_count self.now.tables }
        ensures few { result < self.now.tables.next_id }
    {
        self.state.rows()
    }

    /// The time of the cluster.
    pub fn now(&self) -> Ms
        ensures { result ≡ self.now.tables.clock }
    {
        self.state.now()
    }

    /// The id of the next object.
    pub fn next_id(&self) -> Id
        ensures { result ≡ self.now.tables.next_id }
    {
        self.state.next_id()
    }

    /// What holds for the whole cluster.
    pub fn settings(&self) -> Settings
        ensures { result ≡ self.now.tables.settings }
    {
        self.state.settings()
    }

    /// The node with this id.
    pub fn node(&self, id: Id) -> Option<&Node>
        ensures { option_copied result ≡ row_at node_id id self.now.tables.nodes }
    {
        self.state.node(id)
    }

    /// The node with this name.
    pub fn node_named(&self, name: &Name) -> Option<&Node>
        ensures { option_copied result ≡ node_by self.now.tables name.now }
    {
        self.state.node_named(name)
    }

    /// The service with this name.
    pub fn service_named(&self, name: &Name) -> Option<&Service>
        ensures { option_copied result ≡ service_by self.now.tables name.now }
    {
        self.state.service_named(name)
    }

    /// The service with this id.
    pub fn service(&self, id: Id) -> Option<&Service>
        ensures { option_copied result ≡ row_at service_id id self.now.tables.services }
    {
        self.state.service(id)
    }

    /// The task with this id.
    pub fn task(&self, id: Id) -> Option<&Task>
        ensures { option_copied result ≡ row_at task_id id self.now.tables.tasks }
    {
        self.state.task(id)
    }

    /// The network with this id.
    pub fn network(&self, id: Id) -> Option<&Network>
        ensures { option_copied result ≡ row_at network_id id self.now.tables.networks }
    {
        self.state.network(id)
    }

    /// The node with the least id above this one.
    pub fn next_node(&self, after: Id) -> Option<&Node>
        ensures { option_copied result ≡ row_above node_id after self.now.tables.nodes }
    {
        self.state.next_node(after)
    }

    /// The service with the least id above this one.
    pub fn next_service(&self, after: Id) -> Option<&Service>
        ensures { option_copied result ≡ row_above service_id after self.now.tables.services }
    {
        self.state.next_service(after)
    }

    /// The task with the least id above this one.
    pub fn next_task(&self, after: Id) -> Option<&Task>
        ensures { option_copied result ≡ row_above task_id after self.now.tables.tasks }
    {
        self.state.next_task(after)
    }

    /// The network with the least id above this one.
    pub fn next_network(&self, after: Id) -> Option<&Network>
        ensures { option_copied result ≡ row_above network_id after self.now.tables.networks }
    {
        self.state.next_network(after)
    }

    /// The service's task with the least id above this one.
    pub fn next_task_of(&self, service: Id, after: Id) -> Option<&Task>
        ensures { option_copied result ≡ row_above task_id after (filter (is_of service) self.now.tables.tasks) }
    {
        self.state.next_task_of(service, after)
    }

    /// The task with the least id above this one whose place is this one of the service.
    pub fn next_task_at(&self, service: Id, place: Place, after: Id) -> Option<&Task>
        ensures { option_copied result
            ≡ row_above task_id after (filter (is_at service place) self.now.tables.tasks) }
    {
        self.state.next_task_at(service, place, after)
    }

    /// The node's task with the least id above this one.
    pub fn next_task_on(&self, node: Id, after: Id) -> Option<&Task>
        ensures { option_copied result ≡ row_above task_id after (filter (is_on node) self.now.tables.tasks) }
    {
        self.state.next_task_on(node, after)
    }

    /// Ids among which those of all tasks with the key stand, these by rising number, so that a walk over these tasks
    /// looks the key up once. None where they don't stand in one list, since memory was wanting for a row.
    pub fn ids_with(&self, key: TaskKey) -> Option<&[Id]>
        ensures { let tasks = self.now.tables.tasks in
            IfSome result (λ ids. named_with key ids.now tasks ≡ filter (has_key key) tasks) }
    {
        self.state.ids_with(key)
    }

    /// The attempts that were made for this place and version of the service within the window; a window of 0 has no
    /// end.
    pub fn attempts(&self, service: Id, place: Place, version: Version, window: Ms) -> u64
        ensures { let t = self.now.tables in
            result ≡ count_by (is_kept_attempt t.clock service place version window) t.attempts }
    {
        self.state.attempts(service, place, version, window)
    }
}
