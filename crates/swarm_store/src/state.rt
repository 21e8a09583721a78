// What a store holds, now and when the changes under way began.
ghost use Rattle.std.specs.Prelude.{◌≡◌, ◌<◌, ◌≤◌, ◌+◌, Bool, IfOk, IfSome, OnOk, Some, [], filter, length, true};
ghost use Rattle.std.specs.Option.{option_copied};
ghost use Rattle.std.specs.Vec.{vec_capacity};
ghost use Rattle.swarm_index.specs.Keys.{has_key as has_index_key, value_of};
ghost use Rattle.swarm_index.specs.Rows.{task_key};
ghost use Rattle.swarm_model.specs.Changed.{changes_between};
ghost use Rattle.swarm_objects.specs.Rows.{row_above, task_id};
ghost use Rattle.swarm_objects.specs.Tasks.Words.{has_key, is_at, is_of};
ghost use Rattle.swarm_objects.specs.World.{empty_tables};
ghost use Rattle.swarm_objects.specs.declared.tasks.Place.TheVariants.{Slot, On};
ghost use Rattle.swarm_objects.specs.declared.tasks.Task.{Task as Row};
ghost use Rattle.swarm_store.specs.Inside.State.{IsUntouched, Stands, changed_rows, tables_now, tables_start};
ghost use Rattle.swarm_store.specs.Stored.{row_count};

use crate::attempts::Attempts;
use crate::service_rows::Services;
use crate::tracked::Tracked;
use std::alloc::Global;
use swarm_index::IndexKey;
use swarm_index::keys::{HOST, NODE, SERVICE, SLOT};
use swarm_objects::{
    Event, Id, Kind, Ms, Network, NoMemory, Node, Place, Rows, Service, Settings, Task, TaskKey,
    Version,
};

#[derive(Drop)]
pub(crate) struct State {
    pub(crate) alloc: Global,
    pub(crate) clock: Ms,
    pub(crate) next_id: Id,
    pub(crate) nodes: Tracked<Node>,
    pub(crate) services: Services,
    pub(crate) tasks: Tracked<Task>,
    pub(crate) networks: Tracked<Network>,
    pub(crate) attempts: Attempts,
    pub(crate) settings: Settings,
    // What these were when the changes under way began.
    pub(crate) next_id_before: Id,
    pub(crate) settings_before: Settings,
}

impl State {
    pub(crate) fn new(alloc: Global) -> Result<State, NoMemory>
        ensures tables { IfOk result (λ state. tables_now state ≡ empty_tables) }
        ensures untouched { IfOk result (λ state. IsUntouched state) }
    {
        Ok(State {
            alloc,
            clock: 0,
            next_id: 1,
            nodes: Tracked::new(alloc),
            services: Services::new(alloc)?,
            tasks: Tracked::new(alloc),
            networks: Tracked::new(alloc),
            attempts: Attempts::new(alloc),
            settings: Settings::usual(),
            next_id_before: 1,
            settings_before: Settings::usual(),
        })
    }

    // The id after the next one; want of memory where the numbers are at an end.
    pub(crate) fn later_id(&self) -> Result<Id, NoMemory>
        ensures id { IfOk result (λ id. id ≡ self.now.next_id + 1) }
    {
        match self.next_id.checked_add(1) {
            Some(id) => Ok(id),
            None => Err(NoMemory),
        }
    }

    // All is again what it was. It takes no memory.
    pub(crate) fn take_back(&mut self)
        ensures now { tables_now self.new ≡ tables_start self.old }
        ensures start { tables_start self.new ≡ tables_start self.old }
        ensures changed { changed_rows self.new ≡ 0 }
    {
        self.next_id = self.next_id_before;
        self.settings = self.settings_before;
        self.nodes.take_back();
        self.services.take_back();
        self.tasks.take_back();
        self.networks.take_back();
        self.attempts.take_back();
    }

    // The changes stay.
    pub(crate) fn settle(&mut self)
        ensures now { tables_now self.new ≡ tables_now self.old }
        ensures start { tables_start self.new ≡ tables_now self.old }
        ensures changed { changed_rows self.new ≡ 0 }
    {
        self.next_id_before = self.next_id;
        self.settings_before = self.settings;
        self.nodes.settle();
        self.services.settle();
        self.tasks.settle();
        self.networks.settle();
        self.attempts.settle();
    }

    // How many rows there are.
    pub(crate) fn rows(&self) -> u64
        requires { Stands (tables_now self.now) }
        ensures { result ≡ row_count (tables_now self.now) }
    {
        sum_below(
            self.next_id,
            self.nodes.len(),
            self.services.rows().len(),
            self.tasks.len(),
            self.networks.len(),
        )
    }

    // How many rows changed, where that is a number.
    fn changed(&self) -> Option<usize>
        ensures some { IfSome result (λ n. n ≡ changed_rows self.now) }
    {
        let Some(rows) = self
            .nodes
            .changed()
            .checked_add(self.services.rows().changed())
        else {
            return None;
        };
        let Some(rows) = rows.checked_add(self.tasks.changed()) else {
            return None;
        };
        rows.checked_add(self.networks.changed())
    }

    // Places for the events of the changes under way.
    pub(crate) fn make_places(&self, events: &mut Vec<Event>) -> Result<(), NoMemory>
        ensures items { events.new.items ≡ events.old.items }
        ensures ok { OnOk result (changed_rows self.now ≤ vec_capacity events.new) }
    {
        let Some(most) = self.changed() else {
            return Err(NoMemory);
        };
        match events.reserve(most.saturating_sub(events.len())) {
            Ok(()) => Ok(()),
            Err(_) => Err(NoMemory),
        }
    }

    // Puts what became of the rows since the changes under way began, where there are places for it.
    pub(crate) fn put_events(&self, version: Version, events: &mut Vec<Event>)
        requires empty { events.old.items ≡ [] }
        requires places { changed_rows self.now ≤ vec_capacity events.old }
        ensures items { events.new.items ≡ changes_between version (tables_start self.now) (tables_now self.now) }
        ensures few { length events.new.items ≤ changed_rows self.now }
    {
        self.nodes.put_events(version, Kind::Node, events);
        self.services
            .rows()
            .put_events(version, Kind::Service, events);
        self.tasks.put_events(version, Kind::Task, events);
        self.networks.put_events(version, Kind::Network, events);
    }
}

// The sum of the counts, which is less than an id.
fn sum_below(id: Id, nodes: usize, services: usize, tasks: usize, networks: usize) -> u64
    requires { nodes + services + tasks + networks < id }
    ensures { result ≡ nodes + services + tasks + networks }
{
    (nodes + services + tasks + networks) as u64
}

// Of sessions a store knows nothing.
impl Rows for State {
    ghost tables = { tables_now };

    fn now(&self) -> Ms {
        self.clock
    }

    fn next_id(&self) -> Id {
        self.next_id
    }

    fn settings(&self) -> Settings {
        self.settings
    }

    fn node(&self, id: Id) -> Option<&Node> {
        self.nodes.get(id)
    }

    fn service(&self, id: Id) -> Option<&Service> {
        self.services.rows().get(id)
    }

    fn task(&self, id: Id) -> Option<&Task> {
        self.tasks.get(id)
    }

    fn network(&self, id: Id) -> Option<&Network> {
        self.networks.get(id)
    }

    fn next_node(&self, after: Id) -> Option<&Node> {
        self.nodes.next(after)
    }

    fn next_service(&self, after: Id) -> Option<&Service> {
        self.services.rows().next(after)
    }

    fn next_task(&self, after: Id) -> Option<&Task> {
        match task_behind(&self.tasks, after) {
            Some(task) => Some(task),
            None => self.tasks.next(after),
        }
    }

    fn next_network(&self, after: Id) -> Option<&Network> {
        self.networks.next(after)
    }

    fn next_task_of(&self, service: Id, after: Id) -> Option<&Task> {
        match task_behind(&self.tasks, after) {
            Some(task) if task.service == service => Some(task),
            _ => next_of_service(&self.tasks, service, after),
        }
    }

    fn next_task_at(&self, service: Id, place: Place, after: Id) -> Option<&Task> {
        match place {
            Place::Slot(slot) => next_in_slot(&self.tasks, service, slot, after),
            Place::On(node) => next_on_host(&self.tasks, service, node, after),
        }
    }

    #[tactic(auto, using(crate::proofs::Lookups::on_node))]
    fn next_task_on(&self, node: Id, after: Id) -> Option<&Task> {
        self.tasks.next_by_key(NODE, &IndexKey::Num(node), after)
    }

    fn ids_with(&self, key: TaskKey) -> Option<&[Id]> {
        let (which, index_key) = index_key_of(key);
        self.tasks.ids_by_key(which, &index_key)
    }

    fn session_live(&self, _node: Id) -> bool {
        false
    }

    fn attempts(&self, service: Id, place: Place, version: Version, window: Ms) -> u64 {
        self.attempts
            .count(self.clock, service, place, version, window)
    }
}

// The index's number of the key, and the key there.
#[tactic(auto, using(crate::proofs::Lookups::same_keys))]
fn index_key_of(key: TaskKey) -> (u32, IndexKey<'static>)
    ensures which { result.0 < 4 }
    ensures alike { (x : Row) → has_index_key task_key result.0 (value_of result.1) x ≡ has_key key x }
{
    match key {
        TaskKey::Service(service) => (SERVICE, IndexKey::Num(service)),
        TaskKey::Place(service, Place::Slot(slot)) => (SLOT, IndexKey::Pair(service, slot)),
        TaskKey::Place(service, Place::On(node)) => (HOST, IndexKey::Pair(service, node)),
        TaskKey::Node(node) => (NODE, IndexKey::Num(node)),
    }
}

// The task whose id is the next number. Tasks of one service are mostly made in a row, so the next task, also of a
// service, is mostly this one, and found by one look-up.
#[tactic(auto, using(crate::proofs::Lookups::behind_is_least, crate::proofs::Lookups::behind_is_next))]
fn task_behind(tasks: &Tracked<Task>, after: Id) -> Option<&Task>
    ensures all { IfSome result (λ task. row_above task_id after tasks.now.rows ≡ Some task.now) }
    ensures some { IfSome result (λ task. (p : Row → Bool) → p task.now ≡ true →
        row_above task_id after (filter p tasks.now.rows) ≡ Some task.now) }
{
    tasks.rise();
    let id = after.checked_add(1)?;
    tasks.get(id)
}

// The service's task with the least id above this one.
#[tactic(auto, using(crate::proofs::Lookups::of_service))]
fn next_of_service(tasks: &Tracked<Task>, service: Id, after: Id) -> Option<&Task>
    ensures { option_copied result ≡ row_above task_id after (filter (is_of service) tasks.now.rows) }
{
    tasks.next_by_key(SERVICE, &IndexKey::Num(service), after)
}

// The task with the least id above this one in the service's slot.
#[tactic(auto, using(crate::proofs::Lookups::at_slot))]
fn next_in_slot(tasks: &Tracked<Task>, service: Id, slot: u64, after: Id) -> Option<&Task>
    ensures { option_copied result ≡ row_above task_id after (filter (is_at service (Slot slot)) tasks.now.rows) }
{
    tasks.next_by_key(SLOT, &IndexKey::Pair(service, slot), after)
}

// The task with the least id above this one of those that have this node for their place.
#[tactic(auto, using(crate::proofs::Lookups::at_host))]
fn next_on_host(tasks: &Tracked<Task>, service: Id, node: Id, after: Id) -> Option<&Task>
    ensures { option_copied result ≡ row_above task_id after (filter (is_at service (On node)) tasks.now.rows) }
{
    tasks.next_by_key(HOST, &IndexKey::Pair(service, node), after)
}
