// What queries show: lists of objects, and how an object is named.
ghost use Rattle.std.specs.Prelude.{◌≡◌, filter, map, IfOk, Ok};
ghost use Rattle.swarm_model.specs.Calls.Refusals.{on_service_by};
ghost use Rattle.swarm_objects.specs.Shown.{is_shown_running};
ghost use Rattle.swarm_model.specs.Calls.Views.{network_row, running_of, service_row, shown, shows, tasks_shown, wanted_of};
ghost use Rattle.swarm_objects.specs.Shown.{task_shown};
ghost use Rattle.swarm_objects.specs.Tasks.Words.{is_of};
ghost use Rattle.swarm_store.specs.Inside.State.{Stands, tables_now};
ghost use Rattle.swarm_store.specs.Stored.{HasNearTasks};
ghost use Rattle.swarm_model.specs.Outcome.{Gets};

use crate::held::held_count;
use crate::state::State;
use crate::walks::{all, service_tasks};
use swarm_check::not_found;
use swarm_objects::details::{is_shown_running, service_counted};
use swarm_objects::shown::task_shown;
use swarm_objects::views::{NetworkShown, NodeShown, ServiceShown, TaskShown};
use swarm_objects::{
    Duplicate, Id, Kind, List, Mode, Name, NoMemory, Query, Refusal, Rows, Service, ViewReply, add,
};

impl State {
    // What the query shows, or why it is refused.
    pub(crate) fn shows(&self, query: &Query) -> Result<ViewReply, Refusal>
        requires stands { Stands (tables_now self.now) }
        requires near { HasNearTasks (tables_now self.now) }
        ensures { Gets (shows (tables_now self.now) query.now) result }
    {
        match query {
            Query::ListNodes => Ok(ViewReply::Nodes(self.nodes_shown()?)),
            Query::ListServices => Ok(ViewReply::Services(self.services_shown()?)),
            Query::ListNetworks => Ok(ViewReply::Networks(self.networks_shown()?)),
            Query::ListTasks(None) => Ok(ViewReply::Tasks(self.tasks_shown()?)),
            Query::ListTasks(Some(name)) => self.tasks_of_service(name),
            Query::InspectNode(name) => self.inspect_node(name),
            Query::InspectService(name) => self.inspect_service(name),
            Query::InspectNetwork(name) => self.inspect_network(name),
            Query::InspectTask(id) => self.inspect_task(*id),
            Query::Clock => Ok(ViewReply::Clock(self.clock)),
        }
    }

    fn nodes_shown(&self) -> Result<List<NodeShown>, NoMemory>
        requires { Stands (tables_now self.now) }
        ensures { IfOk result (λ rows. rows ≡ map shown (tables_now self.now).nodes) }
    {
        let mut rows = List::new(self.alloc);
        for node in all(&self.nodes) {
            let row = NodeShown {
                id: node.id,
                name: node.name.duplicate(self.alloc)?,
                state: node.state,
                availability: node.availability,
                role: node.role,
                cpu: node.cpu,
                mem: node.mem,
            };
            add(&mut rows, row)?;
        }
        Ok(rows)
    }

    fn services_shown(&self) -> Result<List<ServiceShown>, NoMemory>
        requires stands { Stands (tables_now self.now) }
        requires near { HasNearTasks (tables_now self.now) }
        ensures { IfOk result (λ rows. rows ≡ map (service_row (tables_now self.now)) (tables_now self.now).services) }
    {
        let mut rows = List::new(self.alloc);
        for service in all(self.services.rows()) {
            add(&mut rows, self.service_row(service)?)?;
        }
        Ok(rows)
    }

    fn service_row(&self, service: &Service) -> Result<ServiceShown, NoMemory>
        requires stands { Stands (tables_now self.now) }
        requires near { HasNearTasks (tables_now self.now) }
        ensures { IfOk result (λ row. row ≡ service_row (tables_now self.now) service.now) }
    {
        let wanted = self.wanted_of(service)?;
        service_counted(self.alloc, service, self.running_of(service), wanted)
    }

    // How many of its live tasks were seen running.
    pub(crate) fn running_of(&self, service: &Service) -> u64
        requires { Stands (tables_now self.now) }
        ensures { result ≡ running_of (tables_now self.now) service.now }
    {
        self.tasks.are_few();
        let mut count = 0;
        for task in service_tasks(self, service.id) {
            if is_shown_running(service, task) {
                count += 1;
            }
        }
        count
    }

    // How many tasks it is to have.
    pub(crate) fn wanted_of(&self, service: &Service) -> Result<u64, NoMemory>
        requires stands { Stands (tables_now self.now) }
        requires near { HasNearTasks (tables_now self.now) }
        ensures { IfOk result (λ wanted. wanted ≡ wanted_of (tables_now self.now) service.now service.now.spec.mode) }
    {
        match service.spec.mode {
            Mode::Replicated(replicas) => Ok(replicas),
            Mode::Global => Ok(held_count(self, service)),
            Mode::Job { total, .. } => Ok(total),
        }
    }

    fn networks_shown(&self) -> Result<List<NetworkShown>, NoMemory>
        requires { Stands (tables_now self.now) }
        ensures { IfOk result (λ rows. rows ≡ map network_row (tables_now self.now).networks) }
    {
        let mut rows = List::new(self.alloc);
        for network in all(&self.networks) {
            let row = NetworkShown {
                id: network.id,
                name: network.name.duplicate(self.alloc)?,
                base: network.base,
                length: network.length,
            };
            add(&mut rows, row)?;
        }
        Ok(rows)
    }

    fn tasks_shown(&self) -> Result<List<TaskShown>, NoMemory>
        requires { Stands (tables_now self.now) }
        ensures { IfOk result (λ rows. rows ≡ map (task_shown (tables_now self.now)) (tables_now self.now).tasks) }
    {
        let mut rows = List::new(self.alloc);
        for task in all(&self.tasks) {
            add(&mut rows, task_shown(self.alloc, self, task)?)?;
        }
        Ok(rows)
    }

    // The tasks of the service with this name.
    fn tasks_of_service(&self, name: &Name) -> Result<ViewReply, Refusal>
        requires { Stands (tables_now self.now) }
        ensures { let t = tables_now self.now in
            Gets (on_service_by t name.now (λ s. Ok (tasks_shown t (filter (is_of s.id) t.tasks)))) result }
    {
        match self.service_named(name) {
            Some(service) => Ok(ViewReply::Tasks(self.tasks_of(service.id)?)),
            None => Err(not_found(self.alloc, Kind::Service, name)),
        }
    }

    fn tasks_of(&self, service: Id) -> Result<List<TaskShown>, NoMemory>
        requires { Stands (tables_now self.now) }
        ensures { let t = tables_now self.now in
            IfOk result (λ rows. rows ≡ map (task_shown t) (filter (is_of service) t.tasks)) }
    {
        let mut rows = List::new(self.alloc);
        for task in service_tasks(self, service) {
            add(&mut rows, task_shown(self.alloc, self, task)?)?;
        }
        Ok(rows)
    }
}
