// What inspections show of one object.
ghost use Rattle.std.specs.Prelude.{◌≡◌, IfOk, Ok};
ghost use Rattle.swarm_model.specs.Calls.Refusals.{found, on_network_by, on_node, on_service_by};
ghost use Rattle.swarm_objects.specs.Shown.{network_detail, node_detail};
ghost use Rattle.swarm_model.specs.Calls.Views.{service_detail};
ghost use Rattle.swarm_objects.specs.Shown.{task_detail};
ghost use Rattle.swarm_objects.specs.Rows.{row_at, task_id};
ghost use Rattle.swarm_store.specs.Inside.State.{Stands, tables_now};
ghost use Rattle.swarm_store.specs.Stored.{HasNearTasks};
ghost use Rattle.swarm_model.specs.Outcome.{Gets};

use crate::state::State;
use swarm_check::not_found;
use swarm_objects::details::{detail_counted, network_detail, node_detail};
use swarm_objects::shown::task_detail;
use swarm_objects::views::ServiceDetail;
use swarm_objects::{
    Duplicate, Id, Kind, Name, Network, NoMemory, Node, Refusal, Rows, Service, Task, ViewReply,
    Wanted,
};

impl State {
    pub(crate) fn inspect_node(&self, name: &Name) -> Result<ViewReply, Refusal>
        requires { Stands (tables_now self.now) }
        ensures { Gets (on_node (tables_now self.now) name.now (λ n. Ok (ViewReply.Node (node_detail n)))) result }
    {
        match self.node_named(name) {
            Some(node) => Ok(ViewReply::Node(node_detail(self.alloc, node)?)),
            None => Err(not_found(self.alloc, Kind::Node, name)),
        }
    }

    pub(crate) fn inspect_service(&self, name: &Name) -> Result<ViewReply, Refusal>
        requires stands { Stands (tables_now self.now) }
        requires near { HasNearTasks (tables_now self.now) }
        ensures { let t = tables_now self.now in
            Gets (on_service_by t name.now (λ s. Ok (ViewReply.Service (service_detail t s)))) result }
    {
        match self.service_named(name) {
            Some(service) => Ok(ViewReply::Service(self.service_detail(service)?)),
            None => Err(not_found(self.alloc, Kind::Service, name)),
        }
    }

    pub(crate) fn inspect_network(&self, name: &Name) -> Result<ViewReply, Refusal>
        requires { Stands (tables_now self.now) }
        ensures { let t = tables_now self.now in
            Gets (on_network_by t name.now (λ n. Ok (ViewReply.Network (network_detail n)))) result }
    {
        match self.network_named(name) {
            Some(network) => Ok(ViewReply::Network(network_detail(self.alloc, network)?)),
            None => Err(not_found(self.alloc, Kind::Network, name)),
        }
    }

    pub(crate) fn inspect_task(&self, id: Id) -> Result<ViewReply, Refusal>
        ensures { let t = tables_now self.now in
            let task = row_at task_id id t.tasks in
            Gets (found Kind.Task (Wanted.Id id) task (λ x. Ok (ViewReply.Task (task_detail t x)))) result }
    {
        match self.task(id) {
            Some(task) => Ok(ViewReply::Task(task_detail(self.alloc, self, task)?)),
            None => Err(Refusal::NotFound(Kind::Task, Wanted::Id(id))),
        }
    }

    fn service_detail(&self, service: &Service) -> Result<ServiceDetail, NoMemory>
        requires stands { Stands (tables_now self.now) }
        requires near { HasNearTasks (tables_now self.now) }
        ensures { IfOk result (λ detail. detail ≡ service_detail (tables_now self.now) service.now) }
    {
        let wanted = self.wanted_of(service)?;
        detail_counted(self.alloc, service, self.running_of(service), wanted)
    }
}
