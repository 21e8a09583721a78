// The operations on nodes.
ghost use Rattle.std.specs.Prelude.{None, Some, if◌then◌else◌, not, ◌&&◌, ◌<◌, ◌≡◌, ◌∷◌, IfOk};
ghost use Rattle.std.specs.Prelude.{OnOk, [], length};
ghost use Rattle.std.specs.Option.{option_map};
ghost use Rattle.std.specs.Result.{result_err};
ghost use Rattle.swarm_model.specs.Calls.Nodes.{broken_node, is_left_behind};
ghost use Rattle.swarm_objects.specs.NewRows.{new_node, respecified_node};
ghost use Rattle.swarm_model.specs.Calls.Refusals.{conflict, name_taken, node_by, too_many};
ghost use Rattle.swarm_objects.specs.Refusals.{first_refusal, refuse};
ghost use Rattle.swarm_objects.specs.Nodes.Words.{is_down};
ghost use Rattle.swarm_objects.specs.Tasks.Words.{is_not_over};
ghost use Rattle.swarm_objects.specs.declared.tasks.Task.{Task as Row};
ghost use Rattle.swarm_objects.specs.Changes.{change_where, in_state};
ghost use Rattle.swarm_objects.specs.Limits.{most_nodes};
ghost use Rattle.swarm_objects.specs.Rows.{node_id};
ghost use Rattle.swarm_store.specs.Inside.Ops.{Does};
ghost use Rattle.swarm_store.specs.Inside.State.{Stands, tables_now, tables_start, with_changed};

use crate::state::State;
use crate::transactions::check_version;
use std::alloc::Global;
use swarm_check::{check_node, new_node, not_found, respecified_node};
use swarm_objects::effects::in_state;
use swarm_objects::limits::MOST_NODES;
use swarm_objects::{
    Availability, Duplicate, Id, Kind, Labels, Ms, Name, NoMemory, Node, NodeDraft, NodeRole, Op,
    Refusal, Rows, Task, TaskState, Version,
};

// The task as its node leaves it behind, where it isn't over.
fn orphan_of(
    alloc: Global,
    version: Version,
    now: Ms,
    task: &Task,
) -> Result<Option<Task>, NoMemory>
    ensures { IfOk result (λ orphan. orphan ≡
        (if is_not_over task.now then Some (in_state version now TaskState.Orphaned task.now) else None)) }
{
    if !task.is_not_over() {
        return Ok(None);
    }
    Ok(Some(in_state(alloc, task, version, now, TaskState::Orphaned)?))
}

// A node that isn't DOWN is removed by force alone.
fn check_removal(force: bool, node: &Node) -> Result<(), Refusal>
    ensures { result_err result ≡
        refuse (not force && not (is_down node.now.state)) (Refusal.NodeNotDown node.now.state) }
{
    if !force && !node.is_down() {
        return Err(Refusal::NodeNotDown(node.state));
    }
    Ok(())
}

// Why an update of a node is refused.
fn check_node_update(asked: Option<Version>, version: Version, node: &Node) -> Result<(), Refusal>
    ensures { result_err result ≡ first_refusal (conflict asked version ∷ broken_node node.now ∷ []) }
{
    check_version(asked, version)?;
    if let Err(rule) = check_node(node) {
        return Err(Refusal::BadSpec(rule));
    }
    Ok(())
}

impl State {
    // The id of the node with this name.
    fn node_id(&self, name: &Name) -> Option<Id>
        requires { Stands (tables_now self.now) }
        ensures { result ≡ option_map node_id (node_by (tables_now self.now) name.now) }
    {
        match self.node_named(name) {
            Some(node) => Some(node.id),
            None => None,
        }
    }

    // Why a node that joins is refused.
    fn check_new_node(&self, node: &Node) -> Result<(), Refusal>
        requires { Stands (tables_now self.now) }
        ensures { result_err result ≡ first_refusal (
            broken_node node.now
            ∷ name_taken (option_map node_id (node_by (tables_now self.now) node.now.name))
            ∷ too_many Kind.Node most_nodes (length self.now.nodes.rows)
            ∷ []) }
    {
        if let Err(rule) = check_node(node) {
            return Err(Refusal::BadSpec(rule));
        }
        if let Some(id) = self.node_id(&node.name) {
            return Err(Refusal::NameTaken(id));
        }
        let count = self.nodes.len();
        if count >= MOST_NODES {
            return Err(Refusal::TooMany(Kind::Node, count as u64));
        }
        Ok(())
    }

    // A node joins.
    pub(crate) fn create_node(
        &mut self,
        version: Version,
        name: &Name,
        draft: &NodeDraft,
    ) -> Result<Id, Refusal>
        requires { Stands (tables_now self.old) }
        ensures done { Does version (Op.CreateNode name.now draft.now) self.old result self.new }
        ensures start { tables_start self.new ≡ tables_start self.old }
    {
        let id = self.next_id;
        let next_id = self.later_id()?;
        let node = new_node(self.alloc, version, id, name, draft)?;
        self.check_new_node(&node)?;
        self.nodes.put(node)?;
        self.next_id = next_id;
        Ok(id)
    }

    // A node's labels, role and availability are these.
    pub(crate) fn update_node(
        &mut self,
        version: Version,
        name: &Name,
        asked: Option<Version>,
        labels: &Labels,
        role: NodeRole,
        availability: Availability,
    ) -> Result<Id, Refusal>
        requires { Stands (tables_now self.old) }
        ensures done { Does version (Op.UpdateNode name.now asked labels.now role availability)
            self.old result self.new }
        ensures start { tables_start self.new ≡ tables_start self.old }
    {
        let Some(node) = self.node_named(name) else {
            return Err(not_found(self.alloc, Kind::Node, name));
        };
        let new = respecified_node(self.alloc, version, labels, role, availability, node)?;
        check_node_update(asked, node.version, &new)?;
        let id = node.id;
        self.nodes.put(new)?;
        Ok(id)
    }

    // Every task of the node up to RUNNING is ORPHANED now.
    fn orphan(&mut self, version: Version, node: Id) -> Result<(), NoMemory>
        requires { Stands (tables_now self.old) }
        ensures done { OnOk result (tables_now self.new ≡
            change_where (is_left_behind node) (in_state version self.old.clock TaskState.Orphaned)
            (tables_now self.old)) }
        ensures start { tables_start self.new ≡ tables_start self.old }
    {
        let mut after = 0;
        while let Some(task) = self.next_task_on(node, after) {
            after = task.id;
            let orphan = orphan_of(self.alloc, version, self.clock, task)?;
            self.put_changed(orphan)?;
        }
        Ok(())
    }

    // Puts the task, where it changed.
    fn put_changed(&mut self, task: Option<Task>) -> Result<(), NoMemory>
        requires { (x : Row) → task ≡ Some x → 0 < x.id }
        ensures ok { OnOk result (tables_now self.new ≡
            record (tables_now self.old) { tasks = with_changed task self.old.tasks.rows }) }
        ensures start { tables_start self.new ≡ tables_start self.old }
    {
        match task {
            Some(task) => self.tasks.put(task),
            None => Ok(()),
        }
    }

    // A node leaves. Its tasks up to RUNNING are left behind.
    pub(crate) fn remove_node(
        &mut self,
        version: Version,
        name: &Name,
        force: bool,
    ) -> Result<Id, Refusal>
        requires { Stands (tables_now self.old) }
        ensures done { Does version (Op.RemoveNode name.now force) self.old result self.new }
        ensures start { tables_start self.new ≡ tables_start self.old }
    {
        let Some(node) = self.node_named(name) else {
            return Err(not_found(self.alloc, Kind::Node, name));
        };
        check_removal(force, node)?;
        let id = node.id;
        self.orphan(version, id)?;
        self.nodes.remove(id)?;
        Ok(id)
    }
}
