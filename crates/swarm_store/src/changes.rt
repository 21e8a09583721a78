// Changes of duties, one after the other.
ghost use Rattle.std.specs.Prelude.{◌≡◌, ◌≤◌, ◌+◌, OnErr, OnOk, length, true};
ghost use Rattle.swarm_model.specs.Changed.{changes_between};
ghost use Rattle.swarm_objects.specs.Rows.{has_row, node_id, service_id, task_id};
ghost use Rattle.swarm_objects.specs.Tasks.New.{with_task};
ghost use Rattle.swarm_objects.specs.ChangeLists.{CanApply, CanApplyAll, apply_change, apply_changes, put_task};
ghost use Rattle.swarm_store.specs.Inside.State.{IsUntouched, Stands, changed_rows, tables_now, tables_start};

use crate::state::State;
use std::collections::VecDeque;
use swarm_objects::{
    Attempt, Change, Event, Id, List, NoMemory, Node, Rows, Service, Task, Version,
};

impl State {
    // A node takes the place of the one with its id.
    fn put_node(&mut self, node: Node) -> Result<(), NoMemory>
        requires stands { Stands (tables_now self.old) }
        requires there { has_row node_id node.id self.old.nodes.rows ≡ true }
        ensures ok { OnOk result (tables_now self.new ≡ apply_change (tables_now self.old) (Change.PutNode node)) }
        ensures start { tables_start self.new ≡ tables_start self.old }
        ensures changed { changed_rows self.new ≤ changed_rows self.old + 1 }
    {
        self.nodes.put(node)
    }

    // A service takes the place of the one with its id.
    fn put_service(&mut self, service: Service) -> Result<(), NoMemory>
        requires stands { Stands (tables_now self.old) }
        requires there { has_row service_id service.id self.old.services.rows ≡ true }
        ensures ok { OnOk result (
            tables_now self.new ≡ apply_change (tables_now self.old) (Change.PutService service)) }
        ensures start { tables_start self.new ≡ tables_start self.old }
        ensures changed { changed_rows self.new ≤ changed_rows self.old + 1 }
    {
        self.services.put(service)
    }

    fn has_task(&self, id: Id) -> bool
        ensures { result ≡ has_row task_id id self.now.tasks.rows }
    {
        match self.task(id) {
            Some(_) => true,
            None => false,
        }
    }

    // A task takes the place of the one with its id.
    fn replace_task(&mut self, task: Task) -> Result<(), NoMemory>
        requires stands { Stands (tables_now self.old) }
        requires there { has_row task_id task.id self.old.tasks.rows ≡ true }
        ensures ok { OnOk result (tables_now self.new ≡ put_task (tables_now self.old) task) }
        ensures start { tables_start self.new ≡ tables_start self.old }
        ensures changed { changed_rows self.new ≤ changed_rows self.old + 1 }
    {
        self.tasks.put(task)
    }

    // A task comes, with the next id.
    fn add_task(&mut self, task: Task) -> Result<(), NoMemory>
        requires stands { Stands (tables_now self.old) }
        requires id { task.id ≡ self.old.next_id }
        ensures ok { OnOk result (tables_now self.new ≡ with_task (tables_now self.old) task) }
        ensures start { tables_start self.new ≡ tables_start self.old }
        ensures changed { changed_rows self.new ≤ changed_rows self.old + 1 }
    {
        let Ok(next_id) = self.later_id() else {
            return Err(NoMemory);
        };
        let Ok(()) = self.tasks.put(task) else {
            return Err(NoMemory);
        };
        self.next_id = next_id;
        Ok(())
    }

    fn put_task(&mut self, task: Task) -> Result<(), NoMemory>
        requires stands { Stands (tables_now self.old) }
        requires can { CanApply (tables_now self.old) (Change.PutTask task) }
        ensures ok { OnOk result (tables_now self.new ≡ put_task (tables_now self.old) task) }
        ensures start { tables_start self.new ≡ tables_start self.old }
        ensures changed { changed_rows self.new ≤ changed_rows self.old + 1 }
    {
        if self.has_task(task.id) {
            self.replace_task(task)
        } else {
            self.add_task(task)
        }
    }

    // The task with this id goes.
    fn remove_task(&mut self, id: Id) -> Result<(), NoMemory>
        requires stands { Stands (tables_now self.old) }
        requires there { has_row task_id id self.old.tasks.rows ≡ true }
        ensures ok { OnOk result (tables_now self.new ≡ apply_change (tables_now self.old) (Change.DropTask id)) }
        ensures start { tables_start self.new ≡ tables_start self.old }
        ensures changed { changed_rows self.new ≤ changed_rows self.old + 1 }
    {
        self.tasks.remove(id)
    }

    // An attempt is kept.
    fn keep(&mut self, attempt: Attempt) -> Result<(), NoMemory>
        ensures ok { OnOk result (tables_now self.new ≡ apply_change (tables_now self.old) (Change.Keep attempt)) }
        ensures start { tables_start self.new ≡ tables_start self.old }
        ensures changed { changed_rows self.new ≤ changed_rows self.old + 1 }
    {
        self.attempts.keep(attempt)
    }

    fn apply_change(&mut self, change: Change) -> Result<(), NoMemory>
        requires stands { Stands (tables_now self.old) }
        requires can { CanApply (tables_now self.old) change }
        ensures ok { OnOk result (tables_now self.new ≡ apply_change (tables_now self.old) change) }
        ensures start { tables_start self.new ≡ tables_start self.old }
        ensures changed { changed_rows self.new ≤ changed_rows self.old + 1 }
    {
        match change {
            Change::PutNode(node) => self.put_node(node),
            Change::PutService(service) => self.put_service(service),
            Change::PutTask(task) => self.put_task(task),
            Change::DropTask(id) => self.remove_task(id),
            Change::Keep(attempt) => self.keep(attempt),
        }
    }

    // Applies the changes one after the other. Where memory is wanting, the earlier ones stay.
    fn apply_changes(&mut self, changes: List<Change>) -> Result<(), NoMemory>
        requires stands { Stands (tables_now self.old) }
        requires can { CanApplyAll (tables_now self.old) changes }
        ensures ok { OnOk result (tables_now self.new ≡ apply_changes (tables_now self.old) changes) }
        ensures stands { OnOk result (Stands (tables_now self.new)) }
        ensures start { tables_start self.new ≡ tables_start self.old }
        ensures changed { OnOk result (changed_rows self.new ≤ changed_rows self.old + length changes) }
    {
        let mut left = VecDeque::from_vec(changes.into_vec());
        while let Some(change) = left.pop_front() {
            let Ok(()) = self.apply_change(change) else {
                return Err(NoMemory);
            };
        }
        Ok(())
    }

    // The changes under way stay, and what became of the rows is told; or they are taken back for want of memory.
    pub(crate) fn commit(
        &mut self,
        events: &mut Vec<Event>,
        version: Version,
    ) -> Result<(), NoMemory>
        ensures ok { OnOk result (
            (tables_now self.new ≡ tables_now self.old) × (tables_start self.new ≡ tables_now self.old)
            × (events.new.items ≡ changes_between version (tables_start self.old) (tables_now self.old))
            ) }
        ensures err { OnErr result (
            (tables_now self.new ≡ tables_start self.old) × (tables_start self.new ≡ tables_start self.old)
            × (events.new.items ≡ events.old.items)
            ) }
        ensures changed { changed_rows self.new ≡ 0 }
        ensures few { OnOk result (length events.new.items ≤ changed_rows self.old) }
    {
        let Ok(()) = self.make_places(events) else {
            self.take_back();
            return Err(NoMemory);
        };
        events.clear();
        self.put_events(version, events);
        self.settle();
        Ok(())
    }

    // Applies all of the changes, or none.
    pub(crate) fn apply(
        &mut self,
        events: &mut Vec<Event>,
        version: Version,
        changes: List<Change>,
    ) -> Result<(), NoMemory>
        requires untouched { IsUntouched self.old }
        requires can { CanApplyAll (tables_now self.old) changes }
        ensures untouched { IsUntouched self.new }
        ensures ok { OnOk result (
            (tables_now self.new ≡ apply_changes (tables_now self.old) changes)
            × (events.new.items ≡ changes_between version (tables_now self.old) (tables_now self.new))
            ) }
        ensures err { OnErr result (
            (tables_now self.new ≡ tables_now self.old) × (events.new.items ≡ events.old.items)
            ) }
        ensures few { OnOk result (length events.new.items ≤ length changes) }
    {
        let Ok(()) = self.apply_changes(changes) else {
            self.take_back();
            return Err(NoMemory);
        };
        self.commit(events, version)
    }
}
