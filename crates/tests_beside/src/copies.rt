// A copy of the plain world before an entry, on which changes of rows are made.
ghost use Rattle.std.specs.Prelude.{◌≡◌, OnOk, true};
ghost use Rattle.swarm_plain.specs.Plain.{tables_of};
ghost use Rattle.swarm_objects.specs.ChangeLists.{CanApply, CanApplyAll, apply_change, apply_changes};
ghost use Rattle.swarm_store.specs.Stored.{without_sessions};

use crate::faults::Fault;
use crate::notes::differs;
use swarm_duties::Replay;
use swarm_objects::{
    Attempt, Change, Duplicate, Id, Node, Rows, Same, Service, Task, add, drop_row, put_row,
};
use swarm_plain::Plain;

fn put_node(copy: &mut Plain, node: &Node) -> Result<(), Fault>
    ensures can { OnOk result (CanApply (tables_of copy.old) (Change.PutNode node.now)) }
    ensures made { OnOk result (tables_of copy.new ≡ apply_change (tables_of copy.old) (Change.PutNode node.now)) }
{
    if copy.node(node.id).is_none() {
        return Err(Fault::Differs);
    }
    let row = node.duplicate(copy.alloc)?;
    put_row(copy.alloc, &mut copy.nodes, row)?;
    Ok(())
}

fn put_service(copy: &mut Plain, row: &Service) -> Result<(), Fault>
    ensures can { OnOk result (CanApply (tables_of copy.old) (Change.PutService row.now)) }
    ensures made { OnOk result (tables_of copy.new ≡ apply_change (tables_of copy.old) (Change.PutService row.now)) }
{
    if copy.service(row.id).is_none() {
        return Err(Fault::Differs);
    }
    let same = row.duplicate(copy.alloc)?;
    put_row(copy.alloc, &mut copy.services, same)?;
    Ok(())
}

// A task takes the place of the one with its id, or comes as the next object.
fn put_task(copy: &mut Plain, task: &Task) -> Result<(), Fault>
    ensures can { OnOk result (CanApply (tables_of copy.old) (Change.PutTask task.now)) }
    ensures made { OnOk result (tables_of copy.new ≡ apply_change (tables_of copy.old) (Change.PutTask task.now)) }
{
    if copy.task(task.id).is_some() {
        let row = task.duplicate(copy.alloc)?;
        put_row(copy.alloc, &mut copy.tasks, row)?;
        Ok(())
    } else if task.id == copy.next_id && copy.next_id < u64::MAX {
        let row = task.duplicate(copy.alloc)?;
        add(&mut copy.tasks, row)?;
        copy.next_id += 1;
        Ok(())
    } else {
        Err(Fault::Differs)
    }
}

fn drop_task(copy: &mut Plain, id: Id) -> Result<(), Fault>
    ensures can { OnOk result (CanApply (tables_of copy.old) (Change.DropTask id)) }
    ensures made { OnOk result (tables_of copy.new ≡ apply_change (tables_of copy.old) (Change.DropTask id)) }
{
    if copy.task(id).is_none() {
        return Err(Fault::Differs);
    }
    drop_row(&mut copy.tasks, id);
    Ok(())
}

fn keep(copy: &mut Plain, attempt: Attempt) -> Result<(), Fault>
    ensures made { OnOk result (tables_of copy.new ≡ apply_change (tables_of copy.old) (Change.Keep attempt)) }
{
    add(&mut copy.attempts, attempt)?;
    Ok(())
}

fn apply(copy: &mut Plain, change: &Change) -> Result<(), Fault>
    ensures can { OnOk result (CanApply (tables_of copy.old) change.now) }
    ensures made { OnOk result (tables_of copy.new ≡ apply_change (tables_of copy.old) change.now) }
{
    match change {
        Change::PutNode(node) => put_node(copy, node),
        Change::PutService(service) => put_service(copy, service),
        Change::PutTask(task) => put_task(copy, task),
        Change::DropTask(id) => drop_task(copy, *id),
        Change::Keep(attempt) => keep(copy, *attempt),
    }
}

/// Makes the changes one after the other, if each may be made at its place.
pub(crate) fn apply_all(copy: &mut Plain, changes: &[Change]) -> Result<(), Fault>
    ensures can { OnOk result (CanApplyAll (tables_of copy.old) changes.now) }
    ensures made { OnOk result (tables_of copy.new ≡ apply_changes (tables_of copy.old) changes.now) }
{
    match changes {
        [] => Ok(()),
        [first, rest @ ..] => {
            apply(copy, first)?;
            apply_all(copy, rest)
        }
    }
}

fn has_same_attempts(left: &[Attempt], right: &[Attempt]) -> bool
    ensures { result ≡ true → left.now ≡ right.now }
{
    match left {
        [] => right.is_empty(),
        [one, rest @ ..] => match right {
            [] => false,
            [other, others @ ..] => one == other && has_same_attempts(rest, others),
        },
    }
}

fn has_same_rows(left: &Plain, right: &Plain) -> bool
    ensures { result ≡ true → without_sessions (tables_of left.now) ≡ without_sessions (tables_of right.now) }
{
    left.clock == right.clock
        && left.next_id == right.next_id
        && left.settings == right.settings
        && left.nodes.same(&right.nodes)
        && left.services.same(&right.services)
        && left.tasks.same(&right.tasks)
        && left.networks.same(&right.networks)
        && has_same_attempts(left.attempts.as_slice(), right.attempts.as_slice())
}

/// Goes on only where the copy has the rows of the world so far.
pub(crate) fn compare_rows(copy: &Plain, replay: &Replay, note: &mut Vec<u8>) -> Result<(), Fault>
    ensures { OnOk result (without_sessions (tables_of copy.now) ≡ without_sessions replay.now.tables) }
{
    if has_same_rows(copy, replay.plain()) {
        Ok(())
    } else {
        Err(differs(note, b"the rows differ that the changes make\n"))
    }
}
