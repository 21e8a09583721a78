// Doing the duties.
ghost use Rattle.std.specs.Prelude.{◌≡◌, OnErr, OnOk, [], true};
ghost use Rattle.swarm_duties.specs.Reached.{IsReached};
ghost use Rattle.swarm_objects.specs.Usable.{IsUsableWorld};
ghost use Rattle.swarm_model.specs.History.{effect};
ghost use Rattle.swarm_objects.specs.Duties.{effect_by, is_due};
ghost use Rattle.swarm_plain.specs.Plain.{world_of};

use plain_agents::agents::{apply, beat, exec, forget, pull, register, report};
use plain_orchestrators::dispatcher::{expire, orphan};
use plain_orchestrators::enforcer::reject;
use plain_orchestrators::global::{create_on_node, leave_node};
use plain_orchestrators::jobs::{create_job_task, remove_old};
use plain_orchestrators::reaper::remove_task;
use plain_orchestrators::replicated::{create_replica, remove_gone, scale_down};
use plain_orchestrators::restart::{raise, restart};
use plain_placement::allocator::{address_task, give_port, note_task};
use plain_placement::scheduler::{drop_task, explain_task, place_task};
use plain_updates::update_effects::{
    fail_update, finish_update, replace_place, start_update, swap_place,
};
use swarm_objects::{Duty, NoMemory, Version};
use swarm_plain::Plain;

// What the duty does as the entry with this number, but for the number of entries and the events.
fn perform(plain: &mut Plain, version: Version, duty: Duty) -> Result<(), NoMemory>
    requires { IsUsableWorld (world_of plain.old) }
    ensures ok { OnOk result (world_of plain.new ≡ effect_by version (world_of plain.old) duty) }
    ensures err { OnErr result (world_of plain.new ≡ world_of plain.old) }
{
    match duty {
        Duty::Expire(node) => expire(plain, version, node),
        Duty::Orphan(task) => orphan(plain, version, task),
        Duty::Reject(task) => reject(plain, version, task),
        Duty::Restart(task) => return restart(plain, version, task),
        Duty::Raise(task) => raise(plain, version, task),
        Duty::Start(service) => return start_update(plain, version, service),
        Duty::Fail(service) => return fail_update(plain, version, service),
        Duty::Swap(service, number) => swap_place(plain, version, service, number),
        Duty::Replace(service, number) => return replace_place(plain, version, service, number),
        Duty::Finish(service) => finish_update(plain, version, service),
        Duty::Gone(task) => remove_gone(plain, version, task),
        Duty::Down(service, slot) => scale_down(plain, version, service, slot),
        Duty::ReplicatedCreate(service, slot) => return create_replica(
            plain, version, service, slot,
        ),
        Duty::Leave(service, node) => leave_node(plain, version, service, node),
        Duty::GlobalCreate(service, node) => return create_on_node(plain, version, service, node),
        Duty::Old(task) => remove_old(plain, version, task),
        Duty::JobCreate(service, slot) => return create_job_task(plain, version, service, slot),
        Duty::Port(service, target, udp) => return give_port(plain, version, service, target, udp),
        Duty::Address(task) => return address_task(plain, version, task),
        Duty::Note(task) => note_task(plain, version, task),
        Duty::Drop(task) => drop_task(plain, version, task),
        Duty::Place(task, node) => place_task(plain, version, task, node),
        Duty::Explain(task) => explain_task(plain, version, task),
        Duty::Delete(task) | Duty::Trim(task) => remove_task(plain, task),
        Duty::Register(node) => return register(plain, version, node),
        Duty::Beat(node) => beat(plain, node),
        Duty::Apply(node) => return apply(plain, node),
        Duty::Pull(node) => return pull(plain, node),
        Duty::Exec(node, task) => exec(plain, node, task),
        Duty::Report(node, task) => report(plain, version, node, task),
        Duty::Forget(node, task) => forget(plain, node, task),
    }
    Ok(())
}

// The duty becomes an entry, where nobody watches.
fn do_unseen(plain: &mut Plain, duty: Duty) -> Result<(), NoMemory>
    requires usable { IsUsableWorld (world_of plain.old) }
    requires unwatched { plain.old.watchers ≡ [] }
    ensures ok { OnOk result (world_of plain.new ≡ effect (world_of plain.old) duty) }
    ensures err { OnErr result (world_of plain.new ≡ world_of plain.old) }
{
    let entry = plain.entries + 1;
    perform(plain, entry, duty)?;
    plain.end_unseen(entry);
    Ok(())
}

// The duty becomes an entry, in a copy, since the rows before it are needed to tell its events.
fn do_seen(plain: &mut Plain, duty: Duty) -> Result<(), NoMemory>
    requires reached { IsReached (world_of plain.old) }
    requires due { is_due (world_of plain.old) duty ≡ true }
    ensures ok { OnOk result (world_of plain.new ≡ effect (world_of plain.old) duty) }
    ensures err { OnErr result (world_of plain.new ≡ world_of plain.old) }
{
    let mut copy = plain.duplicate()?;
    perform(&mut copy, plain.entries + 1, duty)?;
    copy.end_seen(plain)?;
    *plain = copy;
    Ok(())
}

/// Performs the duty, which is due, as the next entry. Want of memory changes nothing.
pub fn do_duty(plain: &mut Plain, duty: Duty) -> Result<(), NoMemory>
    requires reached { IsReached (world_of plain.old) }
    requires due { is_due (world_of plain.old) duty ≡ true }
    ensures ok { OnOk result (world_of plain.new ≡ effect (world_of plain.old) duty) }
    ensures err { OnErr result (world_of plain.new ≡ world_of plain.old) }
{
    if plain.watchers.is_empty() {
        do_unseen(plain, duty)
    } else {
        do_seen(plain, duty)
    }
}
