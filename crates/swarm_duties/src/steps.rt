// One entry of a history, judged and done.
ghost use Rattle.std.specs.Prelude.{◌≡◌, IfOk};
ghost use Rattle.swarm_duties.specs.Reached.{IsReached};
ghost use Rattle.swarm_objects.specs.Usable.{IsUsableWorld};
ghost use Rattle.swarm_duties.specs.Stepping.{DoesStep};
ghost use Rattle.swarm_model.specs.Calls.{is_admitted, outcome};
ghost use Rattle.swarm_model.specs.History.{may_follow};
ghost use Rattle.swarm_model.specs.Outcome.{Meets};
ghost use Rattle.swarm_objects.specs.Duties.{is_due};
ghost use Rattle.swarm_plain.specs.Plain.{world_of};

use crate::effects::do_duty;
use crate::settling::settle_call;
use plain_agents::agents::{
    is_apply_due, is_beat_due, is_exec_due, is_forget_due, is_pull_due, is_register_due,
    is_report_due,
};
use plain_orchestrators::dispatcher::{is_expire_due, is_orphan_due};
use plain_orchestrators::enforcer::is_reject_due;
use plain_orchestrators::global::{is_global_create_due, is_leave_due};
use plain_orchestrators::jobs::{is_job_create_due, is_old_due};
use plain_orchestrators::reaper::{is_delete_due, is_trim_due};
use plain_orchestrators::replicated::{is_down_due, is_gone_due, is_replicated_create_due};
use plain_orchestrators::restart::{is_raise_due, is_restart_due};
use plain_placement::allocator::{is_address_due, is_note_due, is_port_due};
use plain_placement::scheduler::{is_drop_due, is_explain_due, is_place_due};
use plain_updates::updates::{
    is_fail_due, is_finish_due, is_replace_due, is_start_due, is_swap_due,
};
use swarm_objects::limits::MOST_ENTRIES;
use swarm_objects::{Call, Duty, NoMemory, Reply, What};
use swarm_plain::Plain;
use thiserror::Error;

/// Why an entry isn't done.
#[derive(Clone, Copy, Debug, PartialEq, Eq, Error)]
pub enum StepFault {
    /// It may not follow the entries that made this world.
    #[error("the entry may not follow")]
    Illegal,
    #[error("out of memory")]
    NoMemory,
}

// The duty is among those of its control loop, whose list isn't made.
fn is_due(plain: &Plain, duty: Duty) -> bool
    requires { IsUsableWorld (world_of plain.now) }
    ensures { result ≡ is_due (world_of plain.now) duty }
{
    match duty {
        Duty::Expire(node) => is_expire_due(plain, node),
        Duty::Orphan(task) => is_orphan_due(plain, task),
        Duty::Reject(task) => is_reject_due(plain, task),
        Duty::Restart(task) => is_restart_due(plain, task),
        Duty::Raise(task) => is_raise_due(plain, task),
        Duty::Start(service) => is_start_due(plain, service),
        Duty::Fail(service) => is_fail_due(plain, service),
        Duty::Swap(service, number) => is_swap_due(plain, service, number),
        Duty::Replace(service, number) => is_replace_due(plain, service, number),
        Duty::Finish(service) => is_finish_due(plain, service),
        Duty::Gone(task) => is_gone_due(plain, task),
        Duty::Down(service, slot) => is_down_due(plain, service, slot),
        Duty::ReplicatedCreate(service, slot) => is_replicated_create_due(plain, service, slot),
        Duty::Leave(service, node) => is_leave_due(plain, service, node),
        Duty::GlobalCreate(service, node) => is_global_create_due(plain, service, node),
        Duty::Old(task) => is_old_due(plain, task),
        Duty::JobCreate(service, slot) => is_job_create_due(plain, service, slot),
        Duty::Port(service, target, udp) => is_port_due(plain, service, target, udp),
        Duty::Address(task) => is_address_due(plain, task),
        Duty::Note(task) => is_note_due(plain, task),
        Duty::Drop(task) => is_drop_due(plain, task),
        Duty::Place(task, node) => is_place_due(plain, task, node),
        Duty::Explain(task) => is_explain_due(plain, task),
        Duty::Delete(task) => is_delete_due(plain, task),
        Duty::Trim(task) => is_trim_due(plain, task),
        Duty::Register(node) => is_register_due(plain, node),
        Duty::Beat(node) => is_beat_due(plain, node),
        Duty::Apply(node) => is_apply_due(plain, node),
        Duty::Pull(node) => is_pull_due(plain, node),
        Duty::Exec(node, task) => is_exec_due(plain, node, task),
        Duty::Report(node, task) => is_report_due(plain, node, task),
        Duty::Forget(node, task) => is_forget_due(plain, node, task),
    }
}

// The duty may come next.
fn may_be_done(plain: &Plain, duty: Duty) -> bool
    requires { IsUsableWorld (world_of plain.now) }
    ensures { result ≡ may_follow (world_of plain.now) (What.Duty duty) }
{
    if plain.halted || plain.entries >= MOST_ENTRIES {
        return false;
    }
    is_due(plain, duty)
}

fn step_duty(plain: &mut Plain, duty: Duty) -> Result<Reply, StepFault>
    requires { IsReached (world_of plain.old) }
    ensures { DoesStep (world_of plain.old) (What.Duty duty) result (world_of plain.new) }
{
    if !may_be_done(plain, duty) {
        return Err(StepFault::Illegal);
    }
    match do_duty(plain, duty) {
        Ok(()) => Ok(Reply::Did),
        Err(NoMemory) => Err(StepFault::NoMemory),
    }
}

/// Answers a call, that of the settle test too. A refused call is an entry, unless the refusal is `Halted`, `Full` or
/// `NoMemory`.
pub fn answer(plain: &mut Plain, call: &Call) -> Reply
    requires { IsUsableWorld (world_of plain.old) }
    ensures { Meets (outcome (world_of plain.old) call.now) (world_of plain.old) result (world_of plain.new) }
{
    match call {
        Call::Settle(budget) => settle_call(plain, *budget),
        _ => plain.call(call),
    }
}

fn step_call(plain: &mut Plain, call: &Call) -> Result<Reply, StepFault>
    requires { IsUsableWorld (world_of plain.old) }
    ensures { DoesStep (world_of plain.old) (What.Call call.now) result (world_of plain.new) }
{
    if plain.refuses(call).is_some() {
        return Err(StepFault::Illegal);
    }
    let before = plain.entries;
    let reply = answer(plain, call);
    if plain.entries == before {
        return Err(StepFault::NoMemory);
    }
    Ok(reply)
}

/// Does one entry of a history as the next one, and gives its reply.
///
/// It is illegal exactly where it may not follow: after Halt, beyond the limit of a history unless it is Halt, or where
/// it is a duty that its control loop doesn't have. A fault changes nothing.
pub fn step(plain: &mut Plain, what: &What) -> Result<Reply, StepFault>
    requires { IsReached (world_of plain.old) }
    ensures { DoesStep (world_of plain.old) what.now result (world_of plain.new) }
{
    match what {
        What::Call(call) => step_call(plain, call),
        What::Duty(duty) => step_duty(plain, *duty),
    }
}
