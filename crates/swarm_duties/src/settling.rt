// The duties of each control loop, and the settle test.
ghost use Rattle.std.specs.Prelude.{◌≡◌, IfOk};
ghost use Rattle.swarm_objects.specs.Usable.{IsUsableWorld};
ghost use Rattle.swarm_settle.specs.Matched.{IsMatched};
ghost use Rattle.swarm_model.specs.Calls.{outcome};
ghost use Rattle.swarm_model.specs.Outcome.{Meets};
ghost use Rattle.swarm_model.specs.Settle.{settle_answer};
ghost use Rattle.swarm_objects.specs.Duties.{duties, first_duty};
ghost use Rattle.swarm_objects.specs.Kinds.{roles};
ghost use Rattle.swarm_objects.specs.Rows.{first_of};
ghost use Rattle.swarm_plain.specs.Plain.{world_of};

use crate::idle::idle_answer;
use plain_agents::agents::agents_duties;
use plain_orchestrators::dispatcher::dispatcher_duties;
use plain_orchestrators::enforcer::enforcer_duties;
use plain_orchestrators::global::global_duties;
use plain_orchestrators::jobs::job_duties;
use plain_orchestrators::reaper::reaper_duties;
use plain_orchestrators::replicated::replicated_duties;
use plain_orchestrators::restart::restart_duties;
use plain_placement::allocator::allocator_duties;
use plain_placement::scheduler::scheduler_duties;
use plain_updates::updates::update_duties;
use swarm_objects::{Call, Duty, List, NoMemory, Refusal, Reply, Role, Settle};
use swarm_plain::Plain;

/// What the control loop has to do, in order.
pub fn duties(plain: &Plain, role: Role) -> Result<List<Duty>, NoMemory>
    requires { IsUsableWorld (world_of plain.now) }
    ensures { IfOk result (λ list. list ≡ duties role (world_of plain.now)) }
{
    match role {
        Role::Dispatcher => dispatcher_duties(plain),
        Role::Enforcer => enforcer_duties(plain),
        Role::Restart => restart_duties(plain),
        Role::Update => update_duties(plain),
        Role::Replicated => replicated_duties(plain),
        Role::Global => global_duties(plain),
        Role::Job => job_duties(plain),
        Role::Allocator => allocator_duties(plain),
        Role::Scheduler => scheduler_duties(plain),
        Role::Reaper => reaper_duties(plain),
        Role::Agents => agents_duties(plain),
    }
}

// The first duty of the control loop, if it has one. The reference makes the whole list for it.
fn head(plain: &Plain, role: Role) -> Result<Option<Duty>, NoMemory>
    requires { IsUsableWorld (world_of plain.now) }
    ensures { IfOk result (λ head. head ≡ first_of (duties role (world_of plain.now))) }
{
    let list = duties(plain, role)?;
    Ok(list.as_slice().first().copied())
}

// The first duty of the first control loop that has one.
fn first_duty(plain: &Plain) -> Result<Option<Duty>, NoMemory>
    requires { IsUsableWorld (world_of plain.now) }
    ensures { IfOk result (λ first. first ≡ first_duty (world_of plain.now) roles) }
{
    for role in &Role::ALL {
        let duty = head(plain, *role)?;
        if duty.is_some() {
            return Ok(duty);
        }
    }
    Ok(None)
}

/// The settle test: the first duty of the first control loop that has one; else what is waited for, held or paused, or
/// that all is settled. Then what runs matches the specifications. It makes the lists of the loops, so memory may be
/// wanting.
pub fn settle(plain: &Plain) -> Result<Settle, NoMemory>
    requires { IsUsableWorld (world_of plain.now) }
    ensures answers { IfOk result (λ answer. answer ≡ settle_answer (world_of plain.now)) }
    ensures matched { IfOk result (λ answer. answer ≡ Settle.Settled → IsMatched (world_of plain.now)) }
{
    match first_duty(plain)? {
        Some(duty) => Ok(Settle::Busy(duty)),
        None => Ok(idle_answer(plain)),
    }
}

/// Answers the call by which a line with this budget asks whether the world has settled, as an entry; or memory is
/// wanting, and nothing changes.
pub fn settle_call(plain: &mut Plain, budget: u64) -> Reply
    requires { IsUsableWorld (world_of plain.old) }
    ensures meets { let w = world_of plain.old in Meets (outcome w (Call.Settle budget)) w result (world_of plain.new) }
    ensures matched { result ≡ Reply.Settle budget Settle.Settled → IsMatched (world_of plain.old) }
{
    if let Some(refusal) = plain.refuses(&Call::Settle(budget)) {
        return Reply::Refused(refusal);
    }
    match settle(plain) {
        Ok(answer) => {
            plain.end_unseen(plain.entries + 1);
            Reply::Settle(budget, answer)
        }
        Err(NoMemory) => Reply::Refused(Refusal::NoMemory),
    }
}
