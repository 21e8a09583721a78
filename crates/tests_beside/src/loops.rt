// The control loops over any rows beside the plain ones.
ghost use Rattle.swarm_plain.specs.Plain.{tables_of};
ghost use Rattle.swarm_objects.specs.Usable.{IsUsable};

use crate::faults::Fault;
use crate::notes::note_duties;
use std::alloc::Global;
use swarm_duties::{Replay, duties};
use swarm_objects::{Change, Duty, List, NoMemory, Role};
use swarm_plain::Plain;

// The loops that are written over any rows: all but the agents'.
const LOOPS: [Role; 10] = [
    Role::Dispatcher,
    Role::Enforcer,
    Role::Restart,
    Role::Update,
    Role::Replicated,
    Role::Global,
    Role::Job,
    Role::Allocator,
    Role::Scheduler,
    Role::Reaper,
];

/// Whether its loop is the agents', which looks beside the rows too.
pub(crate) fn is_agents(duty: Duty) -> bool {
    duty.role() == Role::Agents
}

fn plain_of(replay: &Replay) -> &Plain
    ensures { IsUsable (tables_of result.now) }
{
    replay.plain()
}

fn least(plain: &Plain, role: Role) -> Option<Duty>
    requires { IsUsable (tables_of plain.now) }
{
    match role {
        Role::Dispatcher => swarm_sessions::least_dispatcher(plain),
        Role::Enforcer => swarm_upkeep::least_enforcer(plain),
        Role::Restart => swarm_restart::least(plain),
        Role::Update => swarm_update::least(plain),
        Role::Replicated => swarm_replicated::least(plain),
        Role::Global => swarm_global::least(plain),
        Role::Job => swarm_jobs::least(plain),
        Role::Allocator => swarm_alloc::least(plain),
        Role::Scheduler => swarm_sched::least(plain),
        Role::Reaper => swarm_upkeep::least_reaper(plain),
        Role::Agents => None,
    }
}

fn changes(alloc: Global, plain: &Plain, duty: Duty) -> Result<List<Change>, NoMemory>
    requires { IsUsable (tables_of plain.now) }
{
    let version = plain.entries.saturating_add(1);
    match duty.role() {
        Role::Dispatcher => swarm_sessions::changes(alloc, plain, version, duty),
        Role::Enforcer | Role::Reaper => swarm_upkeep::changes(alloc, plain, version, duty),
        Role::Restart => swarm_restart::changes(alloc, plain, version, duty),
        Role::Update => swarm_update::changes(alloc, plain, version, duty),
        Role::Replicated => swarm_replicated::changes(alloc, plain, version, duty),
        Role::Global => swarm_global::changes(alloc, plain, version, duty),
        Role::Job => swarm_jobs::changes(alloc, plain, version, duty),
        Role::Allocator => swarm_alloc::changes(alloc, plain, version, duty),
        Role::Scheduler => swarm_sched::changes(alloc, plain, version, duty),
        Role::Agents => Ok(List::new(alloc)),
    }
}

/// The changes that the duty's loop over any rows makes in the world so far.
pub(crate) fn changes_of(
    alloc: Global,
    replay: &Replay,
    duty: Duty,
) -> Result<List<Change>, NoMemory> {
    changes(alloc, plain_of(replay), duty)
}

// The head of the plain loop's list.
fn head(replay: &Replay, role: Role) -> Result<Option<Duty>, NoMemory> {
    let all = duties(replay.plain(), role)?;
    Ok(all.as_slice().first().copied())
}

fn is_first(
    alloc: Global,
    replay: &Replay,
    role: Role,
    note: &mut Vec<u8>,
) -> Result<bool, NoMemory> {
    let plain = head(replay, role)?;
    let own = least(plain_of(replay), role);
    if own != plain {
        note_duties(alloc, note, plain, own)?;
    }
    Ok(own == plain)
}

/// Goes on only where each loop's first duty is the first of its plain list.
pub(crate) fn compare_firsts(
    alloc: Global,
    replay: &Replay,
    note: &mut Vec<u8>,
) -> Result<(), Fault> {
    for role in LOOPS {
        if !is_first(alloc, replay, role, note)? {
            return Err(Fault::Differs);
        }
    }
    Ok(())
}
