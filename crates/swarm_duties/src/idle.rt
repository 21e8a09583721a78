// What the settle test answers where no control loop has a duty.
ghost use Rattle.std.specs.Prelude.{◌≡◌, find, flat_map, option_to_list};
ghost use Rattle.std.specs.Option.{option_copied};
ghost use Rattle.swarm_model.specs.Settle.{first_wait, held_by, idle_answer, is_holding, is_paused, paused_by};
ghost use Rattle.swarm_objects.specs.Bounds.{IsSmall};
ghost use Rattle.swarm_objects.specs.Rows.{first_of};
ghost use Rattle.swarm_plain.specs.Plain.{tables_of, world_of};

use crate::update_waits::update_waits;
use crate::waits::{executor_waits, remote_waits, session_waits, start_waits};
use role_words::has_open_run;
use swarm_objects::{Service, Settle, Task};
use swarm_plain::Plain;
use swarm_settle::{Wait, is_holding, is_paused};

// The least of all waits.
fn first_wait(plain: &Plain) -> Option<Wait>
    requires { IsSmall (world_of plain.now) }
    ensures { result ≡ first_wait (world_of plain.now) }
{
    let started = start_waits(plain, None);
    let updated = update_waits(plain, started);
    let executed = executor_waits(plain, updated);
    let heard = session_waits(plain, executed);
    remote_waits(plain, heard)
}

// The first live clean task of the service below RUNNING.
fn holding_task<'a>(plain: &'a Plain, service: &Service) -> Option<&'a Task>
    ensures { option_copied result ≡ find (is_holding service.now) plain.now.tasks }
{
    plain
        .tasks
        .as_slice()
        .iter()
        .find(|task| is_holding(service, task))
}

// Where the service has a run under way, the task that holds it up.
fn held_by(plain: &Plain, service: &Service) -> Option<Settle>
    ensures { option_to_list result ≡ held_by (tables_of plain.now) service.now }
{
    if !has_open_run(service) {
        return None;
    }
    match holding_task(plain, service) {
        Some(task) => Some(Settle::Held(service.id, task.id)),
        None => None,
    }
}

// The first service whose run is held up, and the task that does it.
fn held(plain: &Plain) -> Option<Settle>
    ensures { result ≡ first_of (flat_map (held_by (tables_of plain.now)) plain.now.services) }
{
    for service in plain.services.as_slice() {
        let answer = held_by(plain, service);
        if answer.is_some() {
            return answer;
        }
    }
    None
}

// The first service whose run is paused.
fn paused_service(plain: &Plain) -> Option<&Service>
    ensures { option_copied result ≡ find is_paused plain.now.services }
{
    plain
        .services
        .as_slice()
        .iter()
        .find(|service| is_paused(service))
}

// Its answer.
#[tactic(auto, using(crate::proofs::PassedWaits::first_paused))]
fn paused(plain: &Plain) -> Option<Settle>
    ensures { result ≡ first_of (flat_map paused_by plain.now.services) }
{
    match paused_service(plain) {
        Some(service) => Some(Settle::Paused(service.id)),
        None => None,
    }
}

/// Without duties the world waits for the least time that is waited for, is held up or paused, or has settled.
pub fn idle_answer(plain: &Plain) -> Settle
    requires { IsSmall (world_of plain.now) }
    ensures { result ≡ idle_answer (world_of plain.now) }
{
    if let Some(wait) = first_wait(plain) {
        return Settle::Waiting(wait.time, wait.cause, wait.id);
    }
    if let Some(answer) = held(plain) {
        return answer;
    }
    match paused(plain) {
        Some(answer) => answer,
        None => Settle::Settled,
    }
}
