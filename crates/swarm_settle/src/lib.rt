//! The settle test where no control loop has a duty, over any rows: what is waited for, held or paused, or that all is
//! settled; and what a world has that is settled.
#![tactic(auto)]

mod asked;
mod held_updates;
mod next_agents;
pub mod theorems;
mod update_waits;
mod wait;
mod waits;

ghost use Rattle.std.specs.Prelude.{◌≡◌, List};
ghost use Rattle.swarm_model.specs.History.{IsLegal, replay};
ghost use Rattle.swarm_model.specs.Laws.Matches.{Matches};
ghost use Rattle.swarm_model.specs.Settle.{first_wait, idle_answer};
ghost use Rattle.swarm_objects.specs.Usable.{IsUsable};
ghost use Rattle.swarm_objects.specs.World.{World};
ghost use Rattle.swarm_objects.specs.declared.calls.Entry.{Entry};
ghost use Rattle.swarm_settle.specs.Asked.{AreAsked};
ghost use Rattle.swarm_settle.specs.Rest.{IsAtRest};
ghost use Rattle.swarm_settle.specs.Standing.{AgreeOnLive, StandFor, world_with};

use crate::held_updates::{held, paused};
use crate::update_waits::update_waits;
use crate::waits::{agent_waits, remote_waits, start_waits};
pub use asked::Asked;
pub use held_updates::{is_holding, is_paused};
pub use next_agents::next_agent_in;
use swarm_agent::Agents;
use swarm_agent::theorems::times_that_no_step_looks_at;
use swarm_objects::{Rows, Settle};
use swarm_sessions::Sessions;
pub use update_waits::{flight_end, keep_time, watch_time};
pub use wait::{Wait, wait_till};
pub use waits::{is_awaited_there, is_on, start_wait};

// The least of all waits, where each row that may be waited for is asked.
fn first_wait<R: Rows>(
    rows: &R,
    sessions: &Sessions,
    agents: &Agents,
    asked: &Asked,
) -> Option<Wait>
    requires usable { IsUsable (R.tables rows.now) }
    requires live { AgreeOnLive (R.tables rows.now) sessions.now }
    requires asked { AreAsked (R.tables rows.now) agents.now asked.now }
    ensures { result ≡ first_wait (world_with (R.tables rows.now) sessions.now agents.now) }
{
    let started = start_waits(rows, asked.tasks, None);
    let updated = update_waits(rows, asked.updates, started);
    let heard = agent_waits(rows, sessions, agents, asked.agents, updated);
    remote_waits(rows, sessions, asked.remotes, heard)
}

// The answer of the world that has these.
fn idle_answer<R: Rows>(rows: &R, sessions: &Sessions, agents: &Agents, asked: &Asked) -> Settle
    requires usable { IsUsable (R.tables rows.now) }
    requires live { AgreeOnLive (R.tables rows.now) sessions.now }
    requires asked { AreAsked (R.tables rows.now) agents.now asked.now }
    ensures { result ≡ idle_answer (world_with (R.tables rows.now) sessions.now agents.now) }
{
    if let Some(wait) = first_wait(rows, sessions, agents, asked) {
        return Settle::Waiting(wait.time, wait.cause, wait.id);
    }
    if let Some(answer) = held(rows, asked.updates) {
        return answer;
    }
    match paused(rows, asked.updates) {
        Some(answer) => answer,
        None => Settle::Settled,
    }
}

/// What the settle test answers where no control loop has a duty: the least time that is waited for, else the first
/// update that is held up, else the first that is paused, else that all is settled. Then what runs matches the
/// specifications. It takes no memory.
pub fn settle<R: Rows>(rows: &R, sessions: &Sessions, agents: &Agents) -> Settle
    requires usable { IsUsable (R.tables rows.now) }
    requires live { AgreeOnLive (R.tables rows.now) sessions.now }
    ensures answer { (w : World) → StandFor (R.tables rows.now) sessions.now agents.now w → result ≡ idle_answer w }
    ensures matched { result ≡ Settle.Settled → (h : List Entry) → IsLegal h →
        StandFor (R.tables rows.now) sessions.now agents.now (replay h) → IsAtRest (replay h) → Matches h }
{
    settle_by(rows, sessions, agents, &Asked::full())
}

/// The same where spans are at hand that have each row and each agent that may be waited for, held or paused: no others
/// are asked.
pub fn settle_by<R: Rows>(rows: &R, sessions: &Sessions, agents: &Agents, asked: &Asked) -> Settle
    requires usable { IsUsable (R.tables rows.now) }
    requires live { AgreeOnLive (R.tables rows.now) sessions.now }
    requires asked { AreAsked (R.tables rows.now) agents.now asked.now }
    ensures answer { (w : World) → StandFor (R.tables rows.now) sessions.now agents.now w → result ≡ idle_answer w }
    ensures matched { result ≡ Settle.Settled → (h : List Entry) → IsLegal h →
        StandFor (R.tables rows.now) sessions.now agents.now (replay h) → IsAtRest (replay h) → Matches h }
{
    times_that_no_step_looks_at();
    idle_answer(rows, sessions, agents, asked)
}
