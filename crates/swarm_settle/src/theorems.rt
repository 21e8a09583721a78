//! Settled means matched, with the laws on the way to it, and that the control loops come to rest: each is the contract
//! of a function that does nothing.
ghost use Rattle.swarm_settle.specs.Agents.{QuietAgentsLaw, ReportLaw};
ghost use Rattle.swarm_model.specs.Laws.Size.{BoundLaw};
ghost use Rattle.swarm_settle.specs.Aimed.{AimsLaw};
ghost use Rattle.swarm_settle.specs.Bound.Laws.{SettleLinesLaw};
ghost use Rattle.swarm_settle.specs.Fresh.{FreshLaw};
ghost use Rattle.swarm_settle.specs.Laws.{ClosedLaw, NothingElseLaw, OneLiveLaw, PlacesLaw, UnmetLaw, UpdatesLaw};
ghost use Rattle.swarm_objects.specs.Agents.Hearing.{MessageLaw};
ghost use Rattle.swarm_model.specs.Laws.Reconciliation.{ReconciliationLaw};
ghost use Rattle.swarm_settle.specs.Sent.{OwnersLaw, SentLaw};
ghost use Rattle.swarm_settle.specs.Served.{ServedLaw};

/// Where no control loop has a duty, every live task stands in a held place of a service that is there.
pub fn nothing_else_is_live()
    ensures { NothingElseLaw }
{}

/// Where no control loop has a duty, the note of each live task below ASSIGNED says truly why it is there.
pub fn unmet_tasks_say_why()
    ensures { UnmetLaw }
{}

/// Where no control loop has a duty, the places of each service are as its mode wants them.
pub fn places_are_as_wanted()
    ensures { PlacesLaw }
{}

/// Where all is settled, a held place without a live task has a newest task whose cause an entry set, and this task is
/// clean or the entry came after the service's template.
pub fn closed_places_say_why()
    ensures { ClosedLaw }
{}

/// Where all is settled, a place has at most one live task, which is clean, has not ended, and has a good node where it
/// is placed.
pub fn live_tasks_stand_well()
    ensures { OneLiveLaw }
{}

/// Where all is settled, no update is under way.
pub fn no_update_is_under_way()
    ensures { UpdatesLaw }
{}

/// An agent that applies the next message has what is due, with its desired state, and what is due no more is gone.
pub fn messages_bring_what_is_due()
    ensures { MessageLaw }
{}

/// Where no control loop has a duty and nothing is waited for, the agents of READY nodes are on and have heard and
/// reported all, and their executors run, or wait as is wanted.
pub fn agents_of_ready_nodes_are_quiet()
    ensures { QuietAgentsLaw }
{}

/// An executor is at least ACCEPTED, and what it reported is at most its state and at most its task's.
pub fn executors_are_ahead_of_reports()
    ensures { ReportLaw }
{}

/// Each modelled node has one agent, and there are no others.
pub fn modelled_nodes_have_agents()
    ensures { OwnersLaw }
{}

/// A message in an agent's inbox is whole or begins where the agent is, and once it is applied the agent is where what
/// was sent is. So no message is refused as stale.
pub fn inboxes_are_fresh()
    ensures { FreshLaw }
{}

/// Once an agent has applied its inbox, it has an executor for all that was sent, as it was sent; each other one is
/// gone where anything was sent, and what is gone has no task.
pub fn executors_are_as_sent()
    ensures { SentLaw }
{}

/// Where no control loop has a duty and nothing is waited for, each task of a READY modelled node from ASSIGNED on has
/// an executor there that wants the same and is no further, and each executor that isn't gone has such a task.
pub fn tasks_of_ready_nodes_have_executors()
    ensures { ServedLaw }
{}

/// Where no control loop has a duty and nothing is waited for, a placed task that is to stop is on a node that is DOWN,
/// what is wanted of a live task is its goal, and a live placed task runs.
pub fn live_placed_tasks_run()
    ensures { AimsLaw }
{}

/// Where the settle test of a legal history says that all is settled, the running executors match the specifications,
/// except in places that are closed and in those whose task says why it is unmet.
pub fn settled_means_matched()
    ensures { ReconciliationLaw }
{}

/// At one time and without a call, no more duties follow one another than the size of the world allows: at most
/// 2000 * M * M, and at most 400 * M of them other than explain and note.
pub fn loops_come_to_rest()
    ensures { BoundLaw }
{}

/// The call of a settle line finds a world that isn't busy where the line's budget is at least 2000 * M * M, M the size
/// of the world after caller 0's last entry before the line.
pub fn settle_lines_end_in_time()
    ensures { SettleLinesLaw }
{}
