// The words of calls.
ghost use Rattle.std.specs.Prelude.{◌≡◌, [], ◌∷◌, decimal};
ghost use Rattle.swarm_objects.specs.Values.Texts.{state_text};
ghost use Rattle.swarm_objects.specs.Writers.{Puts};
ghost use Rattle.script_grammar.specs.Texts.{budget_words, call_words, filter_text, id_words, query_words, service_words};
ghost use Rattle.script_writer.specs.Behind.{behind};

use crate::drafts::put_resources;
use crate::operations::put_ops;
use crate::words::put_words;
use std::alloc::AllocError;
use std::fmt::Write;
use swarm_objects::limits::LARGEST_BUDGET;
use swarm_objects::{Call, Id, Kind, Name, Query, TaskState};

// The kind that a new watcher is told of, or all.
const fn filter_text(kind: Option<Kind>) -> &'static str
    ensures { result.now ≡ filter_text kind }
{
    match kind {
        Some(kind) => kind.as_str(),
        None => "all",
    }
}

fn put_tasks_of(text: &mut String, service: &Option<Name>) -> Result<(), AllocError>
    ensures { Puts result text.old text.new (behind (service_words service.now)) }
{
    match service {
        Some(name) => put_words(text, &[name.as_str()]),
        None => Ok(()),
    }
}

fn put_query(text: &mut String, query: &Query) -> Result<(), AllocError>
    ensures { Puts result text.old text.new (behind (query_words query.now)) }
{
    match query {
        Query::ListNodes => put_words(text, &["list", "nodes"]),
        Query::ListServices => put_words(text, &["list", "services"]),
        Query::ListNetworks => put_words(text, &["list", "networks"]),
        Query::ListTasks(service) => {
            put_words(text, &["list", "tasks"])?;
            put_tasks_of(text, service)
        }
        Query::InspectNode(name) => put_words(text, &["inspect", "node", name.as_str()]),
        Query::InspectService(name) => put_words(text, &["inspect", "service", name.as_str()]),
        Query::InspectNetwork(name) => put_words(text, &["inspect", "network", name.as_str()]),
        Query::InspectTask(id) => write!(text, " inspect task {id}"),
        Query::Clock => put_words(text, &["clock"]),
    }
}

fn put_id(text: &mut String, id: Option<Id>) -> Result<(), AllocError>
    ensures { Puts result text.old text.new (behind (id_words id)) }
{
    match id {
        Some(id) => write!(text, " {id}"),
        None => Ok(()),
    }
}

fn put_budget(text: &mut String, budget: u64) -> Result<(), AllocError>
    ensures { Puts result text.old text.new (behind (budget_words budget)) }
{
    if budget == LARGEST_BUDGET {
        Ok(())
    } else {
        write!(text, " {budget}")
    }
}

// Puts the session, the task and the state that it was seen in.
fn put_report(text: &mut String, session: Id, task: Id, state: TaskState) -> Result<(), AllocError>
    ensures { Puts result text.old text.new (behind (decimal session ∷ decimal task ∷ state_text state ∷ [])) }
{
    write!(text, " {session} {task} {}", state.as_str())
}

/// Puts the words of a call, each after a space.
pub fn put_call(text: &mut String, call: &Call) -> Result<(), AllocError>
    ensures { Puts result text.old text.new (behind (call_words call.now)) }
{
    match call {
        Call::Txn(ops) => put_ops(text, ops.as_slice()),
        Call::View(query) => put_query(text, query),
        Call::WatchBegin(filter) => {
            put_words(text, &["watch", "open", filter_text(filter.kind)])?;
            put_id(text, filter.id)
        }
        Call::WatchPoll(id) => write!(text, " watch poll {id}"),
        Call::WatchFinish(id) => write!(text, " watch close {id}"),
        Call::Tick(ms) => write!(text, " tick {ms}"),
        Call::Settle(budget) => {
            put_words(text, &["settle"])?;
            put_budget(text, *budget)
        }
        Call::NodeFail(name) => put_words(text, &["node", "fail", name.as_str()]),
        Call::NodeStart(name) => put_words(text, &["node", "start", name.as_str()]),
        Call::AgentStop(name) => put_words(text, &["agent", "stop", name.as_str()]),
        Call::AgentStart(name) => put_words(text, &["agent", "start", name.as_str()]),
        Call::RemoteBegin(name, cpu, mem) => {
            put_words(text, &["remote", "open", name.as_str()])?;
            put_resources(text, *cpu, *mem)
        }
        Call::RemoteBeat(name, session) => {
            write!(text, " remote beat {} {session}", name.as_str())
        }
        Call::RemotePull(name, session) => {
            write!(text, " remote pull {} {session}", name.as_str())
        }
        Call::RemoteStatus(name, session, task, state) => {
            put_words(text, &["remote", "status", name.as_str()])?;
            put_report(text, *session, *task, *state)
        }
        Call::Halt => put_words(text, &["halt"]),
    }
}
