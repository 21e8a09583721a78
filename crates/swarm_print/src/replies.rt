// The texts of replies.
ghost use Rattle.std.specs.Prelude.{◌≡◌, [], ◌∷◌, ◌++◌, codes, flat_map, IfOk};
ghost use Rattle.swarm_print.specs.Lines.{line};
ghost use Rattle.swarm_print.specs.Texts.{id_text, view_text, settle_words, reply_text};
ghost use Rattle.swarm_objects.specs.Values.Texts.{state_text};
ghost use Rattle.swarm_objects.specs.Writers.{Puts};
ghost use Rattle.swarm_print.specs.Words.{report_word};

use crate::details::{put_network_detail, put_node_detail, put_service_detail, put_task_detail};
use crate::lists::{put_events, put_message, put_networks, put_nodes, put_services, put_tasks};
use crate::refusals::put_refusal;
use crate::words::{cause_word, report_word};
use std::alloc::{AllocError, Global};
use std::fmt::Write;
use swarm_objects::{Id, List, NoMemory, Reply, Settle, TaskState, ViewReply, put_duty};

fn put_done(text: &mut String, ids: &[Id]) -> Result<(), AllocError>
    ensures { Puts result text.old text.new (codes "ok" ++ flat_map id_text ids.now ++ codes "\n") }
{
    text.push_str("ok")?;
    for id in ids {
        write!(text, " {id}")?;
    }
    text.push_str("\n")
}

fn put_report(text: &mut String, raised: bool, state: TaskState) -> Result<(), AllocError>
    ensures { Puts result text.old text.new (line (report_word raised ∷ state_text state ∷ [])) }
{
    let report = report_word(raised);
    let state = state.as_str();
    write!(text, "{report} {state}\n")
}

fn put_settle(text: &mut String, budget: u64, settle: Settle) -> Result<(), AllocError>
    ensures { Puts result text.old text.new (line (settle_words budget settle)) }
{
    match settle {
        Settle::Busy(duty) => {
            write!(text, "unsettled {budget} ")?;
            put_duty(text, &duty)?;
            text.push_str("\n")
        }
        Settle::Waiting(time, cause, id) => {
            let cause = cause_word(cause);
            write!(text, "waiting {time} {cause} {id}\n")
        }
        Settle::Held(service, task) => write!(text, "held {service} {task}\n"),
        Settle::Paused(service) => write!(text, "paused {service}\n"),
        Settle::Settled => text.push_str("settled\n"),
    }
}

fn put_view(alloc: Global, text: &mut String, view: &ViewReply) -> Result<(), AllocError>
    ensures { Puts result text.old text.new (view_text view.now) }
{
    match view {
        ViewReply::Nodes(rows) => put_nodes(text, rows.as_slice()),
        ViewReply::Services(rows) => put_services(text, rows.as_slice()),
        ViewReply::Networks(rows) => put_networks(text, rows.as_slice()),
        ViewReply::Tasks(rows) => put_tasks(alloc, text, rows.as_slice()),
        ViewReply::Node(node) => put_node_detail(alloc, text, node),
        ViewReply::Service(service) => put_service_detail(alloc, text, service),
        ViewReply::Network(network) => put_network_detail(alloc, text, network),
        ViewReply::Task(task) => put_task_detail(alloc, text, task),
        ViewReply::Clock(now) => write!(text, "now {now}\n"),
    }
}

fn put_reply(alloc: Global, text: &mut String, reply: &Reply) -> Result<(), AllocError>
    ensures { Puts result text.old text.new (reply_text reply.now) }
{
    match reply {
        Reply::Txn(ids) => put_done(text, ids.as_slice()),
        Reply::AgentDone(node) => write!(text, "ok {node}\n"),
        Reply::Refused(refusal) => {
            text.push_str("refused ")?;
            put_refusal(text, refusal)
        }
        Reply::Ticked | Reply::HaltDone | Reply::Did => Ok(()),
        Reply::WatchBegun(watcher) => write!(text, "watcher {watcher}\n"),
        Reply::WatchFinished(watcher) => write!(text, "closed {watcher}\n"),
        Reply::Events(events) => put_events(text, events.as_slice()),
        Reply::SessionBegun(session, deadline) => write!(text, "session {session} {deadline}\n"),
        Reply::Beat(deadline) => write!(text, "beat {deadline}\n"),
        Reply::Pulled(message) => put_message(text, message),
        Reply::Status(raised, state) => put_report(text, *raised, *state),
        Reply::View(view) => put_view(alloc, text, view),
        Reply::Settle(budget, settle) => put_settle(text, *budget, *settle),
    }
}

/// The text of a reply, as whole lines: one for most replies, and one more for each row of a list, event
/// or change of a message. A tick, a halt and a duty have none.
pub fn reply_text(alloc: Global, reply: &Reply) -> Result<List<u8>, NoMemory>
    ensures { IfOk result (λ text. text ≡ reply_text reply.now) }
{
    let mut text = String::new(alloc);
    put_reply(alloc, &mut text, reply)?;
    Ok(List::from_vec(text.into_bytes()))
}
