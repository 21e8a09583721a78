// The lines of lists, of events and of messages.
ghost use Rattle.std.specs.Prelude.{[], ◌∷◌, codes, decimal, flat_map};
ghost use Rattle.swarm_print.specs.Lines.{line, listing};
ghost use Rattle.swarm_print.specs.Lists.{node_line, share_text, service_line, network_line, task_line, event_line, change_line, message_text};
ghost use Rattle.swarm_print.specs.Notes.{note_text};
ghost use Rattle.swarm_objects.specs.Values.Texts.{state_text};
ghost use Rattle.swarm_objects.specs.Writers.{Puts};
ghost use Rattle.swarm_print.specs.Words.{desired_word, update_word};

use crate::notes::put_note;
use crate::objects::{put_node_of, put_service_place, put_subnet};
use crate::words::{
    availability_word, desired_word, extent_word, mode_word, state_word, update_word, verb_word,
};
use std::alloc::{AllocError, Global};
use std::fmt::Write;
use swarm_objects::views::{NetworkShown, NodeShown, ServiceShown, TaskShown};
use swarm_objects::{AssignChange, Event, Message};

// What is listed, and how many there are.
fn put_heading(text: &mut String, what: &str, count: usize) -> Result<(), AllocError>
    ensures { Puts result text.old text.new (line (what.now ∷ decimal count ∷ [])) }
{
    write!(text, "{what} {count}\n")
}

fn put_node(text: &mut String, node: &NodeShown) -> Result<(), AllocError>
    ensures { Puts result text.old text.new (node_line node.now) }
{
    let id = node.id;
    let name = node.name.as_str();
    let state = state_word(node.state);
    let availability = availability_word(node.availability);
    let role = node.role.as_str();
    let cpu = node.cpu;
    let mem = node.mem;
    write!(
        text,
        "node {id} {name} {state} {availability} {role} {cpu} {mem}\n"
    )
}

pub fn put_nodes(text: &mut String, nodes: &[NodeShown]) -> Result<(), AllocError>
    ensures { Puts result text.old text.new (listing (codes "nodes") node_line nodes.now) }
{
    put_heading(text, "nodes", nodes.len())?;
    for node in nodes {
        put_node(text, node)?;
    }
    Ok(())
}

fn put_service(text: &mut String, service: &ServiceShown) -> Result<(), AllocError>
    ensures { Puts result text.old text.new (service_line service.now) }
{
    let id = service.id;
    let name = service.name.as_str();
    let mode = mode_word(service.mode);
    let running = service.running;
    let wanted = service.wanted;
    let update = update_word(service.update);
    write!(text, "service {id} {name} {mode} ")?;
    write!(text, "{running}/{wanted} {update}\n")
}

pub fn put_services(text: &mut String, services: &[ServiceShown]) -> Result<(), AllocError>
    ensures { Puts result text.old text.new (listing (codes "services") service_line services.now) }
{
    put_heading(text, "services", services.len())?;
    for service in services {
        put_service(text, service)?;
    }
    Ok(())
}

fn put_network(text: &mut String, network: &NetworkShown) -> Result<(), AllocError>
    ensures { Puts result text.old text.new (network_line network.now) }
{
    let id = network.id;
    let name = network.name.as_str();
    write!(text, "network {id} {name} ")?;
    put_subnet(text, network.base, network.length)?;
    text.push_str("\n")
}

pub fn put_networks(text: &mut String, networks: &[NetworkShown]) -> Result<(), AllocError>
    ensures { Puts result text.old text.new (listing (codes "networks") network_line networks.now) }
{
    put_heading(text, "networks", networks.len())?;
    for network in networks {
        put_network(text, network)?;
    }
    Ok(())
}

// The states and the note of a task, to the end of its line.
fn put_states(alloc: Global, text: &mut String, task: &TaskShown) -> Result<(), AllocError>
    ensures { Puts result text.old text.new
        (line (state_text task.now.state ∷ desired_word task.now.desired ∷ note_text task.now.note ∷ [])) }
{
    let state = task.state.as_str();
    let desired = desired_word(task.desired);
    write!(text, "{state} {desired} ")?;
    put_note(alloc, text, &task.note)?;
    text.push_str("\n")
}

fn put_task(alloc: Global, text: &mut String, task: &TaskShown) -> Result<(), AllocError>
    ensures { Puts result text.old text.new (task_line task.now) }
{
    let id = task.id;
    write!(text, "task {id} ")?;
    put_service_place(text, &task.service, &task.place)?;
    text.push_str(" ")?;
    put_node_of(text, &task.node)?;
    text.push_str(" ")?;
    put_states(alloc, text, task)
}

pub fn put_tasks(alloc: Global, text: &mut String, tasks: &[TaskShown]) -> Result<(), AllocError>
    ensures { Puts result text.old text.new (listing (codes "tasks") task_line tasks.now) }
{
    put_heading(text, "tasks", tasks.len())?;
    for task in tasks {
        put_task(alloc, text, task)?;
    }
    Ok(())
}

fn put_event(text: &mut String, event: &Event) -> Result<(), AllocError>
    ensures { Puts result text.old text.new (event_line event.now) }
{
    let entry = event.entry;
    let verb = verb_word(event.verb);
    let kind = event.kind.as_str();
    let id = event.id;
    write!(text, "{entry} {verb} {kind} {id}\n")
}

pub fn put_events(text: &mut String, events: &[Event]) -> Result<(), AllocError>
    ensures { Puts result text.old text.new (listing (codes "events") event_line events.now) }
{
    put_heading(text, "events", events.len())?;
    for event in events {
        put_event(text, event)?;
    }
    Ok(())
}

fn put_change(text: &mut String, change: &AssignChange) -> Result<(), AllocError>
    ensures { Puts result text.old text.new (change_line change.now) }
{
    match change {
        AssignChange::Update(assigned) => {
            let task = assigned.task;
            let desired = desired_word(assigned.desired);
            write!(text, "update {task} {desired}\n")
        }
        AssignChange::Remove(task) => write!(text, "remove {task}\n"),
    }
}

fn put_changes(text: &mut String, changes: &[AssignChange]) -> Result<(), AllocError>
    ensures { Puts result text.old text.new (flat_map change_line changes.now) }
{
    for change in changes {
        put_change(text, change)?;
    }
    Ok(())
}

pub fn put_message(text: &mut String, message: &Option<Message>) -> Result<(), AllocError>
    ensures { Puts result text.old text.new (message_text message.now) }
{
    let Some(message) = message else {
        return text.push_str("message none\n");
    };
    let extent = extent_word(message.complete);
    let applies_to = message.applies_to;
    let results_in = message.results_in;
    let count = message.changes.as_slice().len();
    write!(text, "message {extent} {applies_to} {results_in} {count}\n")?;
    put_changes(text, message.changes.as_slice())
}
