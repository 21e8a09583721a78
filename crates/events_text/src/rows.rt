// What is told of a row that changed.
ghost use Rattle.std.specs.Prelude.{◌≡◌, IfOk, map};
ghost use Rattle.serde_json.specs.Data.{string};
ghost use Rattle.serde_json.specs.View.{view};
ghost use Rattle.events_text.specs.Changes.{change_data, network_change, node_change, row_change, service_change, shown_change, task_change, telling};
ghost use Rattle.swarm_plain.specs.Plain.{tables_of};
ghost use Rattle.swarm_print.specs.Objects.{service_place_text};

use serde_json::{Value, json};
use std::alloc::{AllocError, Global};
use swarm_objects::details::status_of;
use swarm_objects::shown::task_shown;
use swarm_objects::views::{PlaceShown, Shown, TaskShown};
use swarm_objects::{
    Event, Id, Kind, List, Network, NoMemory, Node, Rows, Service, Task, Verb, add,
};
use swarm_plain::Plain;
use swarm_print::words::{availability_word, desired_word, state_word, update_word, verb_word};
use swarm_print::{id_value, note_value, place_value, put_service_place};

fn node_value(alloc: Global, verb: Verb, node: &Node) -> Result<Value, AllocError>
    ensures { IfOk result (λ value. view value ≡ node_change verb node.now) }
{
    json!(in alloc; {
        "desired": availability_word(node.availability),
        "id": node.id,
        "kind": "node",
        "name": node.name.as_str(),
        "state": state_word(node.state),
        "verb": verb_word(verb)
    })
}

fn service_value(alloc: Global, verb: Verb, service: &Service) -> Result<Value, AllocError>
    ensures { IfOk result (λ value. view value ≡ service_change verb service.now) }
{
    json!(in alloc; {
        "id": service.id,
        "kind": "service",
        "name": service.name.as_str(),
        "state": update_word(status_of(service)),
        "verb": verb_word(verb)
    })
}

fn network_value(alloc: Global, verb: Verb, network: &Network) -> Result<Value, AllocError>
    ensures { IfOk result (λ value. view value ≡ network_change verb network.now) }
{
    json!(in alloc; {
        "id": network.id,
        "kind": "network",
        "name": network.name.as_str(),
        "verb": verb_word(verb)
    })
}

// The service and the place, with a dot between them.
fn name_value(alloc: Global, service: &Shown, place: &PlaceShown) -> Result<Value, AllocError>
    ensures { IfOk result (λ value. view value ≡ string (service_place_text service.now place.now)) }
{
    let mut text = String::new(alloc);
    put_service_place(&mut text, service, place)?;
    Ok(Value::String(text))
}

fn shown_value(
    alloc: Global,
    verb: Verb,
    task: &Task,
    shown: &TaskShown,
) -> Result<Value, AllocError>
    ensures { IfOk result (λ value. view value ≡ shown_change verb task.now shown.now) }
{
    json!(in alloc; {
        "desired": desired_word(task.desired),
        "id": task.id,
        "kind": "task",
        "name": name_value(alloc, &shown.service, &shown.place)?,
        "node": id_value(task.node),
        "note": note_value(alloc, &shown.note)?,
        "place": place_value(alloc, &shown.place)?,
        "service": task.service,
        "state": task.state.as_str(),
        "verb": verb_word(verb)
    })
}

fn task_value(alloc: Global, rows: &Plain, verb: Verb, task: &Task) -> Result<Value, NoMemory>
    ensures { IfOk result (λ value. view value ≡ task_change (tables_of rows.now) verb task.now) }
{
    let shown = task_shown(alloc, rows, task)?;
    Ok(shown_value(alloc, verb, task, &shown)?)
}

// The world whose rows are told: that after the entry, or where the row is gone that before it.
fn telling<'a>(verb: Verb, old: &'a Plain, new: &'a Plain) -> &'a Plain
    ensures { tables_of result.now ≡ telling verb (tables_of old.now) (tables_of new.now) }
{
    match verb {
        Verb::Deleted => old,
        Verb::Created | Verb::Updated => new,
    }
}

fn row_value(alloc: Global, rows: &Plain, verb: Verb, kind: Kind, id: Id) -> Result<Value, NoMemory>
    ensures { IfOk result (λ value. view value ≡ row_change (tables_of rows.now) verb kind id) }
{
    match kind {
        Kind::Node => match rows.node(id) {
            Some(node) => Ok(node_value(alloc, verb, node)?),
            None => Ok(Value::Null),
        },
        Kind::Service => match rows.service(id) {
            Some(service) => Ok(service_value(alloc, verb, service)?),
            None => Ok(Value::Null),
        },
        Kind::Task => match rows.task(id) {
            Some(task) => task_value(alloc, rows, verb, task),
            None => Ok(Value::Null),
        },
        Kind::Network => match rows.network(id) {
            Some(network) => Ok(network_value(alloc, verb, network)?),
            None => Ok(Value::Null),
        },
        Kind::Watcher => Ok(Value::Null),
    }
}

fn change_value(alloc: Global, old: &Plain, new: &Plain, event: &Event) -> Result<Value, NoMemory>
    ensures { IfOk result (λ value. view value ≡ change_data (tables_of old.now) (tables_of new.now) event.now) }
{
    let rows = telling(event.verb, old, new);
    row_value(alloc, rows, event.verb, event.kind, event.id)
}

/// What is told of the rows of these events, each in turn.
pub fn change_values(
    alloc: Global,
    old: &Plain,
    new: &Plain,
    events: &[Event],
) -> Result<List<Value>, NoMemory>
    ensures { IfOk result (λ values.
        map view values ≡ map (change_data (tables_of old.now) (tables_of new.now)) events.now) }
{
    let mut values = List::new(alloc);
    for event in events {
        add(&mut values, change_value(alloc, old, new, event)?)?;
    }
    Ok(values)
}
