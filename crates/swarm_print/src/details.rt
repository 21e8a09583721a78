// Inspected objects, as JSON.
ghost use Rattle.std.specs.Prelude.{◌≡◌, false, map, IfOk};
ghost use Rattle.swarm_objects.specs.Writers.{Puts};
ghost use Rattle.serde_json.specs.Data.{array, object, string};
ghost use Rattle.serde_json.specs.View.{view, items_of};
ghost use Rattle.serde_json.specs.Written.{has_float};
ghost use Rattle.swarm_print.specs.Details.{count, optional_count, label_members, node_data, port_data, service_data, network_data, address_data, task_data, json_line};
ghost use Rattle.swarm_print.specs.Notes.{note_text};
ghost use Rattle.swarm_print.specs.Objects.{place_text, subnet_text};

use crate::notes::put_note;
use crate::objects::{put_address, put_place, put_subnet};
use crate::words::{
    availability_word, desired_word, mode_word, protocol_word, state_word, update_word,
};
use serde_json::{Map, Value, json};
use std::alloc::{AllocError, Global};
use swarm_objects::views::{
    NetworkDetail, NodeDetail, NoteShown, PlaceShown, ServiceDetail, TaskDetail,
};
use swarm_objects::{Id, Name, Port};

// The labels, each at its key. The first of a key is put last, so that it stands.
fn labels_value(alloc: Global, labels: &[(Name, Name)]) -> Result<Value, AllocError>
    ensures { IfOk result (λ value. view value ≡ object (label_members labels.now)) }
{
    let mut members = Map::new(alloc);
    for label in labels.iter().rev() {
        let value = Value::try_from_str(alloc, label.1.as_str())?;
        serde_json::put(&mut members, alloc, label.0.as_str(), value)?;
    }
    Ok(Value::Object(members))
}

fn node_value(alloc: Global, node: &NodeDetail) -> Result<Value, AllocError>
    ensures { IfOk result (λ value. view value ≡ node_data node.now) }
{
    json!(in alloc; {
        "availability": availability_word(node.availability),
        "cpu": node.cpu,
        "id": node.id,
        "kind": "node",
        "labels": labels_value(alloc, node.labels.as_slice())?,
        "mem": node.mem,
        "name": node.name.as_str(),
        "role": node.role.as_str(),
        "state": state_word(node.state),
        "version": node.version
    })
}

fn number_value(number: Option<u16>) -> Value
    ensures { view result ≡ optional_count number }
{
    match number {
        Some(number) => Value::from(number),
        None => Value::Null,
    }
}

fn port_value(alloc: Global, port: Port) -> Result<Value, AllocError>
    ensures { IfOk result (λ value. view value ≡ port_data port) }
{
    json!(in alloc; {
        "number": number_value(port.number),
        "protocol": protocol_word(port.udp),
        "target": port.target
    })
}

fn ports_value(alloc: Global, ports: &[Port]) -> Result<Value, AllocError>
    ensures { IfOk result (λ value. view value ≡ array (items_of (map port_data ports.now))) }
{
    let mut values = Vec::new(alloc);
    for port in ports {
        values.push(port_value(alloc, *port)?)?;
    }
    Ok(Value::Array(values))
}

fn service_value(alloc: Global, service: &ServiceDetail) -> Result<Value, AllocError>
    ensures { IfOk result (λ value. view value ≡ service_data service.now) }
{
    json!(in alloc; {
        "id": service.id,
        "kind": "service",
        "mode": mode_word(service.mode),
        "name": service.name.as_str(),
        "ports": ports_value(alloc, service.ports.as_slice())?,
        "running": service.running,
        "update": update_word(service.update),
        "version": service.version,
        "wanted": service.wanted
    })
}

fn subnet_value(alloc: Global, base: u32, length: u8) -> Result<Value, AllocError>
    ensures { IfOk result (λ value. view value ≡ string (subnet_text base length)) }
{
    let mut text = String::new(alloc);
    put_subnet(&mut text, base, length)?;
    Ok(Value::String(text))
}

fn network_value(alloc: Global, network: &NetworkDetail) -> Result<Value, AllocError>
    ensures { IfOk result (λ value. view value ≡ network_data network.now) }
{
    json!(in alloc; {
        "id": network.id,
        "kind": "network",
        "name": network.name.as_str(),
        "subnet": subnet_value(alloc, network.base, network.length)?,
        "version": network.version
    })
}

fn address_value(alloc: Global, address: u32) -> Result<Value, AllocError>
    ensures { IfOk result (λ value. view value ≡ address_data address) }
{
    let mut text = String::new(alloc);
    put_address(&mut text, address)?;
    Ok(Value::String(text))
}

fn addresses_value(alloc: Global, addresses: &[u32]) -> Result<Value, AllocError>
    ensures { IfOk result (λ value. view value ≡ array (items_of (map address_data addresses.now))) }
{
    let mut values = Vec::new(alloc);
    for address in addresses {
        values.push(address_value(alloc, *address)?)?;
    }
    Ok(Value::Array(values))
}

/// The id as JSON; null where there is none.
pub fn id_value(id: Option<Id>) -> Value
    ensures { view result ≡ optional_count id }
{
    match id {
        Some(id) => Value::from(id),
        None => Value::Null,
    }
}

/// The text of the note as JSON.
pub fn note_value(alloc: Global, note: &NoteShown) -> Result<Value, AllocError>
    ensures { IfOk result (λ value. view value ≡ string (note_text note.now)) }
{
    let mut text = String::new(alloc);
    put_note(alloc, &mut text, note)?;
    Ok(Value::String(text))
}

/// The text of the place as JSON: the slot, or the node.
pub fn place_value(alloc: Global, place: &PlaceShown) -> Result<Value, AllocError>
    ensures { IfOk result (λ value. view value ≡ string (place_text place.now)) }
{
    let mut text = String::new(alloc);
    put_place(&mut text, place)?;
    Ok(Value::String(text))
}

fn task_value(alloc: Global, task: &TaskDetail) -> Result<Value, AllocError>
    ensures { IfOk result (λ value. view value ≡ task_data task.now) }
{
    json!(in alloc; {
        "addresses": addresses_value(alloc, task.addresses.as_slice())?,
        "desired": desired_word(task.desired),
        "id": task.id,
        "kind": "task",
        "node": id_value(task.node),
        "note": note_value(alloc, &task.note)?,
        "place": place_value(alloc, &task.place)?,
        "service": task.service,
        "state": task.state.as_str(),
        "version": task.version
    })
}

// Numbers with a point have no text in the contracts of `serde_json`.
#[tactic(auto, unfolding(crate::specs::Details::json_line))]
fn put_json(alloc: Global, text: &mut String, value: &Value) -> Result<(), AllocError>
    requires { has_float (view value.now) ≡ false }
    ensures { Puts result text.old text.new (json_line (view value.now)) }
{
    let json = value.to_string(alloc)?;
    text.push_str(json.as_str())?;
    text.push_str("\n")
}

pub fn put_node_detail(
    alloc: Global,
    text: &mut String,
    node: &NodeDetail,
) -> Result<(), AllocError>
    ensures { Puts result text.old text.new (json_line (node_data node.now)) }
{
    let value = node_value(alloc, node)?;
    put_json(alloc, text, &value)
}

pub fn put_service_detail(
    alloc: Global,
    text: &mut String,
    service: &ServiceDetail,
) -> Result<(), AllocError>
    ensures { Puts result text.old text.new (json_line (service_data service.now)) }
{
    let value = service_value(alloc, service)?;
    put_json(alloc, text, &value)
}

pub fn put_network_detail(
    alloc: Global,
    text: &mut String,
    network: &NetworkDetail,
) -> Result<(), AllocError>
    ensures { Puts result text.old text.new (json_line (network_data network.now)) }
{
    let value = network_value(alloc, network)?;
    put_json(alloc, text, &value)
}

pub fn put_task_detail(
    alloc: Global,
    text: &mut String,
    task: &TaskDetail,
) -> Result<(), AllocError>
    ensures { Puts result text.old text.new (json_line (task_data task.now)) }
{
    let value = task_value(alloc, task)?;
    put_json(alloc, text, &value)
}
