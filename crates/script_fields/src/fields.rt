// The word of a field.
ghost use Rattle.std.specs.Prelude.{◌≡◌, IfOk, find};
ghost use Rattle.std.specs.Str.{bytes_eq};
ghost use Rattle.script_grammar.specs.Fields.{number_word, number_field, job_of, exit_of, two_names, port_with, port_of, host_of, condition_of, failure_of, order_of, role_of, availability_of, flat_field, constraint_field, spread_field, names_of, platform_field, named, other_field, keyed_field, field_of};
ghost use Rattle.script_grammar.specs.declared.fields.Field.TheVariants as field;

use crate::spelling::number_text;
use crate::values::{byte_number, number_of, port_number, split_at};
use script_grammar::{Field, NumberField};
use std::alloc::Global;
use swarm_filters::{read_constraint, read_key, read_name};
use swarm_objects::{
    Availability, End, FailureAction, Mode, Name, NoMemory, NodeRole, Platform, Port,
    RestartCondition, UpdateOrder,
};

fn number_field(word: &[u8]) -> Option<NumberField>
    ensures { result ≡ number_field word.now }
{
    let fields = [
        NumberField::Prepare,
        NumberField::Start,
        NumberField::Stop,
        NumberField::Cpu,
        NumberField::Mem,
        NumberField::MaxReplicas,
        NumberField::RestartDelay,
        NumberField::RestartMax,
        NumberField::RestartWindow,
        NumberField::Parallelism,
        NumberField::UpdateDelay,
        NumberField::Monitor,
        NumberField::Ratio,
        NumberField::Heartbeat,
        NumberField::Orphan,
        NumberField::History,
    ];
    named_field(&fields, word)
}

fn named_field(fields: &[NumberField], word: &[u8]) -> Option<NumberField>
    ensures { result ≡ find (λ f. bytes_eq (number_word f) word.now) fields.now }
{
    for field in fields {
        if number_text(*field).as_bytes() == word {
            return Some(*field);
        }
    }
    None
}

fn job_of(text: &[u8]) -> Option<Field>
    ensures { result ≡ job_of text.now }
{
    let (left, right) = split_at(b'/', text)?;
    let concurrent = number_of(left)?;
    let total = number_of(right)?;
    Some(Field::Mode(Mode::Job { concurrent, total }))
}

fn exit_of(text: &[u8]) -> Option<Field>
    ensures { result ≡ exit_of text.now }
{
    let (left, right) = split_at(b':', text)?;
    let ms = number_of(left)?;
    let code = byte_number(right)?;
    Some(Field::End(End::Exit(ms, code)))
}

fn port_with(udp: bool, text: &[u8]) -> Option<Port>
    ensures { result ≡ port_with udp text.now }
{
    match split_at(b':', text) {
        None => {
            let target = port_number(text)?;
            Some(Port {
                target,
                number: None,
                udp,
            })
        }
        Some((left, right)) => {
            let target = port_number(left)?;
            let number = port_number(right)?;
            Some(Port {
                target,
                number: Some(number),
                udp,
            })
        }
    }
}

fn port_of(text: &[u8]) -> Option<Port>
    ensures { result ≡ port_of text.now }
{
    match split_at(b'/', text) {
        None => port_with(false, text),
        Some((left, right)) if right == b"udp".as_slice() => port_with(true, left),
        Some(_) => None,
    }
}

fn host_of(port: Port) -> Option<Field>
    ensures { result ≡ host_of port }
{
    match port.number {
        Some(_) => Some(Field::Host(port)),
        None => None,
    }
}

fn condition_of(text: &[u8]) -> Option<Field>
    ensures { result ≡ condition_of text.now }
{
    if text == b"none".as_slice() {
        Some(Field::Restart(RestartCondition::Never))
    } else if text == b"on-failure".as_slice() {
        Some(Field::Restart(RestartCondition::OnFailure))
    } else if text == b"any".as_slice() {
        Some(Field::Restart(RestartCondition::Any))
    } else {
        None
    }
}

fn failure_of(text: &[u8]) -> Option<Field>
    ensures { result ≡ failure_of text.now }
{
    if text == b"pause".as_slice() {
        Some(Field::Failure(FailureAction::Pause))
    } else if text == b"continue".as_slice() {
        Some(Field::Failure(FailureAction::Continue))
    } else if text == b"rollback".as_slice() {
        Some(Field::Failure(FailureAction::Rollback))
    } else {
        None
    }
}

fn order_of(text: &[u8]) -> Option<Field>
    ensures { result ≡ order_of text.now }
{
    if text == b"stop-first".as_slice() {
        Some(Field::Order(UpdateOrder::StopFirst))
    } else if text == b"start-first".as_slice() {
        Some(Field::Order(UpdateOrder::StartFirst))
    } else {
        None
    }
}

fn role_of(text: &[u8]) -> Option<Field>
    ensures { result ≡ role_of text.now }
{
    if text == b"worker".as_slice() {
        Some(Field::Role(NodeRole::Worker))
    } else if text == b"manager".as_slice() {
        Some(Field::Role(NodeRole::Manager))
    } else {
        None
    }
}

fn availability_of(text: &[u8]) -> Option<Field>
    ensures { result ≡ availability_of text.now }
{
    if text == b"active".as_slice() {
        Some(Field::Availability(Availability::Active))
    } else if text == b"pause".as_slice() {
        Some(Field::Availability(Availability::Pause))
    } else if text == b"drain".as_slice() {
        Some(Field::Availability(Availability::Drain))
    } else {
        None
    }
}

// Two names with a byte between them.
fn two_names(alloc: Global, sep: u8, text: &[u8]) -> Result<Option<(Name, Name)>, NoMemory>
    ensures { IfOk result (λ names. names ≡ two_names sep text.now) }
{
    let Some((left, right)) = split_at(sep, text) else {
        return Ok(None);
    };
    let Some(left) = read_name(alloc, left)? else {
        return Ok(None);
    };
    match read_name(alloc, right)? {
        Some(right) => Ok(Some((left, right))),
        None => Ok(None),
    }
}

// The fields without names.
fn flat_field(key: &[u8], value: &[u8]) -> Option<Field>
    ensures { result ≡ flat_field key.now value.now }
{
    if key == b"replicas".as_slice() {
        let n = number_of(value)?;
        Some(Field::Mode(Mode::Replicated(n)))
    } else if key == b"job".as_slice() {
        job_of(value)
    } else if key == b"exit".as_slice() {
        exit_of(value)
    } else if key == b"role".as_slice() {
        role_of(value)
    } else if key == b"availability".as_slice() {
        availability_of(value)
    } else if key == b"restart".as_slice() {
        condition_of(value)
    } else if key == b"port".as_slice() {
        let port = port_of(value)?;
        Some(Field::Port(port))
    } else if key == b"host".as_slice() {
        let port = port_of(value)?;
        host_of(port)
    } else if key == b"failure".as_slice() {
        failure_of(value)
    } else if key == b"order".as_slice() {
        order_of(value)
    } else {
        None
    }
}

fn label_of(alloc: Global, value: &[u8]) -> Result<Option<Field>, NoMemory>
    ensures { IfOk result (λ f. f ≡ names_of 58 field.Label value.now) }
{
    match two_names(alloc, b':', value)? {
        Some((key, value)) => Ok(Some(Field::Label(key, value))),
        None => Ok(None),
    }
}

fn engine_of(alloc: Global, value: &[u8]) -> Result<Option<Field>, NoMemory>
    ensures { IfOk result (λ f. f ≡ names_of 58 field.Engine value.now) }
{
    match two_names(alloc, b':', value)? {
        Some((key, value)) => Ok(Some(Field::Engine(key, value))),
        None => Ok(None),
    }
}

fn platform_of(alloc: Global, value: &[u8]) -> Result<Option<Field>, NoMemory>
    ensures { IfOk result (λ f. f ≡ names_of 47 platform_field value.now) }
{
    match two_names(alloc, b'/', value)? {
        Some((os, arch)) => Ok(Some(Field::Platform(Platform { os, arch }))),
        None => Ok(None),
    }
}

fn os_of(alloc: Global, value: &[u8]) -> Result<Option<Field>, NoMemory>
    ensures { IfOk result (λ f. f ≡ named field.Os value.now) }
{
    match read_name(alloc, value)? {
        Some(name) => Ok(Some(Field::Os(name))),
        None => Ok(None),
    }
}

fn arch_of(alloc: Global, value: &[u8]) -> Result<Option<Field>, NoMemory>
    ensures { IfOk result (λ f. f ≡ named field.Arch value.now) }
{
    match read_name(alloc, value)? {
        Some(name) => Ok(Some(Field::Arch(name))),
        None => Ok(None),
    }
}

fn net_of(alloc: Global, value: &[u8]) -> Result<Option<Field>, NoMemory>
    ensures { IfOk result (λ f. f ≡ named field.Net value.now) }
{
    match read_name(alloc, value)? {
        Some(name) => Ok(Some(Field::Net(name))),
        None => Ok(None),
    }
}

fn constraint_field(alloc: Global, value: &[u8]) -> Result<Option<Field>, NoMemory>
    ensures { IfOk result (λ f. f ≡ constraint_field value.now) }
{
    match read_constraint(alloc, value)? {
        Some(constraint) => Ok(Some(Field::Constraint(constraint))),
        None => Ok(None),
    }
}

fn spread_field(alloc: Global, value: &[u8]) -> Result<Option<Field>, NoMemory>
    ensures { IfOk result (λ f. f ≡ spread_field value.now) }
{
    match read_key(alloc, value)? {
        Some(key) => Ok(Some(Field::Spread(key))),
        None => Ok(None),
    }
}

fn other_field(alloc: Global, key: &[u8], value: &[u8]) -> Result<Option<Field>, NoMemory>
    ensures { IfOk result (λ f. f ≡ other_field key.now value.now) }
{
    if key == b"label".as_slice() {
        label_of(alloc, value)
    } else if key == b"os".as_slice() {
        os_of(alloc, value)
    } else if key == b"arch".as_slice() {
        arch_of(alloc, value)
    } else if key == b"engine".as_slice() {
        engine_of(alloc, value)
    } else if key == b"constraint".as_slice() {
        constraint_field(alloc, value)
    } else if key == b"spread".as_slice() {
        spread_field(alloc, value)
    } else if key == b"platform".as_slice() {
        platform_of(alloc, value)
    } else if key == b"net".as_slice() {
        net_of(alloc, value)
    } else {
        Ok(flat_field(key, value))
    }
}

fn keyed_field(alloc: Global, key: &[u8], value: &[u8]) -> Result<Option<Field>, NoMemory>
    ensures { IfOk result (λ f. f ≡ keyed_field key.now value.now) }
{
    match number_field(key) {
        Some(which) => match number_of(value) {
            Some(number) => Ok(Some(Field::Number(which, number))),
            None => Ok(None),
        },
        None => other_field(alloc, key, value),
    }
}

/// The field that the word is, if it is one: one of the words `global`, `reject` and `remote`, or a key, `=` and a
/// value.
pub fn field_of(alloc: Global, word: &[u8]) -> Result<Option<Field>, NoMemory>
    ensures { IfOk result (λ f. f ≡ field_of word.now) }
{
    if word == b"global".as_slice() {
        return Ok(Some(Field::Mode(Mode::Global)));
    }
    if word == b"reject".as_slice() {
        return Ok(Some(Field::End(End::Reject)));
    }
    if word == b"remote".as_slice() {
        return Ok(Some(Field::Remote));
    }
    match split_at(b'=', word) {
        Some((key, value)) => keyed_field(alloc, key, value),
        None => Ok(None),
    }
}
