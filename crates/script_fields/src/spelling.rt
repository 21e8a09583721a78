// The one spelling of fields.
ghost use Rattle.std.specs.Prelude.{◌≡◌, ◌++◌, IfOk};
ghost use Rattle.std.specs.Str.{bytes_eq};
ghost use Rattle.swarm_objects.specs.Writers.{Puts};
ghost use Rattle.swarm_filters.specs.Grammar.{sign_of};
ghost use Rattle.swarm_filters.specs.Spellings.{key_text, constraint_text};
ghost use Rattle.script_grammar.specs.Fields.{number_word, udp_text, port_text, mode_text, end_text, condition_text, failure_text, order_text, availability_text, field_text};
ghost use Rattle.script_grammar.specs.declared.fields.Field.TheVariants as field;

use script_grammar::{Field, NumberField};
use std::alloc::{AllocError, Global};
use swarm_objects::{
    Availability, Constraint, End, FailureAction, Key, Mode, NoMemory, Platform, Port,
    RestartCondition, UpdateOrder,
};

/// The field's word in front of its number.
pub const fn number_text(field: NumberField) -> &'static str
    ensures { result.now ≡ number_word field }
{
    match field {
        NumberField::Prepare => "prepare",
        NumberField::Start => "start",
        NumberField::Stop => "stop",
        NumberField::Cpu => "cpu",
        NumberField::Mem => "mem",
        NumberField::MaxReplicas => "max-replicas",
        NumberField::RestartDelay => "restart-delay",
        NumberField::RestartMax => "restart-max",
        NumberField::RestartWindow => "restart-window",
        NumberField::Parallelism => "parallelism",
        NumberField::UpdateDelay => "update-delay",
        NumberField::Monitor => "monitor",
        NumberField::Ratio => "ratio",
        NumberField::Heartbeat => "heartbeat",
        NumberField::Orphan => "orphan",
        NumberField::History => "history",
    }
}

const fn udp_text(udp: bool) -> &'static str
    ensures { result.now ≡ udp_text udp }
{
    if udp { "/udp" } else { "" }
}

const fn sign_text(equal: bool) -> &'static str
    ensures { result.now ≡ sign_of equal }
{
    if equal { "==" } else { "!=" }
}

const fn condition_text(condition: RestartCondition) -> &'static str
    ensures { result.now ≡ condition_text condition }
{
    match condition {
        RestartCondition::Never => "none",
        RestartCondition::OnFailure => "on-failure",
        RestartCondition::Any => "any",
    }
}

const fn failure_text(action: FailureAction) -> &'static str
    ensures { result.now ≡ failure_text action }
{
    match action {
        FailureAction::Pause => "pause",
        FailureAction::Continue => "continue",
        FailureAction::Rollback => "rollback",
    }
}

const fn order_text(order: UpdateOrder) -> &'static str
    ensures { result.now ≡ order_text order }
{
    match order {
        UpdateOrder::StopFirst => "stop-first",
        UpdateOrder::StartFirst => "start-first",
    }
}

const fn availability_text(availability: Availability) -> &'static str
    ensures { result.now ≡ availability_text availability }
{
    match availability {
        Availability::Active => "active",
        Availability::Pause => "pause",
        Availability::Drain => "drain",
    }
}

// Writes one text behind the other.
fn put_two(text: &mut String, left: &str, right: &str) -> Result<(), AllocError>
    ensures { Puts result text.old text.new (left.now ++ right.now) }
{
    text.push_str(left)?;
    text.push_str(right)
}

/// Writes the port's text at the end: its target, the number that stands for it where one does, and `/udp`.
pub fn put_port(text: &mut String, port: &Port) -> Result<(), AllocError>
    ensures { Puts result text.old text.new (port_text port.now) }
{
    match port.number {
        Some(number) => write!(text, "{}:{number}{}", port.target, udp_text(port.udp)),
        None => write!(text, "{}{}", port.target, udp_text(port.udp)),
    }
}

/// Writes the key's text at the end, in small letters but for its name.
pub fn put_key(text: &mut String, key: &Key) -> Result<(), AllocError>
    ensures { Puts result text.old text.new (key_text key.now) }
{
    match key {
        Key::NodeId => text.push_str("node.id"),
        Key::Hostname => text.push_str("node.hostname"),
        Key::Role => text.push_str("node.role"),
        Key::Os => text.push_str("node.platform.os"),
        Key::Arch => text.push_str("node.platform.arch"),
        Key::Label(name) => put_two(text, "node.labels.", name.as_str()),
        Key::Engine(name) => put_two(text, "engine.labels.", name.as_str()),
    }
}

fn put_mode(text: &mut String, mode: Mode) -> Result<(), AllocError>
    ensures { Puts result text.old text.new (mode_text mode) }
{
    match mode {
        Mode::Replicated(n) => write!(text, "replicas={n}"),
        Mode::Global => text.push_str("global"),
        Mode::Job { concurrent, total } => write!(text, "job={concurrent}/{total}"),
    }
}

fn put_end(text: &mut String, end: End) -> Result<(), AllocError>
    ensures { Puts result text.old text.new (end_text end) }
{
    match end {
        End::Never => Ok(()),
        End::Exit(ms, code) => write!(text, "exit={ms}:{code}"),
        End::Reject => text.push_str("reject"),
    }
}

fn put_constraint_text(text: &mut String, constraint: &Constraint) -> Result<(), AllocError>
    ensures { Puts result text.old text.new (constraint_text constraint.now) }
{
    put_key(text, &constraint.key)?;
    put_two(text, sign_text(constraint.equal), constraint.value.as_str())
}

/// Writes the word at the end, and then the constraint without spaces.
pub fn put_constraint(
    text: &mut String,
    word: &str,
    constraint: &Constraint,
) -> Result<(), AllocError>
    ensures { Puts result text.old text.new (word.now ++ constraint_text constraint.now) }
{
    text.push_str(word)?;
    put_constraint_text(text, constraint)
}

fn put_platform(text: &mut String, platform: &Platform) -> Result<(), AllocError>
    ensures { Puts result text.old text.new (field_text (field.Platform platform.now)) }
{
    write!(
        text,
        "platform={}/{}",
        platform.os.as_str(),
        platform.arch.as_str()
    )
}

/// Writes the field's word at the end, in its one spelling.
pub fn put_field(text: &mut String, field: &Field) -> Result<(), AllocError>
    ensures { Puts result text.old text.new (field_text field.now) }
{
    match field {
        Field::Mode(mode) => put_mode(text, *mode),
        Field::End(end) => put_end(text, *end),
        Field::Number(which, number) => write!(text, "{}={number}", number_text(*which)),
        Field::Label(key, value) => write!(text, "label={}:{}", key.as_str(), value.as_str()),
        Field::Role(role) => write!(text, "role={}", role.as_str()),
        Field::Availability(availability) => {
            put_two(text, "availability=", availability_text(*availability))
        }
        Field::Os(name) => write!(text, "os={}", name.as_str()),
        Field::Arch(name) => write!(text, "arch={}", name.as_str()),
        Field::Engine(key, value) => write!(text, "engine={}:{}", key.as_str(), value.as_str()),
        Field::Remote => text.push_str("remote"),
        Field::Constraint(constraint) => put_constraint(text, "constraint=", constraint),
        Field::Spread(key) => {
            text.push_str("spread=")?;
            put_key(text, key)
        }
        Field::Platform(platform) => put_platform(text, platform),
        Field::Net(name) => write!(text, "net={}", name.as_str()),
        Field::Restart(condition) => write!(text, "restart={}", condition_text(*condition)),
        Field::Port(port) => {
            text.push_str("port=")?;
            put_port(text, port)
        }
        Field::Host(port) => {
            text.push_str("host=")?;
            put_port(text, port)
        }
        Field::Failure(action) => write!(text, "failure={}", failure_text(*action)),
        Field::Order(order) => write!(text, "order={}", order_text(*order)),
    }
}

/// Whether the word is the field's one spelling.
pub fn is_spelled(alloc: Global, field: &Field, word: &[u8]) -> Result<bool, NoMemory>
    ensures { IfOk result (λ yes. yes ≡ bytes_eq word.now (field_text field.now)) }
{
    let mut text = String::new(alloc);
    put_field(&mut text, field)?;
    Ok(word == text.as_str().as_bytes())
}
