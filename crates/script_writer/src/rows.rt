// The rows of the tables of fields, each field after a space; a row at its default has no text.
ghost use Rattle.std.specs.Prelude.{[], ◌∷◌, map};
ghost use Rattle.swarm_objects.specs.Writers.{Puts};
ghost use Rattle.script_grammar.specs.declared.fields.Field.TheVariants as field;
ghost use Rattle.script_grammar.specs.Pieces.{arch_piece, availability_piece, condition_piece, end_piece, engine_field, failure_piece, given_piece, label_field, mode_piece, number_piece, order_piece, os_piece, remote_piece, role_piece};
ghost use Rattle.script_writer.specs.Behind.{fields_text, number_rows, rows_text};

use script_fields::{number_default, put_constraint, put_field, put_key, put_port};
use script_grammar::{Field, NumberField, Table};
use std::alloc::AllocError;
use std::fmt::Write;
use swarm_objects::{
    Availability, Constraint, End, FailureAction, Key, Mode, Name, NodeDraft, NodeRole, Platform,
    Port, RestartCondition, RestartPolicy, UpdateConfig, UpdateOrder, Workload,
};

#[tactic(auto, unfolding(crate::specs::Behind::fields_text))]
fn put_row(text: &mut String, field: &Field) -> Result<(), AllocError>
    ensures { Puts result text.old text.new (fields_text (field.now ∷ [])) }
{
    text.push_str(" ")?;
    put_field(text, field)
}

#[tactic(auto, unfolding(crate::specs::Behind::fields_text))]
pub fn put_mode(text: &mut String, mode: Mode) -> Result<(), AllocError>
    ensures { Puts result text.old text.new (fields_text (mode_piece mode)) }
{
    if mode == Mode::usual() {
        return Ok(());
    }
    put_row(text, &Field::Mode(mode))
}

#[tactic(auto, unfolding(crate::specs::Behind::fields_text))]
pub fn put_end(text: &mut String, end: End) -> Result<(), AllocError>
    ensures { Puts result text.old text.new (fields_text (end_piece end)) }
{
    if end == Workload::usual().end {
        return Ok(());
    }
    put_row(text, &Field::End(end))
}

#[tactic(auto, unfolding(crate::specs::Behind::fields_text))]
pub fn put_condition(text: &mut String, condition: RestartCondition) -> Result<(), AllocError>
    ensures { Puts result text.old text.new (fields_text (condition_piece condition)) }
{
    if condition == RestartPolicy::usual().condition {
        return Ok(());
    }
    put_row(text, &Field::Restart(condition))
}

#[tactic(auto, unfolding(crate::specs::Behind::fields_text))]
pub fn put_failure(text: &mut String, action: FailureAction) -> Result<(), AllocError>
    ensures { Puts result text.old text.new (fields_text (failure_piece action)) }
{
    if action == UpdateConfig::usual().action {
        return Ok(());
    }
    put_row(text, &Field::Failure(action))
}

#[tactic(auto, unfolding(crate::specs::Behind::fields_text))]
pub fn put_order(text: &mut String, order: UpdateOrder) -> Result<(), AllocError>
    ensures { Puts result text.old text.new (fields_text (order_piece order)) }
{
    if order == UpdateConfig::usual().order {
        return Ok(());
    }
    put_row(text, &Field::Order(order))
}

#[tactic(auto, unfolding(crate::specs::Behind::fields_text))]
pub fn put_role(text: &mut String, role: NodeRole) -> Result<(), AllocError>
    ensures { Puts result text.old text.new (fields_text (role_piece role)) }
{
    if role == NodeDraft::USUAL_ROLE {
        return Ok(());
    }
    put_row(text, &Field::Role(role))
}

#[tactic(auto, unfolding(crate::specs::Behind::fields_text))]
pub fn put_availability(text: &mut String, availability: Availability) -> Result<(), AllocError>
    ensures { Puts result text.old text.new (fields_text (availability_piece availability)) }
{
    if availability == NodeDraft::USUAL_AVAILABILITY {
        return Ok(());
    }
    put_row(text, &Field::Availability(availability))
}

#[tactic(auto, unfolding(crate::specs::Behind::fields_text))]
pub fn put_remote(text: &mut String, remote: bool) -> Result<(), AllocError>
    ensures { Puts result text.old text.new (fields_text (remote_piece remote)) }
{
    if remote {
        put_row(text, &Field::Remote)
    } else {
        Ok(())
    }
}

#[tactic(auto, unfolding(crate::specs::Behind::fields_text))]
fn put_number(
    text: &mut String,
    table: Table,
    which: NumberField,
    number: u64,
) -> Result<(), AllocError>
    ensures { Puts result text.old text.new (fields_text (number_piece table which number)) }
{
    if number == number_default(table, which) {
        return Ok(());
    }
    put_row(text, &Field::Number(which, number))
}

/// Puts the rows that have one number each, in this order.
pub fn put_numbers(
    text: &mut String,
    table: Table,
    numbers: &[(NumberField, u64)],
) -> Result<(), AllocError>
    ensures { Puts result text.old text.new (rows_text (number_rows table numbers.now)) }
{
    for row in numbers {
        put_number(text, table, row.0, row.1)?;
    }
    Ok(())
}

/// Puts a row that is there wherever its number is given.
#[tactic(auto, unfolding(crate::specs::Behind::fields_text))]
pub fn put_given(
    text: &mut String,
    which: NumberField,
    given: Option<u64>,
) -> Result<(), AllocError>
    ensures { Puts result text.old text.new (fields_text (given_piece which given)) }
{
    match given {
        Some(number) => put_row(text, &Field::Number(which, number)),
        None => Ok(()),
    }
}

#[tactic(auto, unfolding(crate::specs::Behind::fields_text))]
pub fn put_os(text: &mut String, name: &Name) -> Result<(), AllocError>
    ensures { Puts result text.old text.new (fields_text (os_piece name.now)) }
{
    if name.as_str() == NodeDraft::USUAL_OS {
        return Ok(());
    }
    write!(text, " os={}", name.as_str())
}

#[tactic(auto, unfolding(crate::specs::Behind::fields_text))]
pub fn put_arch(text: &mut String, name: &Name) -> Result<(), AllocError>
    ensures { Puts result text.old text.new (fields_text (arch_piece name.now)) }
{
    if name.as_str() == NodeDraft::USUAL_ARCH {
        return Ok(());
    }
    write!(text, " arch={}", name.as_str())
}

#[tactic(auto, unfolding(crate::specs::Behind::fields_text))]
pub fn put_labels(text: &mut String, labels: &[(Name, Name)]) -> Result<(), AllocError>
    ensures { Puts result text.old text.new (fields_text (map label_field labels.now)) }
{
    for label in labels {
        write!(text, " label={}:{}", label.0.as_str(), label.1.as_str())?;
    }
    Ok(())
}

#[tactic(auto, unfolding(crate::specs::Behind::fields_text))]
pub fn put_engine(text: &mut String, labels: &[(Name, Name)]) -> Result<(), AllocError>
    ensures { Puts result text.old text.new (fields_text (map engine_field labels.now)) }
{
    for label in labels {
        write!(text, " engine={}:{}", label.0.as_str(), label.1.as_str())?;
    }
    Ok(())
}

#[tactic(auto, unfolding(crate::specs::Behind::fields_text))]
pub fn put_constraints(text: &mut String, constraints: &[Constraint]) -> Result<(), AllocError>
    ensures { Puts result text.old text.new (fields_text (map field.Constraint constraints.now)) }
{
    for constraint in constraints {
        put_constraint(text, " constraint=", constraint)?;
    }
    Ok(())
}

#[tactic(auto, unfolding(crate::specs::Behind::fields_text))]
pub fn put_spread(text: &mut String, keys: &[Key]) -> Result<(), AllocError>
    ensures { Puts result text.old text.new (fields_text (map field.Spread keys.now)) }
{
    for key in keys {
        text.push_str(" spread=")?;
        put_key(text, key)?;
    }
    Ok(())
}

#[tactic(auto, unfolding(crate::specs::Behind::fields_text))]
pub fn put_platforms(text: &mut String, platforms: &[Platform]) -> Result<(), AllocError>
    ensures { Puts result text.old text.new (fields_text (map field.Platform platforms.now)) }
{
    for platform in platforms {
        let os = platform.os.as_str();
        write!(text, " platform={os}/{}", platform.arch.as_str())?;
    }
    Ok(())
}

#[tactic(auto, unfolding(crate::specs::Behind::fields_text))]
pub fn put_nets(text: &mut String, names: &[Name]) -> Result<(), AllocError>
    ensures { Puts result text.old text.new (fields_text (map field.Net names.now)) }
{
    for name in names {
        write!(text, " net={}", name.as_str())?;
    }
    Ok(())
}

#[tactic(auto, unfolding(crate::specs::Behind::fields_text))]
pub fn put_ingress(text: &mut String, ports: &[Port]) -> Result<(), AllocError>
    ensures { Puts result text.old text.new (fields_text (map field.Port ports.now)) }
{
    for port in ports {
        text.push_str(" port=")?;
        put_port(text, port)?;
    }
    Ok(())
}

#[tactic(auto, unfolding(crate::specs::Behind::fields_text))]
pub fn put_hosts(text: &mut String, ports: &[Port]) -> Result<(), AllocError>
    ensures { Puts result text.old text.new (fields_text (map field.Host ports.now)) }
{
    for port in ports {
        text.push_str(" host=")?;
        put_port(text, port)?;
    }
    Ok(())
}
