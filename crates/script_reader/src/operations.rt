// Operations behind their first words: fields, versions, `force`, and the semicolon that ends one.
ghost use Rattle.std.specs.Prelude.{◌≡◌, IfOk};
ghost use Rattle.script_grammar.specs.Calls.{behind_op, in_fields, in_operation, next_field, op_of, session_call, set_version, table_of, takes_version, versioned};

use crate::openings::is_empty;
use crate::values::{begins_version, version_of};
use script_fields::{
    availability_named, draft_of, field_of, labels_named, may_stand, node_draft_of, number_given,
    role_named, settings_of,
};
use script_grammar::{Field, Form, Head, NumberField, State, Table};
use std::alloc::Global;
use swarm_objects::{Call, List, Name, NoMemory, Op, Version, add};

const fn table_of(head: &Head) -> Table
    ensures { result ≡ table_of head.now }
{
    match head {
        Head::CreateNode(_) => Table::NewNode,
        Head::UpdateNode(_, _) => Table::OldNode,
        Head::CreateService(_) => Table::Service,
        Head::UpdateService(_, _) => Table::Service,
        Head::SetCluster => Table::Cluster,
    }
}

/// The operation of a head and its fields.
pub fn op_of(alloc: Global, head: Head, fields: &[Field]) -> Result<Op, NoMemory>
    ensures { IfOk result (λ op. op ≡ op_of head fields.now) }
{
    match head {
        Head::CreateNode(name) => Ok(Op::CreateNode(name, node_draft_of(alloc, fields)?)),
        Head::UpdateNode(name, version) => Ok(Op::UpdateNode(
            name,
            version,
            labels_named(alloc, fields)?,
            role_named(fields),
            availability_named(fields),
        )),
        Head::CreateService(name) => Ok(Op::CreateService(name, draft_of(alloc, fields)?)),
        Head::UpdateService(name, version) => {
            Ok(Op::UpdateService(name, version, draft_of(alloc, fields)?))
        }
        Head::SetCluster => Ok(Op::SetCluster(settings_of(fields))),
    }
}

/// A session begins with the resources that its fields name.
pub fn session_call(name: Name, fields: &[Field]) -> Call
    ensures { result ≡ session_call name fields.now }
{
    Call::RemoteBegin(
        name,
        number_given(NumberField::Cpu, fields),
        number_given(NumberField::Mem, fields),
    )
}

const fn takes_version(head: &Head) -> bool
    ensures { result ≡ takes_version head.now }
{
    match head {
        Head::UpdateNode(_, None) => true,
        Head::UpdateService(_, None) => true,
        _ => false,
    }
}

fn set_version(head: Head, version: Version) -> Head
    ensures { result ≡ set_version head version }
{
    match head {
        Head::UpdateNode(name, _) => Head::UpdateNode(name, Some(version)),
        Head::UpdateService(name, _) => Head::UpdateService(name, Some(version)),
        head => head,
    }
}

fn versioned(
    alloc: Global,
    ops: List<Op>,
    head: Head,
    fields: &[Field],
    word: &[u8],
) -> Option<State>
    ensures { result ≡ versioned ops head fields.now word.now }
{
    if is_empty(fields) && takes_version(&head) {
        let version = version_of(word)?;
        Some(State::Fields(ops, set_version(head, version), List::new(alloc)))
    } else {
        None
    }
}

/// The fields with the one of this word, where it may stand there.
pub fn next_field(
    alloc: Global,
    form: Form,
    table: Table,
    mut fields: List<Field>,
    word: &[u8],
) -> Result<Option<List<Field>>, NoMemory>
    ensures { IfOk result (λ next. next ≡ next_field form table fields word.now) }
{
    let Some(field) = field_of(alloc, word)? else {
        return Ok(None);
    };
    if may_stand(alloc, form, table, fields.as_slice(), &field, word)? {
        add(&mut fields, field)?;
        Ok(Some(fields))
    } else {
        Ok(None)
    }
}

/// A word behind a head and its fields.
pub fn in_fields(
    alloc: Global,
    form: Form,
    mut ops: List<Op>,
    head: Head,
    fields: List<Field>,
    word: &[u8],
) -> Result<Option<State>, NoMemory>
    ensures { IfOk result (λ next. next ≡ in_fields form ops head fields word.now) }
{
    if word == b";".as_slice() {
        add(&mut ops, op_of(alloc, head, fields.as_slice())?)?;
        return Ok(Some(State::Opening(ops)));
    }
    if begins_version(word) {
        return Ok(versioned(alloc, ops, head, fields.as_slice(), word));
    }
    match next_field(alloc, form, table_of(&head), fields, word)? {
        Some(fields) => Ok(Some(State::Fields(ops, head, fields))),
        None => Ok(None),
    }
}

// What an operation without fields may still take.
fn behind_op(ops: List<Op>, op: Op, word: &[u8]) -> Option<State>
    ensures { result ≡ behind_op ops op word.now }
{
    match op {
        Op::RemoveNode(name, false) if word == b"force".as_slice() => {
            Some(State::Operation(ops, Op::RemoveNode(name, true)))
        }
        Op::RollbackService(name, None) => {
            let version = version_of(word)?;
            Some(State::Operation(ops, Op::RollbackService(name, Some(version))))
        }
        _ => None,
    }
}

/// A word behind an operation without fields.
pub fn in_operation(mut ops: List<Op>, op: Op, word: &[u8]) -> Result<Option<State>, NoMemory>
    ensures { IfOk result (λ next. next ≡ in_operation ops op word.now) }
{
    if word == b";".as_slice() {
        add(&mut ops, op)?;
        return Ok(Some(State::Opening(ops)));
    }
    Ok(behind_op(ops, op, word))
}
