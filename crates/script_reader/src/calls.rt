// Calls, word by word.
ghost use Rattle.std.specs.Prelude.{◌≡◌, ◌++◌, ◌∷◌, IfOk, []};
ghost use Rattle.script_grammar.specs.Calls.{behind_call, step, takes_id, whole, with_id};
ghost use Rattle.script_grammar.specs.declared.states.Form.TheVariants as form;
ghost use Rattle.script_grammar.specs.declared.states.State.TheVariants as state;

use crate::openings::{
    call_named, call_numbered, call_second, opening, second, with_name, with_session,
};
use crate::operations::{in_fields, in_operation, next_field, op_of, session_call};
use crate::values::{budget_of, filter_of, state_of, subnet_of};
use script_fields::number_of;
use script_grammar::{CallVerb, Field, Form, NumberVerb, SessionVerb, State, Table, Verb};
use std::alloc::Global;
use swarm_filters::read_name;
use swarm_objects::limits::LARGEST_BUDGET;
use swarm_objects::{Call, Filter, Id, List, Name, NoMemory, Op, Query, add, list_of};

fn named_op(
    alloc: Global,
    ops: List<Op>,
    verb: Verb,
    word: &[u8],
) -> Result<Option<State>, NoMemory>
    ensures { IfOk result (λ next. next ≡ step form.Script (state.Verb ops verb) word.now) }
{
    match read_name(alloc, word)? {
        Some(name) => Ok(Some(with_name(alloc, ops, verb, name))),
        None => Ok(None),
    }
}

fn named_call(alloc: Global, verb: CallVerb, word: &[u8]) -> Result<Option<State>, NoMemory>
    ensures { IfOk result (λ next. next ≡ step form.Script (state.CallVerb verb) word.now) }
{
    match read_name(alloc, word)? {
        Some(name) => Ok(Some(call_named(alloc, verb, name))),
        None => Ok(None),
    }
}

fn new_network(ops: List<Op>, name: Name, word: &[u8]) -> Option<State>
    ensures { result ≡ step form.Script (state.Subnet ops name) word.now }
{
    let (base, length) = subnet_of(word)?;
    Some(State::Operation(ops, Op::CreateNetwork(name, base, length)))
}

fn numbered_call(verb: NumberVerb, word: &[u8]) -> Option<State>
    ensures { result ≡ step form.Script (state.Number verb) word.now }
{
    let number = number_of(word)?;
    Some(State::Done(call_numbered(verb, number)))
}

fn new_watch(word: &[u8]) -> Option<State>
    ensures { result ≡ step form.Script state.WatchOpen word.now }
{
    let filter = filter_of(word)?;
    Some(State::Done(Call::WatchBegin(filter)))
}

fn session_fields(
    alloc: Global,
    form: Form,
    name: Name,
    fields: List<Field>,
    word: &[u8],
) -> Result<Option<State>, NoMemory>
    ensures { IfOk result (λ next. next ≡ step form (state.SessionFields name fields) word.now) }
{
    match next_field(alloc, form, Table::Session, fields, word)? {
        Some(fields) => Ok(Some(State::SessionFields(name, fields))),
        None => Ok(None),
    }
}

fn in_session(verb: SessionVerb, name: Name, word: &[u8]) -> Option<State>
    ensures { result ≡ step form.Script (state.Session verb name) word.now }
{
    let session = number_of(word)?;
    Some(with_session(verb, name, session))
}

fn status_task(name: Name, session: Id, word: &[u8]) -> Option<State>
    ensures { result ≡ step form.Script (state.StatusTask name session) word.now }
{
    let task = number_of(word)?;
    Some(State::StatusState(name, session, task))
}

fn status_state(name: Name, session: Id, task: Id, word: &[u8]) -> Option<State>
    ensures { result ≡ step form.Script (state.StatusState name session task) word.now }
{
    let state = state_of(word)?;
    Some(State::Done(Call::RemoteStatus(name, session, task, state)))
}

fn settle_budget(form: Form, word: &[u8]) -> Option<State>
    ensures { result ≡ step form state.Settle word.now }
{
    let budget = budget_of(form, word)?;
    Some(State::Done(Call::Settle(budget)))
}

const fn with_id(filter: Filter, id: Id) -> Filter
    ensures { result ≡ with_id filter id }
{
    Filter {
        kind: filter.kind,
        id: Some(id),
    }
}

const fn takes_id(filter: Filter) -> bool
    ensures { result ≡ takes_id filter }
{
    match filter.id {
        None => true,
        Some(_) => false,
    }
}

// The one object that a new watcher is told of.
fn watched(filter: Filter, word: &[u8]) -> Option<State>
    ensures { result ≡ behind_call (Call.WatchBegin filter) word.now }
{
    if takes_id(filter) {
        let id = number_of(word)?;
        Some(State::Done(Call::WatchBegin(with_id(filter, id))))
    } else {
        None
    }
}

// What a whole call may still take.
fn behind_call(alloc: Global, call: Call, word: &[u8]) -> Result<Option<State>, NoMemory>
    ensures { IfOk result (λ next. next ≡ behind_call call word.now) }
{
    match call {
        Call::View(Query::ListTasks(None)) => match read_name(alloc, word)? {
            Some(name) => Ok(Some(State::Done(Call::View(Query::ListTasks(Some(name)))))),
            None => Ok(None),
        },
        Call::WatchBegin(filter) => Ok(watched(filter, word)),
        _ => Ok(None),
    }
}

/// How far a call has been read with one word more, where that may stand there.
pub fn step(alloc: Global, form: Form, state: State, word: &[u8]) -> Result<Option<State>, NoMemory>
    ensures { IfOk result (λ next. next ≡ step form state word.now) }
{
    match state {
        State::Opening(ops) => Ok(opening(form, ops, word)),
        State::Noun(ops, noun) => Ok(second(alloc, ops, noun, word)),
        State::Verb(ops, verb) => named_op(alloc, ops, verb, word),
        State::Fields(ops, head, fields) => in_fields(alloc, form, ops, head, fields, word),
        State::Subnet(ops, name) => Ok(new_network(ops, name, word)),
        State::Operation(ops, op) => in_operation(ops, op, word),
        State::CallNoun(noun) => Ok(call_second(noun, word)),
        State::CallVerb(verb) => named_call(alloc, verb, word),
        State::Number(verb) => Ok(numbered_call(verb, word)),
        State::WatchOpen => Ok(new_watch(word)),
        State::SessionFields(name, fields) => session_fields(alloc, form, name, fields, word),
        State::Session(verb, name) => Ok(in_session(verb, name, word)),
        State::StatusTask(name, session) => Ok(status_task(name, session, word)),
        State::StatusState(name, session, task) => Ok(status_state(name, session, task, word)),
        State::Settle => Ok(settle_budget(form, word)),
        State::Done(call) => behind_call(alloc, call, word),
    }
}

// The operations with the last one. Most transactions are of one, and have room for it alone.
fn with_last(alloc: Global, mut ops: List<Op>, op: Op) -> Result<List<Op>, NoMemory>
    ensures { IfOk result (λ all. all ≡ ops ++ op ∷ []) }
{
    if ops.is_empty() {
        return list_of(alloc, op);
    }
    add(&mut ops, op)?;
    Ok(ops)
}

/// The call, where it is whole.
pub fn whole(alloc: Global, state: State) -> Result<Option<Call>, NoMemory>
    ensures { IfOk result (λ call. call ≡ whole state) }
{
    match state {
        State::Fields(ops, head, fields) => {
            let op = op_of(alloc, head, fields.as_slice())?;
            Ok(Some(Call::Txn(with_last(alloc, ops, op)?)))
        }
        State::Operation(ops, op) => Ok(Some(Call::Txn(with_last(alloc, ops, op)?))),
        State::SessionFields(name, fields) => Ok(Some(session_call(name, fields.as_slice()))),
        State::Settle => Ok(Some(Call::Settle(LARGEST_BUDGET))),
        State::Done(call) => Ok(Some(call)),
        _ => Ok(None),
    }
}
