// The first words of a call, up to its names and numbers.
ghost use Rattle.std.specs.Prelude.{◌≡◌};
ghost use Rattle.script_grammar.specs.Calls.{call_named, call_numbered, call_opening, call_second, is_empty, node_call, noun_of, opening, second, with_name, with_session};
ghost use Rattle.script_grammar.specs.declared.states.CallNoun.TheVariants as call_noun;
ghost use Rattle.script_grammar.specs.declared.states.Noun.TheVariants as noun;

use script_grammar::{CallNoun, CallVerb, Form, Head, Noun, NumberVerb, SessionVerb, State, Verb};
use std::alloc::Global;
use swarm_objects::{Call, Id, List, Name, Op, Query};

pub const fn is_empty<T>(items: &[T]) -> bool
    ensures { result ≡ is_empty items.now }
{
    match items {
        [] => true,
        _ => false,
    }
}

// The first word of an operation.
fn noun_of(word: &[u8]) -> Option<Noun>
    ensures { result ≡ noun_of word.now }
{
    if word == b"node".as_slice() {
        Some(Noun::Node)
    } else if word == b"service".as_slice() {
        Some(Noun::Service)
    } else if word == b"network".as_slice() {
        Some(Noun::Network)
    } else if word == b"cluster".as_slice() {
        Some(Noun::Cluster)
    } else {
        None
    }
}

// The first word of another call; only a journal has `halt`.
fn call_opening(form: Form, word: &[u8]) -> Option<State>
    ensures { result ≡ call_opening form word.now }
{
    if word == b"list".as_slice() {
        Some(State::CallNoun(CallNoun::List))
    } else if word == b"inspect".as_slice() {
        Some(State::CallNoun(CallNoun::Inspect))
    } else if word == b"watch".as_slice() {
        Some(State::CallNoun(CallNoun::Watch))
    } else if word == b"agent".as_slice() {
        Some(State::CallNoun(CallNoun::Agent))
    } else if word == b"remote".as_slice() {
        Some(State::CallNoun(CallNoun::Remote))
    } else if word == b"clock".as_slice() {
        Some(State::Done(Call::View(Query::Clock)))
    } else if word == b"tick".as_slice() {
        Some(State::Number(NumberVerb::Tick))
    } else if word == b"settle".as_slice() {
        Some(State::Settle)
    } else {
        match form {
            Form::Journal if word == b"halt".as_slice() => Some(State::Done(Call::Halt)),
            _ => None,
        }
    }
}

/// The first word of a call, or of an operation behind these.
pub fn opening(form: Form, ops: List<Op>, word: &[u8]) -> Option<State>
    ensures { result ≡ opening form ops word.now }
{
    match noun_of(word) {
        Some(noun) => Some(State::Noun(ops, noun)),
        None if is_empty(ops.as_slice()) => call_opening(form, word),
        None => None,
    }
}

// Calls that begin with `node` and are no operations.
fn node_call(word: &[u8]) -> Option<CallVerb>
    ensures { result ≡ node_call word.now }
{
    if word == b"fail".as_slice() {
        Some(CallVerb::NodeFail)
    } else if word == b"start".as_slice() {
        Some(CallVerb::NodeStart)
    } else {
        None
    }
}

fn second_of_node(ops: List<Op>, word: &[u8]) -> Option<State>
    ensures { result ≡ second ops noun.Node word.now }
{
    if word == b"join".as_slice() {
        Some(State::Verb(ops, Verb::NodeJoin))
    } else if word == b"update".as_slice() {
        Some(State::Verb(ops, Verb::NodeUpdate))
    } else if word == b"remove".as_slice() {
        Some(State::Verb(ops, Verb::NodeRemove))
    } else if is_empty(ops.as_slice()) {
        Some(State::CallVerb(node_call(word)?))
    } else {
        None
    }
}

fn second_of_service(ops: List<Op>, word: &[u8]) -> Option<State>
    ensures { result ≡ second ops noun.Service word.now }
{
    if word == b"create".as_slice() {
        Some(State::Verb(ops, Verb::ServiceCreate))
    } else if word == b"update".as_slice() {
        Some(State::Verb(ops, Verb::ServiceUpdate))
    } else if word == b"remove".as_slice() {
        Some(State::Verb(ops, Verb::ServiceRemove))
    } else if word == b"rollback".as_slice() {
        Some(State::Verb(ops, Verb::ServiceRollback))
    } else {
        None
    }
}

fn second_of_network(ops: List<Op>, word: &[u8]) -> Option<State>
    ensures { result ≡ second ops noun.Network word.now }
{
    if word == b"create".as_slice() {
        Some(State::Verb(ops, Verb::NetworkCreate))
    } else if word == b"remove".as_slice() {
        Some(State::Verb(ops, Verb::NetworkRemove))
    } else {
        None
    }
}

fn second_of_cluster(alloc: Global, ops: List<Op>, word: &[u8]) -> Option<State>
    ensures { result ≡ second ops noun.Cluster word.now }
{
    if word == b"set".as_slice() {
        Some(State::Fields(ops, Head::SetCluster, List::new(alloc)))
    } else {
        None
    }
}

/// The second word of an operation.
pub fn second(alloc: Global, ops: List<Op>, noun: Noun, word: &[u8]) -> Option<State>
    ensures { result ≡ second ops noun word.now }
{
    match noun {
        Noun::Node => second_of_node(ops, word),
        Noun::Service => second_of_service(ops, word),
        Noun::Network => second_of_network(ops, word),
        Noun::Cluster => second_of_cluster(alloc, ops, word),
    }
}

fn listing(word: &[u8]) -> Option<State>
    ensures { result ≡ call_second call_noun.List word.now }
{
    if word == b"nodes".as_slice() {
        Some(State::Done(Call::View(Query::ListNodes)))
    } else if word == b"services".as_slice() {
        Some(State::Done(Call::View(Query::ListServices)))
    } else if word == b"networks".as_slice() {
        Some(State::Done(Call::View(Query::ListNetworks)))
    } else if word == b"tasks".as_slice() {
        Some(State::Done(Call::View(Query::ListTasks(None))))
    } else {
        None
    }
}

fn inspecting(word: &[u8]) -> Option<State>
    ensures { result ≡ call_second call_noun.Inspect word.now }
{
    if word == b"node".as_slice() {
        Some(State::CallVerb(CallVerb::InspectNode))
    } else if word == b"service".as_slice() {
        Some(State::CallVerb(CallVerb::InspectService))
    } else if word == b"network".as_slice() {
        Some(State::CallVerb(CallVerb::InspectNetwork))
    } else if word == b"task".as_slice() {
        Some(State::Number(NumberVerb::InspectTask))
    } else {
        None
    }
}

fn watching(word: &[u8]) -> Option<State>
    ensures { result ≡ call_second call_noun.Watch word.now }
{
    if word == b"open".as_slice() {
        Some(State::WatchOpen)
    } else if word == b"poll".as_slice() {
        Some(State::Number(NumberVerb::WatchPoll))
    } else if word == b"close".as_slice() {
        Some(State::Number(NumberVerb::WatchClose))
    } else {
        None
    }
}

fn agent_verb(word: &[u8]) -> Option<State>
    ensures { result ≡ call_second call_noun.Agent word.now }
{
    if word == b"stop".as_slice() {
        Some(State::CallVerb(CallVerb::AgentStop))
    } else if word == b"start".as_slice() {
        Some(State::CallVerb(CallVerb::AgentStart))
    } else {
        None
    }
}

fn remote_verb(word: &[u8]) -> Option<State>
    ensures { result ≡ call_second call_noun.Remote word.now }
{
    if word == b"open".as_slice() {
        Some(State::CallVerb(CallVerb::RemoteOpen))
    } else if word == b"beat".as_slice() {
        Some(State::CallVerb(CallVerb::RemoteBeat))
    } else if word == b"pull".as_slice() {
        Some(State::CallVerb(CallVerb::RemotePull))
    } else if word == b"status".as_slice() {
        Some(State::CallVerb(CallVerb::RemoteStatus))
    } else {
        None
    }
}

/// The second word of another call.
pub fn call_second(noun: CallNoun, word: &[u8]) -> Option<State>
    ensures { result ≡ call_second noun word.now }
{
    match noun {
        CallNoun::List => listing(word),
        CallNoun::Inspect => inspecting(word),
        CallNoun::Watch => watching(word),
        CallNoun::Agent => agent_verb(word),
        CallNoun::Remote => remote_verb(word),
    }
}

/// The name behind two words of an operation.
pub fn with_name(alloc: Global, ops: List<Op>, verb: Verb, name: Name) -> State
    ensures { result ≡ with_name ops verb name }
{
    match verb {
        Verb::NodeJoin => State::Fields(ops, Head::CreateNode(name), List::new(alloc)),
        Verb::NodeUpdate => State::Fields(ops, Head::UpdateNode(name, None), List::new(alloc)),
        Verb::NodeRemove => State::Operation(ops, Op::RemoveNode(name, false)),
        Verb::ServiceCreate => State::Fields(ops, Head::CreateService(name), List::new(alloc)),
        Verb::ServiceUpdate => State::Fields(
            ops,
            Head::UpdateService(name, None),
            List::new(alloc),
        ),
        Verb::ServiceRemove => State::Operation(ops, Op::RemoveService(name)),
        Verb::ServiceRollback => State::Operation(ops, Op::RollbackService(name, None)),
        Verb::NetworkCreate => State::Subnet(ops, name),
        Verb::NetworkRemove => State::Operation(ops, Op::RemoveNetwork(name)),
    }
}

/// The name behind two words of another call.
pub fn call_named(alloc: Global, verb: CallVerb, name: Name) -> State
    ensures { result ≡ call_named verb name }
{
    match verb {
        CallVerb::NodeFail => State::Done(Call::NodeFail(name)),
        CallVerb::NodeStart => State::Done(Call::NodeStart(name)),
        CallVerb::AgentStop => State::Done(Call::AgentStop(name)),
        CallVerb::AgentStart => State::Done(Call::AgentStart(name)),
        CallVerb::InspectNode => State::Done(Call::View(Query::InspectNode(name))),
        CallVerb::InspectService => State::Done(Call::View(Query::InspectService(name))),
        CallVerb::InspectNetwork => State::Done(Call::View(Query::InspectNetwork(name))),
        CallVerb::RemoteOpen => State::SessionFields(name, List::new(alloc)),
        CallVerb::RemoteBeat => State::Session(SessionVerb::Beat, name),
        CallVerb::RemotePull => State::Session(SessionVerb::Pull, name),
        CallVerb::RemoteStatus => State::Session(SessionVerb::Status, name),
    }
}

/// The call of a number.
pub fn call_numbered(verb: NumberVerb, number: u64) -> Call
    ensures { result ≡ call_numbered verb number }
{
    match verb {
        NumberVerb::Tick => Call::Tick(number),
        NumberVerb::InspectTask => Call::View(Query::InspectTask(number)),
        NumberVerb::WatchPoll => Call::WatchPoll(number),
        NumberVerb::WatchClose => Call::WatchFinish(number),
    }
}

/// The session behind a node's name.
pub fn with_session(verb: SessionVerb, name: Name, session: Id) -> State
    ensures { result ≡ with_session verb name session }
{
    match verb {
        SessionVerb::Beat => State::Done(Call::RemoteBeat(name, session)),
        SessionVerb::Pull => State::Done(Call::RemotePull(name, session)),
        SessionVerb::Status => State::StatusTask(name, session),
    }
}
