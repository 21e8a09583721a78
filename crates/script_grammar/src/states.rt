// How far the words of a call have been read.
use crate::{Field, Head};
use swarm_objects::{Call, Id, List, Name, Op};

/// Whose lines are meant. A journal's are in the one spelling.
#[derive(Clone, Copy, PartialEq, Eq)]
pub enum Form {
    Script,
    Journal,
}

/// The first word of an operation.
#[derive(Clone, Copy, PartialEq, Eq)]
pub enum Noun {
    Node,
    Service,
    Network,
    Cluster,
}

/// Two words of an operation that want a name.
#[derive(Clone, Copy, PartialEq, Eq)]
pub enum Verb {
    NodeJoin,
    NodeUpdate,
    NodeRemove,
    ServiceCreate,
    ServiceUpdate,
    ServiceRemove,
    ServiceRollback,
    NetworkCreate,
    NetworkRemove,
}

/// The first word of a call that wants a second, where no operation begins so.
#[derive(Clone, Copy, PartialEq, Eq)]
pub enum CallNoun {
    List,
    Inspect,
    Watch,
    Agent,
    Remote,
}

/// Two words of a call that want a name.
#[derive(Clone, Copy, PartialEq, Eq)]
pub enum CallVerb {
    NodeFail,
    NodeStart,
    AgentStop,
    AgentStart,
    InspectNode,
    InspectService,
    InspectNetwork,
    RemoteOpen,
    RemoteBeat,
    RemotePull,
    RemoteStatus,
}

/// Words of a call that want one number.
#[derive(Clone, Copy, PartialEq, Eq)]
pub enum NumberVerb {
    Tick,
    InspectTask,
    WatchPoll,
    WatchClose,
}

/// What a remote node says in a session.
#[derive(Clone, Copy, PartialEq, Eq)]
pub enum SessionVerb {
    Beat,
    Pull,
    Status,
}

/// How far a call has been read. A list of operations is that of those before the last semicolon.
#[derive(Drop)]
pub enum State {
    Opening(List<Op>),
    Noun(List<Op>, Noun),
    Verb(List<Op>, Verb),
    Fields(List<Op>, Head, List<Field>),
    /// A new network that wants its range.
    Subnet(List<Op>, Name),
    /// An operation without fields, which is whole.
    Operation(List<Op>, Op),
    CallNoun(CallNoun),
    CallVerb(CallVerb),
    Number(NumberVerb),
    /// A new watcher that wants its kind.
    WatchOpen,
    /// A node that opens a session, and its fields.
    SessionFields(Name, List<Field>),
    /// A node that wants its session.
    Session(SessionVerb, Name),
    /// A report that wants its task.
    StatusTask(Name, Id),
    /// A report that wants the task's state.
    StatusState(Name, Id, Id),
    /// A settle line without its budget.
    Settle,
    /// A whole call; some take one word more.
    Done(Call),
}
