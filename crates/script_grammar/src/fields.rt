// The fields of a line, and the lines that have some.
use swarm_objects::{
    Availability, Constraint, End, FailureAction, Key, Mode, Name, NodeRole, Platform, Port,
    RestartCondition, UpdateOrder, Version,
};

/// A field that holds one number.
#[derive(Clone, Copy, PartialEq, Eq)]
pub enum NumberField {
    Prepare,
    Start,
    Stop,
    Cpu,
    Mem,
    MaxReplicas,
    RestartDelay,
    RestartMax,
    RestartWindow,
    Parallelism,
    UpdateDelay,
    Monitor,
    Ratio,
    Heartbeat,
    Orphan,
    History,
}

/// A field with its value. `replicas=`, `global` and `job=` are one field, and so are `exit=` and `reject`.
#[derive(Drop)]
pub enum Field {
    Mode(Mode),
    End(End),
    Number(NumberField, u64),
    Label(Name, Name),
    Role(NodeRole),
    Availability(Availability),
    Os(Name),
    Arch(Name),
    Engine(Name, Name),
    Remote,
    Constraint(Constraint),
    Spread(Key),
    Platform(Platform),
    Net(Name),
    Restart(RestartCondition),
    Port(Port),
    Host(Port),
    Failure(FailureAction),
    Order(UpdateOrder),
}

/// Whose fields they are.
#[derive(Clone, Copy, PartialEq, Eq)]
pub enum Table {
    NewNode,
    OldNode,
    Service,
    Cluster,
    /// The resources of a remote node that opens a session.
    Session,
}

/// An operation up to its fields.
#[derive(Drop)]
pub enum Head {
    CreateNode(Name),
    UpdateNode(Name, Option<Version>),
    CreateService(Name),
    UpdateService(Name, Option<Version>),
    SetCluster,
}
