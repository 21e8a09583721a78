// How far the words of a duty have been read.
use swarm_objects::{Duty, Id, Role};

/// A kind of duty that has one number.
#[derive(Clone, Copy, PartialEq, Eq)]
pub enum OneNumber {
    Expire,
    Orphan,
    Reject,
    Restart,
    Raise,
    Start,
    Fail,
    Finish,
    Gone,
    Old,
    Address,
    Note,
    Drop,
    Explain,
    Delete,
    Trim,
    Register,
    Beat,
    Apply,
    Pull,
}

/// A kind of duty that has two numbers.
#[derive(Clone, Copy, PartialEq, Eq)]
pub enum TwoNumbers {
    Swap,
    Replace,
    Down,
    ReplicatedCreate,
    Leave,
    GlobalCreate,
    JobCreate,
    Place,
    Exec,
    Report,
    Forget,
}

/// How far a duty has been read, behind the word `duty`.
#[derive(Clone, Copy, PartialEq, Eq)]
pub enum DutyState {
    /// It wants the control loop.
    Opening,
    /// It wants the kind.
    Loop(Role),
    /// It wants its number.
    One(OneNumber),
    /// It wants both numbers.
    Two(TwoNumbers),
    /// It wants the second number.
    Second(TwoNumbers, u64),
    /// A duty `port` that wants the service.
    Port,
    /// A duty `port` that wants the target.
    PortTarget(Id),
    /// A duty `port` that wants 1 for UDP or 0 for TCP.
    PortProtocol(Id, u16),
    Done(Duty),
}
