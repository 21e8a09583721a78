// What a turn did.
use swarm_objects::Duty;

/// What a turn of a control loop did.
#[derive(Clone, Copy, Debug, PartialEq, Eq)]
pub enum Turn {
    /// The loop's first duty.
    Did(Duty),
    /// The loop has no duty.
    Idle,
    /// The history has ended.
    Halted,
    /// The history has so many entries, and no room but for Halt.
    Full(u64),
    /// Memory was wanting, and nothing changed.
    NoMemory,
}
