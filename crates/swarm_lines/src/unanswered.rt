// Why a call or a duty is no entry.
/// Why a call or a duty is no entry.
#[derive(Clone, Copy, Debug, PartialEq, Eq)]
pub enum Unanswered {
    /// The history has no room but for Halt.
    Full,
    /// Memory was wanting, or the history has ended.
    NoMemory,
}
