// How a worker's turns end.
/// Why a worker ended.
#[derive(Clone, Copy, Debug, PartialEq, Eq)]
pub enum WorkEnd {
    /// The history has ended.
    Halted,
    /// The history has no room but for Halt.
    Full,
    /// Memory was wanting.
    NoMemory,
}
