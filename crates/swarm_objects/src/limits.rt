// How much there may be, each number once. The definitions have them from here (`specs/Limits.antt`).
use crate::Ms;

/// Entries of a history, not counting Halt.
pub const MOST_ENTRIES: u64 = 300_000;

/// Operations of a transaction.
pub const MOST_OPS: usize = 200;

/// Nodes of a cluster.
pub const MOST_NODES: usize = 1_000;

/// Services of a cluster.
pub const MOST_SERVICES: usize = 1_000;

/// Networks of a cluster.
pub const MOST_NETWORKS: usize = 100;

/// Watchers of a cluster.
pub const MOST_WATCHERS: usize = 100;

/// Events that may wait for a watcher.
pub const MOST_EVENTS: usize = 10_000;

/// Replicas of a service, and tasks of a job.
pub const MOST_REPLICAS: u64 = 10_000;

/// Items of one field.
pub const MOST_ITEMS: usize = 32;

/// Thousandths of a processor that a node may have and a task may reserve.
pub const MOST_CPU: u64 = 1_000_000;

/// Bytes of memory that a node may have and a task may reserve.
pub const MOST_MEM: u64 = 1 << 60;

/// The share of failures that an update may bear, in thousandths.
pub const MOST_RATIO: u64 = 1_000;

/// The longest time that may be stated: a day.
pub const LONGEST_TIME: Ms = 86_400_000;

/// The longest tick of the clock.
pub const LONGEST_TICK: Ms = 1_000;

/// The shortest period of a session's beats.
pub const SHORTEST_BEAT: Ms = 1_000;

/// The longest period of a session's beats.
pub const LONGEST_BEAT: Ms = 60_000;

/// Ended tasks of a place that may be kept.
pub const MOST_KEPT: u64 = 100;

/// The fewest leading bits that the addresses of a network share.
pub const FEWEST_BITS: u8 = 16;

/// The most leading bits that the addresses of a network share.
pub const MOST_BITS: u8 = 29;

/// Duties that one settle line may do, and does where it names no budget.
pub const LARGEST_BUDGET: u64 = 100_000;

/// Bytes of a script.
pub const LONGEST_SCRIPT: u64 = 16 << 20;

/// Bytes of a script's line, not counting its newline.
pub const LONGEST_LINE: usize = 8_192;

/// Bytes of a name, and of a constraint's value.
pub const LONGEST_NAME: usize = 63;

/// Bytes of a journal's line, with its newline.
pub const LONGEST_ENTRY: usize = 8_224;
