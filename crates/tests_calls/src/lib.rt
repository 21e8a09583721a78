//! Tests of calls that no script makes alone, of parts that none reaches, and of what none shows.
//!
//! They are a crate of their own, so that an edit of a library doesn't prove them again, and one crate, since each
//! crate of tests loads its libraries and is linked.
#![tactic(auto)]

#[cfg(test)]
mod allocations;
#[cfg(test)]
mod assignments;
#[cfg(test)]
mod duties;
#[cfg(test)]
mod few_reads;
#[cfg(test)]
mod lists;
#[cfg(test)]
mod lone_task;
#[cfg(test)]
mod memory;
#[cfg(test)]
mod pools;
#[cfg(test)]
mod sessions;
#[cfg(test)]
mod small_rows;
#[cfg(test)]
mod spread;
#[cfg(test)]
mod standard;
#[cfg(test)]
mod steps;
#[cfg(test)]
mod texts;
#[cfg(test)]
mod unasked;
#[cfg(test)]
mod watches;
#[cfg(test)]
mod worlds;
