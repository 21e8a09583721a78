//! Tests of what no clause says of callers in several threads: that workers make turns, and make them at once, and that
//! a caller hears of another one's entry.
#![tactic(auto)]

#[cfg(test)]
mod callers;
#[cfg(test)]
mod gates;
#[cfg(test)]
mod runs;
#[cfg(test)]
mod workers;
