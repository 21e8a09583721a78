// Tests of the turn cell by threads.
#![tactic(auto)]

#[cfg(test)]
mod turns;
