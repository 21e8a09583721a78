// Tests of the store alone, and of the index, the counts of ports, the places of a service and the agent. They stand in
// a crate of their own, since a crate with tests is proved twice.
#![tactic(auto)]

#[cfg(test)]
mod agent;
#[cfg(test)]
mod index;
#[cfg(test)]
mod ports;
#[cfg(test)]
mod slots;
#[cfg(test)]
mod store;
