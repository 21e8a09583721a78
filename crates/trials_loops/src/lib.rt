//! Public calls of the control loops, of what they remember, and of spans, under their own contracts, one function each:
//! the must-fail edits put wrong bodies in their place.
//!
//! The clauses of each function are word for word those of the call, so what they refuse, the call's contract refuses.
#![tactic(auto)]

pub mod duties;
pub mod effects;
pub mod memories;
pub mod spans;
