// Calls, histories and what holds over them: definitions and laws, and no function that the program calls.
#![tactic(auto)]

pub mod theorems;
