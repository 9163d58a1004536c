// The entries for the hypervisor, which is written in C: document 01's numbers, and structs by value. An entry that is
// given a state lends it to the call, which changes it where it stands: a state handed on by value would be copied twice.
#![tactic(auto)]

pub mod access;
pub mod fetch;
pub mod queries;
pub mod request;
pub mod reset;
pub mod set_up;
