// The layouts of requests: the type and the fields of each.
#![tactic(auto)]

mod lengths;

pub use lengths::{readable_length, writable_length};

pub mod request;
pub mod status;
