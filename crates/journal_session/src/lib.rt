// How far a journal has come, and the records that name a guest, an endpoint or a region.
#![tactic(auto)]

pub mod named;
pub mod naming;
pub mod results;
pub mod session;
