// Numbers in bytes, and bytes copied.
#![tactic(auto)]

pub mod copying;
pub mod fields;
pub mod placing;
