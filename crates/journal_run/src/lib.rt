// A journal's records, and the lines that they print, on slices.
#![tactic(auto)]

mod calls;
pub mod play;
mod record;
mod run;
