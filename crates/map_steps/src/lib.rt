// What a live record must be like in itself, and how far the records of one domain go on.
#![tactic(auto)]

mod form;
mod limits;
mod runs;

pub use form::{check_form, opens};
pub use limits::{Limits, limits_at};
pub use runs::run_end;
