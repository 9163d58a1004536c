// The mapping table in lent 64-bit words, five words to a record.
#![tactic(auto)]

mod key;
mod record;
mod writing;

pub use key::key_of;
pub use record::{bounded, get, get_at};
pub use writing::write;
