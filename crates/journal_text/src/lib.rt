// Numbers as text, and text put into a lent buffer.
#![tactic(auto)]

mod decimal;
mod hex;
mod placing;
mod text;

pub use decimal::put_decimal;
pub use hex::{address_line, put_hex};
pub use placing::{has_room, put_bytes};
