// ATTACH and DETACH, on the device's state and the table's words.
#![tactic(auto)]

mod attach;
mod detach;
mod moving;
mod steps;

pub use attach::handle_attach;
pub use detach::handle_detach;
