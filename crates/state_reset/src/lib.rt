// A guest's part of the state cleared: its endpoints and its log.
#![tactic(auto)]

mod detaching;

ghost use Rattle.std.specs.Prelude.{◌≡◌};
ghost use Rattle.state_reset.specs.Changes.{clear_log};

pub use detaching::detach_all;
use rules::sizes::{MAX_FAULTS, MAX_GUESTS};
use rules::{Guest, State};

// A guest's log becomes empty, and its lost count zero.
pub fn clear_log(s: &mut State, g: Guest)
    ensures { s.new ≡ clear_log s.old g }
{
    let guest = g.0 as usize;
    state_log::drop_faults(s, g, MAX_FAULTS);
    if guest < MAX_GUESTS {
        s.logged[guest] = 0;
        s.lost[guest] = 0;
    }
}
