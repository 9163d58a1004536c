// A fault logged for a guest, and the count of those that it lost.
#![tactic(auto)]

mod dropping;
mod shifting;

ghost use Rattle.std.specs.Prelude.{◌≡◌, get_or};
ghost use Rattle.state_log.specs.Changes.{log_fault};

pub use dropping::drop_faults;
use rules::sizes::{MAX_FAULTS, MAX_GUESTS, MAX_LOST};
use rules::{Fault, Guest, State};

// A fault logged for a guest: in its log where there is room, else in its lost count.
pub fn log_fault(s: &mut State, g: Guest, f: Fault)
    ensures { s.new ≡ log_fault s.old g f }
{
    let guest = g.0 as usize;
    if guest >= MAX_GUESTS {
        return;
    }
    let n = s.logged[guest];
    if n < MAX_FAULTS {
        let at = MAX_FAULTS * guest + n;
        s.reasons[at] = f.reason;
        s.flags[at] = f.flags;
        s.sources[at] = f.endpoint.0;
        s.addresses[at] = f.address;
        s.logged[guest] = n + 1;
        return;
    }
    let k = s.lost[guest];
    if k < MAX_LOST {
        s.lost[guest] = k + 1;
    }
}

// A guest's lost count, 0 for a guest number that there is not.
pub fn lost_of(lost: [u32; MAX_GUESTS], g: Guest) -> u32
    ensures { result ≡ get_or lost g.0 0 }
{
    lost.get(g.0 as usize).copied().unwrap_or(0)
}
