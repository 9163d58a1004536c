// A guest's oldest faults taken out of its log.
ghost use Rattle.std.specs.Prelude.{◌≡◌};
ghost use Rattle.state_log.specs.Dropped.{drop_faults};

use crate::shifting::shift_out;
use rules::sizes::{MAX_FAULTS, MAX_GUESTS};
use rules::{Guest, State};

// A guest's k oldest faults go; all of them where it has no more than k.
pub fn drop_faults(s: &mut State, g: Guest, k: usize)
    ensures { s.new ≡ drop_faults s.old g k }
{
    let guest = g.0 as usize;
    if guest >= MAX_GUESTS {
        return;
    }
    if k == 0 {
        // Nothing goes: the four arrays need not be walked.
        return;
    }
    s.logged[guest] = s.logged[guest].saturating_sub(k);
    let first = MAX_FAULTS * guest;
    let end = first + MAX_FAULTS;
    shift_out(&mut s.reasons[first..end], k, 0);
    shift_out(&mut s.flags[first..end], k, 0);
    shift_out(&mut s.sources[first..end], k, 0);
    shift_out(&mut s.addresses[first..end], k, 0);
}
