// A guest's endpoints detached.
ghost use Rattle.std.specs.Prelude.{◌≡◌};
ghost use Rattle.state_reset.specs.Changes.{detach_all};

use rules::sizes::MAX_ENDPOINTS;
use rules::{Guest, State};

// Guest g's endpoints are detached: the flag and the domain of each are zero.
pub fn detach_all(s: &mut State, g: Guest)
    ensures { s.new ≡ detach_all s.old g }
{
    let n = s.listed.min(MAX_ENDPOINTS);
    // By place: three arrays of the state are walked side by side.
    for i in 0..n {
        if s.owners[i] == g.0 {
            s.attached[i] = 0;
            s.domains[i] = 0;
        }
    }
}
