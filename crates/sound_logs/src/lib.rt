// The test of the guests' fault logs.
#![tactic(auto)]

mod empty;
mod held;
mod named;

ghost use Rattle.std.specs.Prelude.{◌≡◌, ◌&&◌, ◌≤◌, leb};
ghost use Rattle.laws.specs.Lists.{every?};
ghost use Rattle.rules.specs.Sizes.{max_endpoints};
ghost use Rattle.rules.specs.Sound.{log_tests};

use empty::{none_logged, zero_places};
use held::log_good;
use named::{hints_of, owners_among};
use rules::sizes::{FAULT_PLACES, MAX_ENDPOINTS, MAX_GUESTS};
use rules::{Guest, State};

// Whether each place for a fault is good, guest by guest.
fn places_good(s: &State) -> bool
    requires { s.now.listed ≤ max_endpoints }
    ensures { result ≡ every? (log_tests s.now) }
{
    let owners = owners_among(s);
    let hints = hints_of(s);
    let mut ok = true;
    // By place: the place of a log's count is the guest's number.
    for g in 0..MAX_GUESTS {
        ok = log_good(s, &owners, &hints, Guest(g as u8), s.logged[g]) & ok;
    }
    ok
}

// Whether each place for a fault is good: in use, with a fault of its guest's, or zero; false where there are no places for as
// many endpoints as are listed.
pub fn faults_good(s: &State) -> bool
    ensures { result ≡ (leb s.now.listed max_endpoints && every? (log_tests s.now)) }
{
    if MAX_ENDPOINTS < s.listed {
        return false;
    }
    if none_logged(s) {
        return zero_places(s, 0, FAULT_PLACES);
    }
    places_good(s)
}
