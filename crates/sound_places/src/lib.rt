// What is tested guest by guest, or endpoint by endpoint: the places in use and those that are not, and shares.
#![tactic(auto)]

mod endpoints;
mod guests;
mod shares;

ghost use Rattle.std.specs.Prelude.{◌≡◌, ◌&&◌, leb};
ghost use Rattle.laws.specs.Lists.{every?};
ghost use Rattle.rules.specs.Sizes.{max_guests, max_endpoints};
ghost use Rattle.rules.specs.Sound.{place_tests};

use endpoints::endpoints_good;
use guests::guests_good;
use rules::State;
use rules::sizes::{MAX_ENDPOINTS, MAX_GUESTS};
pub use shares::shares_kept;

// Whether the places of guests and endpoints that are in use have good counts and attachments, and all others are zero; false
// where there are no places for as many.
pub fn places_good(s: &State) -> bool
    ensures { result ≡ (leb s.now.settings.guests max_guests && (leb s.now.listed max_endpoints && every? (place_tests s.now))) }
{
    if MAX_GUESTS < s.settings.guests {
        return false;
    }
    if MAX_ENDPOINTS < s.listed {
        return false;
    }
    guests_good(&s.settings, &s.logged, &s.lost) & endpoints_good(s)
}
