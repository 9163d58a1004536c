// The guests' shares.
ghost use Rattle.std.specs.Prelude.{◌≡◌, ◌&&◌, ◌≤◌, leb, get_or};
ghost use Rattle.laws.specs.Lists.{below};
ghost use Rattle.rules.specs.Sizes.{max_guests};
ghost use Rattle.rules.specs.Configuration.{share};

use rules::Settings;
use rules::sizes::MAX_GUESTS;

// Whether no guest's count is above its share, of guests that have places.
fn all_kept(settings: Settings, counts: [usize; MAX_GUESTS]) -> bool
    requires { settings.guests ≤ max_guests }
    ensures { result ≡ below settings.guests (λ g. leb (get_or counts g 0) (share settings g)) }
{
    let shares = settings.shares;
    let mut ok = true;
    // By place: counts and shares are walked side by side.
    for g in 0..settings.guests {
        let count = counts[g];
        let limit = shares[g];
        ok = (count <= limit as usize) & ok;
    }
    ok
}

// Whether no guest's count is above its share; false where there are no places for as many guests.
pub fn shares_kept(settings: Settings, counts: [usize; MAX_GUESTS]) -> bool
    ensures { result ≡ (leb settings.guests max_guests && below settings.guests (λ g. leb (get_or counts g 0) (share settings g))) }
{
    if MAX_GUESTS < settings.guests {
        return false;
    }
    all_kept(settings, counts)
}
