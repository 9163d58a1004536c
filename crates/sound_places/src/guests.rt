// The places of guests.
ghost use Rattle.std.specs.Prelude.{◌≡◌, length};
ghost use Rattle.laws.specs.Lists.{below};
ghost use Rattle.rules.specs.Sizes.{max_guests};
ghost use Rattle.sound_places.specs.Places.{guest_good, guest_place};

use rules::Settings;
use rules::sizes::{MAX_FAULTS, MAX_GUESTS, MAX_LOST};

// Whether a guest's numbers are good: in use, with log count and lost count within their limits, or zero.
#[tactic(auto, unfolding(crate::specs::Places::guest_good))]
fn guest_good(used: bool, share: u32, first: u64, last: u64, count: usize, lost: u32) -> bool
    ensures { result ≡ guest_good used share first last count lost }
{
    (used & ((count <= MAX_FAULTS) & (lost <= MAX_LOST)))
        | (!used & ((share == 0) & ((first == 0) & ((last == 0) & ((count == 0) & (lost == 0))))))
}

// Whether the numbers at every guest's place are good; and, for whoever calls, what the types of the settings' arrays fix.
pub(crate) fn guests_good(
    settings: &Settings,
    logged: &[usize; MAX_GUESTS],
    lost: &[u32; MAX_GUESTS],
) -> bool
    ensures value { result ≡ below max_guests (guest_place settings.now logged.now lost.now) }
    ensures lengths { (length settings.now.shares ≡ max_guests) × (length settings.now.firsts ≡ max_guests) × (length settings.now.lasts ≡ max_guests) }
{
    let mut ok = true;
    // By place: five arrays of the state are walked side by side.
    for g in 0..MAX_GUESTS {
        ok = guest_good(
            g < settings.guests,
            settings.shares[g],
            settings.firsts[g],
            settings.lasts[g],
            logged[g],
            lost[g],
        ) & ok;
    }
    ok
}
