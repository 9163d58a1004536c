// The places of one guest's log: those with a fault, and the others.
ghost use Rattle.std.specs.Prelude.{◌≡◌, ◌+◌, ◌*◌, ◌≤◌, ◌<◌};
ghost use Rattle.laws.specs.Lists.{below, pick_by};
ghost use Rattle.rules.specs.Sizes.{max_guests, max_faults, fault_places};
ghost use Rattle.rules.specs.State.{fault_at};
ghost use Rattle.rules.specs.Sound.{fault_good};
ghost use Rattle.sound_logs.specs.Faults.{endpoints_alone, place_good};

use crate::empty::zero_places;
use crate::named::{SLOTS, is_named};
use rules::sizes::{MAX_ENDPOINTS, MAX_FAULTS};
use rules::{Endpoint, Fault, Guest, State};

// Whether f has the form of a fault and names an endpoint of guest g.
#[tactic(auto, unfolding(rules::specs::Sound::fault_good))]
fn fault_good(
    s: &State,
    owners: &[u32; MAX_ENDPOINTS],
    hints: &[u8; SLOTS],
    g: Guest,
    f: Fault,
) -> bool
    ensures { result ≡ fault_good (endpoints_alone (pick_by g.0 owners.now s.now.endpoints)) f }
{
    ((f.reason == 1) | (f.reason == 2))
        & (((f.flags == 257) | (f.flags == 258)) & is_named(s, owners, hints, g, f.endpoint))
}

// Whether the n places from place `first` on have faults of guest g.
fn faults_of(
    s: &State,
    owners: &[u32; MAX_ENDPOINTS],
    hints: &[u8; SLOTS],
    g: Guest,
    first: usize,
    n: usize,
) -> bool
    requires { first + n ≤ fault_places }
    ensures { result ≡ below n (λ j. fault_good (endpoints_alone (pick_by g.0 owners.now s.now.endpoints)) (fault_at s.now (first + j))) }
{
    let mut ok = true;
    // By place: four arrays of the state are walked side by side.
    for j in 0..n {
        let i = first + j;
        let f = Fault {
            reason: s.reasons[i],
            flags: s.flags[i],
            endpoint: Endpoint(s.sources[i]),
            address: s.addresses[i],
        };
        ok = fault_good(s, owners, hints, g, f) & ok;
    }
    ok
}

// Whether guest g's places are good, of which so many are in use: those with a fault of its own, and the others zero.
pub(crate) fn log_good(
    s: &State,
    owners: &[u32; MAX_ENDPOINTS],
    hints: &[u8; SLOTS],
    g: Guest,
    count: usize,
) -> bool
    requires { g.0 < max_guests }
    ensures { result ≡ below max_faults (λ j. place_good count (pick_by g.0 owners.now s.now.endpoints) j (fault_at s.now (max_faults * g.0 + j))) }
{
    let held = count.min(MAX_FAULTS);
    let first = MAX_FAULTS * (g.0 as usize);
    faults_of(s, owners, hints, g, first, held) & zero_places(s, first + held, MAX_FAULTS - held)
}
