// The endpoints that a guest's faults may name.
ghost use Rattle.std.specs.Prelude.{◌≡◌, cond};
ghost use Rattle.laws.specs.Lists.{pick_by, tab};
ghost use Rattle.rules.specs.Sizes.{max_guests, max_endpoints};
ghost use Rattle.rules.specs.Handlers as handlers;
ghost use Rattle.sound_logs.specs.Faults.{owner_among};

use rules::sizes::{MAX_ENDPOINTS, MAX_GUESTS};
use rules::{Endpoint, Guest, State};

// The slots of the hints, one for each remainder of an endpoint's number.
pub(crate) const SLOTS: usize = 64;

// What the number is divided by.
const DIVISOR: u32 = SLOTS as u32;

// The places of endpoints, as a hint counts them.
const PLACES: u8 = MAX_ENDPOINTS as u8;

// No guest's number.
const NO_GUEST: u32 = MAX_GUESTS as u32;

// An endpoint's owner, or no guest's number where the endpoint is not listed.
fn owner_or_none(listed: bool, owner: Guest) -> u32
    ensures { result ≡ cond listed owner.0 max_guests }
{
    if listed { owner.0 as u32 } else { NO_GUEST }
}

// The owners of the endpoints that are listed, and no guest's number at the places after them. Numbers as wide as an
// endpoint's, so that a search compares several places at once.
pub(crate) fn owners_among(s: &State) -> [u32; MAX_ENDPOINTS]
    ensures { result ≡ tab max_endpoints (owner_among s.now.listed s.now.owners) }
{
    let mut out: [u32; MAX_ENDPOINTS] = [0; MAX_ENDPOINTS];
    // By place: the owners are read and the copies are written side by side.
    for j in 0..MAX_ENDPOINTS {
        out[j] = owner_or_none(j < s.listed, Guest(s.owners[j]));
    }
    out
}

// Whether e is an endpoint of guest g.
fn is_listed(s: &State, owners: &[u32; MAX_ENDPOINTS], g: Guest, e: Endpoint) -> bool
    ensures { result ≡ handlers.listed e (pick_by g.0 owners.now s.now.endpoints) }
{
    let guest = g.0 as u32;
    let number = e.0;
    let mut found = false;
    // By place: owners and endpoints are walked side by side.
    for j in 0..MAX_ENDPOINTS {
        let o = owners[j];
        let k = s.endpoints[j];
        found = found | ((o == guest) & (number == k));
    }
    found
}

// For each remainder of an endpoint's number a place at which an endpoint with that remainder stands, or 0. These
// are hints: whoever uses one looks whether the endpoint is there.
pub(crate) fn hints_of(s: &State) -> [u8; SLOTS] {
    let mut hints: [u8; SLOTS] = [0; SLOTS];
    for (j, &e) in s.endpoints.iter().enumerate() {
        hints[(e % DIVISOR) as usize] = j as u8;
    }
    hints
}

// What is_listed gives: first the place that the hint names is looked at, then all.
pub(crate) fn is_named(
    s: &State,
    owners: &[u32; MAX_ENDPOINTS],
    hints: &[u8; SLOTS],
    g: Guest,
    e: Endpoint,
) -> bool
    ensures { result ≡ handlers.listed e (pick_by g.0 owners.now s.now.endpoints) }
{
    let guest = g.0 as u32;
    let number = e.0;
    let slot = (number % DIVISOR) as usize;
    let j = (hints[slot] % PLACES) as usize;
    if (owners[j] == guest) & (s.endpoints[j] == number) {
        return true;
    }
    is_listed(s, owners, g, e)
}
