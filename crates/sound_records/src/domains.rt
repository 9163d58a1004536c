// Step 1 of MAP for a record: its domain exists.
ghost use Rattle.std.specs.Prelude.{◌≡◌, ◌≤◌, ◌<◌};
ghost use Rattle.rules.specs.Sizes.{max_endpoints};
ghost use Rattle.rules.specs.Table.{domain_of};
ghost use Rattle.sound_records.specs.Scan as spec;

use rules::sizes::{DOMAIN_SPAN, MAX_ENDPOINTS};
use rules::{Domain, Guest, Mapping, State};

// The slots of the hints.
const SLOTS: usize = 64;

// The places of endpoints, as a hint counts them.
const PLACES: u8 = MAX_ENDPOINTS as u8;

// The domain that a record's first word names.
pub(crate) fn domain_of(r: Mapping) -> Domain
    ensures { result ≡ domain_of r }
{
    let domain = r.key % DOMAIN_SPAN;
    Domain(domain as u32)
}

// Whether a listed endpoint of guest g is attached to domain d.
fn domain_good(s: &State, g: Guest, d: Domain) -> bool
    requires { s.now.listed ≤ max_endpoints }
    ensures { result ≡ spec.domain_held s.now.listed s.now.owners s.now.attached s.now.domains g d }
{
    let guest = g.0;
    let domain = d.0;
    let mut found = false;
    // By place: three arrays of the state are walked side by side.
    for j in 0..s.listed {
        found = found
            | ((s.owners[j] == guest) & ((s.attached[j] == 1) & (s.domains[j] == domain)));
    }
    found
}

// A slot for a guest and a domain.
fn slot_of(g: Guest, d: Domain) -> usize
    ensures { result < 64 }
{
    ((g.0 % 4) as usize * 16 + (d.0 % 64) as usize) % SLOTS
}

// For each slot a place at which an endpoint stands that is attached to a domain of that slot, or 0. These are hints: whoever
// uses one looks whether the endpoint is there.
pub(crate) fn hints_of(s: &State) -> [u8; SLOTS]
    requires { s.now.listed ≤ max_endpoints }
{
    let mut hints: [u8; SLOTS] = [0; SLOTS];
    // By place: three arrays of the state are walked side by side.
    for j in 0..s.listed {
        if s.attached[j] == 1 {
            let slot = slot_of(Guest(s.owners[j]), Domain(s.domains[j]));
            hints[slot] = j as u8;
        }
    }
    hints
}

// What domain_good gives: first the place that the hint names is looked at, then all.
pub(crate) fn domain_held(s: &State, hints: &[u8; SLOTS], g: Guest, d: Domain) -> bool
    requires { s.now.listed ≤ max_endpoints }
    ensures { result ≡ spec.domain_held s.now.listed s.now.owners s.now.attached s.now.domains g d }
{
    let slot = slot_of(g, d);
    let j = (hints[slot] % PLACES) as usize;
    if j < s.listed {
        if (s.owners[j] == g.0) & ((s.attached[j] == 1) & (s.domains[j] == d.0)) {
            return true;
        }
    }
    domain_good(s, g, d)
}
