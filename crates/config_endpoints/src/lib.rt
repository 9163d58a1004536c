// Whether the lists of a configuration's endpoints and of their owners are good.
#![tactic(auto)]

ghost use Rattle.std.specs.Prelude.{◌≡◌, true, not, ◌≤◌, ◌<◌, ◌+◌, ltb, eqb, length, get_or, take, drop};
ghost use Rattle.laws.specs.Lists.{all?, pairwise};
ghost use Rattle.rules.specs.Configuration.{good_lists};

use rules::Settings;
use rules::sizes::MAX_ENDPOINTS;

// The slots for endpoints, one for each remainder of an endpoint's number.
const SLOTS: usize = 64;

// Whether the first n owners are below the guest count.
fn owners_below(guests: usize, n: usize, owners: &[u8]) -> bool
    requires { n ≤ length owners.now }
    ensures { result ≡ all? (λ o. ltb o guests) (take n owners.now) }
{
    owners[..n]
        .iter()
        .fold(true, |ok, &owner| ok & (usize::from(owner) < guests))
}

// Whether the endpoint at place i is none of those from place i + 1 to n.
fn not_later(i: usize, n: usize, endpoints: &[u32]) -> bool
    requires { (i < n) × (n ≤ length endpoints.now) }
    ensures { result ≡ all? (λ b. not (eqb (get_or endpoints.now i 0) b)) (drop (i + 1) (take n endpoints.now)) }
{
    let e = endpoints[i];
    endpoints[i + 1..n]
        .iter()
        .fold(true, |ok, &later| ok & (e != later))
}

// Whether no two of the first n endpoints are the same.
fn all_differ(n: usize, endpoints: &[u32]) -> bool
    requires { n ≤ length endpoints.now }
    ensures { result ≡ pairwise (λ a b. not (eqb a b)) (take n endpoints.now) }
{
    // By place: each endpoint is compared with those at the places after its own.
    let mut ok = true;
    for i in 0..n {
        ok = ok & not_later(i, n, endpoints);
    }
    ok
}

// True only where no two of the first n endpoints are the same: their remainders differ already.
fn scattered(n: usize, endpoints: &[u32]) -> bool
    requires { n ≤ length endpoints.now }
    ensures { result ≡ true → pairwise (λ a b. not (eqb a b)) (take n endpoints.now) ≡ true }
{
    let mut seen: [bool; SLOTS] = [false; SLOTS];
    let mut repeated = false;
    for &endpoint in &endpoints[..n] {
        let slot = (endpoint % 64) as usize;
        repeated = repeated | seen[slot];
        seen[slot] = true;
    }
    !repeated
}

// Whether no two of the first n endpoints are the same: those that are not scattered are compared two by two.
fn distinct(n: usize, endpoints: &[u32]) -> bool
    requires { n ≤ length endpoints.now }
    ensures { result ≡ pairwise (λ a b. not (eqb a b)) (take n endpoints.now) }
{
    if scattered(n, endpoints) {
        return true;
    }
    all_differ(n, endpoints)
}

// Whether the first n endpoints and owners are good lists beside these settings.
pub fn good_lists(s: Settings, n: usize, endpoints: &[u32], owners: &[u8]) -> bool
    ensures { result ≡ good_lists s (take n endpoints.now) (take n owners.now) }
{
    let a = n.min(endpoints.len());
    let b = n.min(owners.len());
    if a != b {
        return false;
    }
    if a > MAX_ENDPOINTS {
        return false;
    }
    owners_below(s.guests, a, owners) & distinct(a, endpoints)
}
