// Endpoints and their attachments: what is changed, and what is looked up.
#![tactic(auto)]

mod search;

ghost use Rattle.std.specs.Prelude.{◌≡◌, ◌&&◌, ltb, eqb, get_or};
ghost use Rattle.state_endpoints.specs.Changes.{attach_at};

use rules::sizes::MAX_ENDPOINTS;
use rules::{Domain, Guest, State};
pub use search::{domain_exists, index_of};

// Whether the endpoint at place i is among the first n and guest g's.
pub fn owned_at(n: usize, owners: &[u8], g: Guest, i: usize) -> bool
    ensures { result ≡ ltb i n && eqb (get_or owners.now i 0) g.0 }
{
    (i < n) & (owners.get(i).copied().unwrap_or(0) == g.0)
}

// The attached flag at place i; 0 where there is no such place.
pub fn flag_at(flags: &[u8], i: usize) -> u8
    ensures { result ≡ get_or flags.now i 0 }
{
    flags.get(i).copied().unwrap_or(0)
}

// The domain at place i; 0 where there is no such place.
pub fn domain_at(domains: &[u32], i: usize) -> Domain
    ensures { result ≡ record { 0 = get_or domains.now i 0 } }
{
    Domain(domains.get(i).copied().unwrap_or(0))
}

// The endpoint at place i gets this attached flag and domain; nothing changes where there is no such place.
#[tactic(auto, unfolding(crate::specs::Changes::attach_at))]
pub fn attach_at(s: &mut State, i: usize, flag: u8, d: Domain)
    ensures { s.new ≡ attach_at s.old i flag d }
{
    if i < MAX_ENDPOINTS {
        s.attached[i] = flag;
        s.domains[i] = d.0;
    }
}
