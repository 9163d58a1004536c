// What is looked up in the endpoint arrays.
ghost use Rattle.std.specs.Prelude.{◌≡◌, min, length, take};
ghost use Rattle.state_endpoints.specs.Search.{index_of, any_below, belongs};

use rules::{Domain, Endpoint, Guest};

// The first place of an endpoint among the first n; their number where it is not among them.
pub fn index_of(n: usize, endpoints: &[u32], e: Endpoint) -> usize
    ensures { result ≡ index_of e.0 (take n endpoints.now) }
{
    let m = n.min(endpoints.len());
    endpoints[..m].iter().position(|&k| k == e.0).unwrap_or(m)
}

// Whether an endpoint of a guest is attached to a domain.
pub fn domain_exists(owners: &[u8], attached: &[u8], domains: &[u32], g: Guest, d: Domain) -> bool
    ensures { result ≡ any_below (min (length owners.now) (min (length attached.now) (length domains.now))) (belongs owners.now attached.now domains.now g d) }
{
    let guest = g.0;
    let domain = d.0;
    let m = owners.len().min(attached.len().min(domains.len()));
    let mut found = false;
    // By place: three arrays of the state are walked side by side.
    for i in 0..m {
        found = ((owners[i] == guest) & ((attached[i] == 1) & (domains[i] == domain))) | found;
    }
    found
}
