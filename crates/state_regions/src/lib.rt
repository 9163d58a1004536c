// The reserved regions of an endpoint, read off the state's words.
#![tactic(auto)]

ghost use Rattle.std.specs.Prelude.{◌≡◌, ◌<◌, get_or};
ghost use Rattle.laws.specs.Lists.{any?};
ghost use Rattle.rules.specs.Sizes.{max_endpoints, max_regions};
ghost use Rattle.rules.specs.Configuration.{region_at, meets};
ghost use Rattle.state_regions.specs.Held.{held_count, held_regions, held_region};

use rules::Region;
use rules::sizes::{ENDPOINT_REGION_WORDS, MAX_ENDPOINTS, MAX_REGIONS, REGION_WORDS};

// The word at place k, zero past the last.
fn word_at(regions: &[u64], k: usize) -> u64
    ensures { result ≡ get_or regions.now k 0 }
{
    regions.get(k).copied().unwrap_or(0)
}

// How many regions the endpoint at place i has, and no more than there are places for.
pub fn count_at(regions: &[u64], i: usize) -> usize
    ensures { result ≡ held_count regions.now i }
{
    if i >= MAX_ENDPOINTS {
        return 0;
    }
    let n = word_at(regions, ENDPOINT_REGION_WORDS * i) as usize;
    n.min(MAX_REGIONS)
}

// The region in the words for region j of the endpoint at place i.
fn load(regions: &[u64], i: usize, j: usize) -> Region
    requires { (i < max_endpoints) × (j < max_regions) }
    ensures { result ≡ region_at regions.now i j }
{
    let first = ENDPOINT_REGION_WORDS * i + 1 + REGION_WORDS * j;
    Region {
        subtype: word_at(regions, first),
        start: word_at(regions, first + 1),
        end: word_at(regions, first + 2),
    }
}

// Region j of the endpoint at place i; zeros where it has fewer.
pub fn region_at(regions: &[u64], i: usize, j: usize) -> Region
    ensures { result ≡ held_region regions.now i j }
{
    if j < count_at(regions, i) {
        return load(regions, i, j);
    }
    Region::default()
}

// Whether a region of the endpoint at place i has an address in common with those from a to b.
pub fn meets_at(regions: &[u64], i: usize, a: u64, b: u64) -> bool
    ensures { result ≡ any? (meets a b) (held_regions regions.now i) }
{
    let n = count_at(regions, i);
    let mut met = false;
    // By place: a region is loaded from three words at a time.
    for j in 0..n {
        let q = region_at(regions, i, j);
        met = met | ((a <= q.end) & (q.start <= b));
    }
    met
}
