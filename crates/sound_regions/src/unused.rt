// The region places that are not in use.
ghost use Rattle.std.specs.Prelude.{◌≡◌, ◌≤◌, ◌<◌, length};
ghost use Rattle.laws.specs.Lists.{every?};
ghost use Rattle.rules.specs.Sizes.{max_endpoints, region_places};
ghost use Rattle.rules.specs.Configuration.{endpoint_regions, used_words};
ghost use Rattle.rules.specs.Sound.{zero_from, region_zeros};

use rules::State;
use rules::sizes::{ENDPOINT_REGION_WORDS, MAX_REGIONS, REGION_WORDS};
use sound_zeros::zero_from;

// The regions that an endpoint may have, as the words count them.
const MOST: u64 = MAX_REGIONS as u64;

// Whether the words for the endpoint at place i past those of its regions are zero: none are past more regions than it may have.
#[tactic(auto, unfolding(rules::specs::Sound::zero_from))]
fn rest_zero(regions: &[u64], i: usize) -> bool
    requires { (i < max_endpoints) × (length regions.now ≡ region_places) }
    ensures { result ≡ zero_from (used_words regions.now i) (endpoint_regions regions.now i) }
{
    let first = ENDPOINT_REGION_WORDS * i;
    let count = regions[first];
    if MOST < count {
        return true;
    }
    let end = first + ENDPOINT_REGION_WORDS;
    zero_from(&regions[first..end], 1 + REGION_WORDS * (count as usize))
}

// Whether the words that are not in use for a region of the listed endpoints are zero.
pub(crate) fn unused_zero(s: &State) -> bool
    requires { s.now.listed ≤ max_endpoints }
    ensures { result ≡ every? (region_zeros s.now) }
{
    let mut ok = true;
    // By place: an endpoint's words begin where its place says.
    for i in 0..s.listed {
        ok = rest_zero(&s.regions, i) & ok;
    }
    zero_from(&s.regions, ENDPOINT_REGION_WORDS * s.listed) & ok
}
