// The test that unused region places are zero and that no record overlaps a region of an endpoint in its domain.
#![tactic(auto)]

mod clear;
mod unused;

ghost use Rattle.std.specs.Prelude.{◌≡◌};
ghost use Rattle.sound_regions.specs.Clear.{regions_good};

use clear::records_clear;
use rules::State;
use rules::sizes::MAX_ENDPOINTS;
use sound_zeros::zero_from;
use unused::unused_zero;

// Whether unused region places are zero and no record overlaps a region of an endpoint in its domain; false where there are no
// places for as many endpoints. Where every word is zero, no endpoint has a region.
#[tactic(auto, unfolding(crate::specs::Clear::regions_good))]
pub fn regions_good(s: &State, t: &[u64]) -> bool
    ensures { result ≡ regions_good s.now t.now }
{
    if MAX_ENDPOINTS < s.listed {
        return false;
    }
    if zero_from(&s.regions, 0) {
        return true;
    }
    unused_zero(s) & records_clear(s, t)
}
