// Records off the reserved regions, endpoint by endpoint.
ghost use Rattle.std.specs.Prelude.{◌≡◌, ◌≤◌, ◌<◌, take};
ghost use Rattle.laws.specs.Lists.{below};
ghost use Rattle.rules.specs.Sizes.{max_endpoints};
ghost use Rattle.rules.specs.Table.{records};
ghost use Rattle.sound_regions.specs.Clear.{endpoint_clear};

use rules::{Domain, Guest, State};
use state_regions::count_at;
use table_record::key_of;
use table_reserved::regions_met;

// Whether the endpoint at place i is not attached, or no record of its domain overlaps one of its regions. One without regions
// is not searched for.
#[tactic(auto, unfolding(table_reserved::specs::Reserved::regions_met, state_regions::specs::Held::held_regions, laws::specs::Lists::tab_from))]
fn endpoint_clear(s: &State, t: &[u64], i: usize) -> bool
    requires { i < max_endpoints }
    ensures { result ≡ endpoint_clear (take s.now.live (records t.now)) s.now i }
{
    let flag = s.attached[i];
    if flag != 1 {
        return true;
    }
    if count_at(&s.regions, i) == 0 {
        return true;
    }
    let key = key_of(Guest(s.owners[i]), Domain(s.domains[i]));
    !regions_met(t, s.live, key, &s.regions, i)
}

// Whether no record overlaps a region of a listed endpoint that is in its domain.
pub(crate) fn records_clear(s: &State, t: &[u64]) -> bool
    requires { s.now.listed ≤ max_endpoints }
    ensures { result ≡ below s.now.listed (endpoint_clear (take s.now.live (records t.now)) s.now) }
{
    let mut ok = true;
    // By place: four arrays of the state are walked side by side.
    for i in 0..s.listed {
        ok = endpoint_clear(s, t, i) & ok;
    }
    ok
}
