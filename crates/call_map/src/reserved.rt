// Whether a record lies on reserved regions of the endpoints in its domain.
ghost use Rattle.std.specs.Prelude.{◌≡◌};
ghost use Rattle.refinement.specs.Flat as flat;

use rules::sizes::MAX_ENDPOINTS;
use rules::{Domain, Guest, Mapping, State};

// Whether the record overlaps a region of an endpoint of the guest that is attached to the domain.
#[tactic(auto, unfolding(state_endpoints::specs::Search::any_below))]
pub(crate) fn on_regions(s: &State, g: Guest, d: Domain, r: Mapping) -> bool
    ensures { result ≡ flat.on_regions s.now g d r }
{
    let guest = g.0;
    let domain = d.0;
    let a = r.start;
    let b = r.end;
    let mut found = false;
    // By place: four arrays of the state are walked side by side.
    for i in 0..MAX_ENDPOINTS {
        let inside = (s.owners[i] == guest) & ((s.attached[i] == 1) & (s.domains[i] == domain));
        found = (inside && state_regions::meets_at(&s.regions, i, a, b)) | found;
    }
    found
}
