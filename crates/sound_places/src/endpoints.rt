// The places of endpoints.
ghost use Rattle.std.specs.Prelude.{◌≡◌};
ghost use Rattle.laws.specs.Lists.{below};
ghost use Rattle.rules.specs.Sizes.{max_endpoints};
ghost use Rattle.rules.specs.Sound.{attachment_good};
ghost use Rattle.sound_places.specs.Places.{range_alone, endpoint_good, endpoint_place};

use rules::sizes::MAX_ENDPOINTS;
use rules::{Domain, DomainRange, Endpoint, Guest, State};

// Whether an endpoint is attached to a domain of the range, or not attached and its domain 0.
#[tactic(auto, unfolding(rules::specs::Sound::attachment_good, rules::specs::Handlers::outside))]
fn attachment_good(range: DomainRange, flag: u8, d: Domain) -> bool
    ensures { result ≡ attachment_good (range_alone range) flag d }
{
    ((flag == 1) & !((d.0 < range.start) | (range.end < d.0))) | ((flag == 0) & (d.0 == 0))
}

// Whether an endpoint's numbers are good: in use, with a good attachment, or zero.
#[tactic(auto, unfolding(crate::specs::Places::endpoint_good))]
fn endpoint_good(
    range: DomainRange,
    used: bool,
    e: Endpoint,
    owner: Guest,
    flag: u8,
    d: Domain,
) -> bool
    ensures { result ≡ endpoint_good range used e owner flag d }
{
    (used & attachment_good(range, flag, d))
        | (!used & ((e.0 == 0) & ((owner.0 == 0) & ((flag == 0) & (d.0 == 0)))))
}

// Whether the numbers at every endpoint's place are good.
pub(crate) fn endpoints_good(s: &State) -> bool
    ensures { result ≡ below max_endpoints (endpoint_place s.now) }
{
    let mut ok = true;
    // By place: four arrays of the state are walked side by side.
    for i in 0..MAX_ENDPOINTS {
        ok = endpoint_good(
            s.settings.domains,
            i < s.listed,
            Endpoint(s.endpoints[i]),
            Guest(s.owners[i]),
            s.attached[i],
            Domain(s.domains[i]),
        ) & ok;
    }
    ok
}
