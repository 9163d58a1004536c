// Set-up: the state that a configuration starts with.
#![tactic(auto)]

mod placing;

ghost use Rattle.std.specs.Prelude.{◌≡◌};
ghost use Rattle.laws.specs.Lists.{pad};
ghost use Rattle.rules.specs.Sizes.{max_endpoints};
ghost use Rattle.rules.specs.Configuration.{good};
ghost use Rattle.rules.specs.State.{trimmed, zero_state};
ghost use Rattle.rules.specs.Device.{set_up};
ghost use Rattle.refinement.specs.Setting.{configured, started};

use placing::placed_regions;
use refinement::CallResult;
use rules::sizes::{FAULT_PLACES, MAX_ENDPOINTS, MAX_GUESTS, REGION_PLACES, TABLE_WORDS};
use rules::{Answer, DomainRange, InputRange, Refusal, Settings, State};

// The state with every number zero.
pub fn zero_state() -> State
    ensures { result ≡ zero_state }
{
    State {
        settings: Settings {
            guests: 0,
            shares: [0; MAX_GUESTS],
            firsts: [0; MAX_GUESTS],
            lasts: [0; MAX_GUESTS],
            mask: 0,
            input: InputRange { start: 0, end: 0 },
            domains: DomainRange { start: 0, end: 0 },
        },
        listed: 0,
        endpoints: [0; MAX_ENDPOINTS],
        owners: [0; MAX_ENDPOINTS],
        attached: [0; MAX_ENDPOINTS],
        domains: [0; MAX_ENDPOINTS],
        regions: [0; REGION_PLACES],
        live: 0,
        logged: [0; MAX_GUESTS],
        lost: [0; MAX_GUESTS],
        reasons: [0; FAULT_PLACES],
        flags: [0; FAULT_PLACES],
        sources: [0; FAULT_PLACES],
        addresses: [0; FAULT_PLACES],
    }
}

// The settings with the places of guests that are not in use zero.
fn trim(s: Settings) -> Settings
    ensures { result ≡ trimmed s }
{
    let used = s.guests.min(MAX_GUESTS);
    let mut kept = s;
    kept.shares[used..].fill(0);
    kept.firsts[used..].fill(0);
    kept.lasts[used..].fill(0);
    kept
}

// The endpoints at their places, and zero after the last.
fn placed_endpoints(endpoints: &[u32]) -> [u32; MAX_ENDPOINTS]
    ensures { result ≡ pad max_endpoints 0 endpoints.now }
{
    let n = endpoints.len().min(MAX_ENDPOINTS);
    let mut places = [0; MAX_ENDPOINTS];
    places[..n].copy_from_slice(&endpoints[..n]);
    places
}

// The owners at their places, and zero after the last.
fn placed_owners(owners: &[u8]) -> [u8; MAX_ENDPOINTS]
    ensures { result ≡ pad max_endpoints 0 owners.now }
{
    let n = owners.len().min(MAX_ENDPOINTS);
    let mut places = [0; MAX_ENDPOINTS];
    places[..n].copy_from_slice(&owners[..n]);
    places
}

// Whether the configuration is good.
fn is_good(s: Settings, endpoints: &[u32], owners: &[u8], regions: &[u64]) -> bool
    ensures { result ≡ good (configured s endpoints.now owners.now regions.now) }
{
    let n = endpoints.len();
    if n != owners.len() {
        return false;
    }
    let set = config_settings::good_settings(s);
    let lists = config_endpoints::good_lists(s, n, endpoints, owners);
    let reserved = config_regions::good_regions(n, regions);
    set & (lists & reserved)
}

// Set-up: on a table of the right length and a good configuration, the start state, and every word of the table zero.
pub fn set_up(
    settings: Settings,
    endpoints: &[u32],
    owners: &[u8],
    regions: &[u64],
    t: &mut [u64],
) -> CallResult
    ensures { started result t.new ≡ set_up (configured settings endpoints.now owners.now regions.now) t.old }
{
    if t.len() != TABLE_WORDS {
        return CallResult {
            answer: Answer::Refused(Refusal::Unsound),
            state: zero_state(),
        };
    }
    if !is_good(settings, endpoints, owners, regions) {
        return CallResult {
            answer: Answer::Refused(Refusal::BadConfiguration),
            state: zero_state(),
        };
    }
    table_remove::clear(t);
    let numbers = placed_endpoints(endpoints);
    let holders = placed_owners(owners);
    let reserved = placed_regions(endpoints.len(), regions);
    let kept = trim(settings);
    CallResult {
        answer: Answer::Done,
        state: State {
            settings: kept,
            listed: endpoints.len(),
            endpoints: numbers,
            owners: holders,
            regions: reserved,
            ..zero_state()
        },
    }
}
