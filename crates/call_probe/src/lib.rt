// PROBE, on the device's state and a lent buffer.
#![tactic(auto)]

mod putting;

ghost use Rattle.rules.specs.Failures.{outcome_status};
ghost use Rattle.call_probe.specs.Probed.{Probed};

use rules::requests::Failure;
use rules::{Endpoint, Guest, State};
use state_endpoints::{index_of, owned_at};

// PROBE of the endpoint e: an out of 128 bytes becomes the endpoint's properties; an out of any other length stays.
#[tactic(auto, unfolding(refinement::specs::Flat::probe_bytes))]
pub fn handle_probe(s: &State, g: Guest, e: Endpoint, out: &mut [u8]) -> Result<(), Failure>
    ensures { Probed s.now g e out.old (outcome_status result) out.new }
{
    let i = index_of(s.listed, &s.endpoints, e);
    let owned = owned_at(s.listed, &s.owners, g, i);
    putting::write_properties(&s.regions, i, owned, out);
    if !owned {
        return Err(Failure::Noent);
    }
    Ok(())
}
