// DETACH: its steps, and the endpoint that leaves.
ghost use Rattle.std.specs.Prelude.{◌≡◌};
ghost use Rattle.rules.specs.Failures.{outcome_status};
ghost use Rattle.refinement.specs.Flat.{device, with_status, detach_status};
ghost use Rattle.refinement.specs.Flat as flat;

use crate::moving::leave;
use crate::steps::is_in;
use rules::requests::Failure;
use rules::{Domain, Endpoint, Guest, State};
use state_endpoints::{index_of, owned_at};

// The steps of a DETACH of the endpoint at place i from domain d.
#[tactic(auto, unfolding(refinement::specs::Flat::detach_status))]
fn check_detach(s: &State, g: Guest, d: Domain, i: usize, reserved: u64) -> Result<(), Failure>
    ensures { outcome_status result ≡ detach_status s.now g d i reserved }
{
    if reserved != 0 {
        return Err(Failure::Inval);
    }
    if !owned_at(s.listed, &s.owners, g, i) {
        return Err(Failure::Noent);
    }
    if !is_in(s, i, d) {
        return Err(Failure::Inval);
    }
    Ok(())
}

// DETACH: the endpoint e from domain d.
#[tactic(auto, unfolding(refinement::specs::Flat::handle_detach))]
pub fn handle_detach(
    s: &mut State,
    t: &mut [u64],
    g: Guest,
    d: Domain,
    e: Endpoint,
    reserved: u64,
) -> Result<(), Failure>
    ensures { with_status (outcome_status result) (device s.new t.new) ≡ flat.handle_detach (device s.old t.old) g d e reserved }
{
    let i = index_of(s.listed, &s.endpoints, e);
    check_detach(s, g, d, i, reserved)?;
    leave(s, t, g, i, d);
    Ok(())
}
