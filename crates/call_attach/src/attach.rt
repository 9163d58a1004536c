// ATTACH: its steps, and the endpoint that moves.
ghost use Rattle.std.specs.Prelude.{◌≡◌};
ghost use Rattle.rules.specs.Failures.{outcome_status};
ghost use Rattle.refinement.specs.Flat.{device, with_status, attach_status};
ghost use Rattle.refinement.specs.Flat as flat;

use crate::moving::move_to;
use crate::steps::{is_barred, is_outside};
use rules::requests::Failure;
use rules::{Domain, Endpoint, Guest, State};
use state_endpoints::{index_of, owned_at};

// The steps of an ATTACH of the endpoint at place i to domain d.
#[tactic(auto, unfolding(refinement::specs::Flat::attach_status))]
fn check_attach(
    s: &State,
    t: &[u64],
    g: Guest,
    d: Domain,
    i: usize,
    reserved: u64,
) -> Result<(), Failure>
    ensures { outcome_status result ≡ attach_status (device s.now t.now) g d i reserved }
{
    if reserved != 0 {
        return Err(Failure::Inval);
    }
    if !owned_at(s.listed, &s.owners, g, i) {
        return Err(Failure::Noent);
    }
    if is_outside(s.settings.domains, d) {
        return Err(Failure::Range);
    }
    if is_barred(s, t, g, d, i) {
        return Err(Failure::Unsupp);
    }
    Ok(())
}

// ATTACH: the endpoint e to domain d.
#[tactic(auto, unfolding(refinement::specs::Flat::handle_attach))]
pub fn handle_attach(
    s: &mut State,
    t: &mut [u64],
    g: Guest,
    d: Domain,
    e: Endpoint,
    reserved: u64,
) -> Result<(), Failure>
    ensures { with_status (outcome_status result) (device s.new t.new) ≡ flat.handle_attach (device s.old t.old) g d e reserved }
{
    let i = index_of(s.listed, &s.endpoints, e);
    check_attach(s, t, g, d, i, reserved)?;
    move_to(s, t, g, i, d);
    Ok(())
}
