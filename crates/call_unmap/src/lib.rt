// UNMAP, on the state and the table's words.
#![tactic(auto)]

ghost use Rattle.std.specs.Prelude.{◌≡◌};
ghost use Rattle.rules.specs.Failures.{outcome_status};
ghost use Rattle.refinement.specs.Flat.{device, with_status, unmap_status};
ghost use Rattle.refinement.specs.Flat as flat;

use rules::requests::Failure;
use rules::{Domain, Guest, State};
use table_record::key_of;

// Refuses an UNMAP for a guest, a domain and the addresses from a to b that fails one of its steps, with the status of the
// first that fails.
#[tactic(auto, unfolding(refinement::specs::Flat::unmap_status, refinement::specs::Flat::domain_exists))]
fn check_unmap(
    s: &State,
    t: &[u64],
    g: Guest,
    d: Domain,
    a: u64,
    b: u64,
    reserved: u64,
) -> Result<(), Failure>
    ensures { outcome_status result ≡ unmap_status (device s.now t.now) g d a b reserved }
{
    if !state_endpoints::domain_exists(&s.owners, &s.attached, &s.domains, g, d) {
        return Err(Failure::Noent);
    }
    if reserved != 0 {
        return Err(Failure::Inval);
    }
    if b < a {
        return Err(Failure::Range);
    }
    if table_overlap::straddled(t, s.live, key_of(g, d), a, b) {
        return Err(Failure::Range);
    }
    Ok(())
}

// UNMAP for a guest: the domain's records inside the addresses from a to b go where every step passes.
#[tactic(auto, unfolding(refinement::specs::Flat::handle_unmap, refinement::specs::Flat::removed))]
pub fn handle_unmap(
    s: &mut State,
    t: &mut [u64],
    g: Guest,
    d: Domain,
    a: u64,
    b: u64,
    reserved: u64,
) -> Result<(), Failure>
    ensures { with_status (outcome_status result) (device s.new t.new) ≡ flat.handle_unmap (device s.old t.old) g d a b reserved }
{
    check_unmap(s, t, g, d, a, b, reserved)?;
    let key = key_of(g, d);
    s.live = table_remove::remove(t, s.live, key, key, a, b);
    Ok(())
}
