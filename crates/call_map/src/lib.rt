// MAP, on the state and the table's words.
#![tactic(auto)]

mod reserved;

ghost use Rattle.std.specs.Prelude.{◌≡◌, ◌<◌};
ghost use Rattle.rules.specs.Sizes.{max_guests};
ghost use Rattle.rules.specs.Failures.{outcome_status};
ghost use Rattle.refinement.specs.Flat.{device, with_status, map_status};
ghost use Rattle.refinement.specs.Flat as flat;

use map_steps::{check_form, limits_at};
use rules::requests::Failure;
use rules::sizes::MAX_GUESTS;
use rules::{Domain, Guest, Mapping, State};

// The places for guests, as a guest's number counts them.
const GUEST_PLACES: u8 = MAX_GUESTS as u8;

// Refuses a MAP for a guest, a domain and a record that fails one of its steps, with the status of the first that fails.
#[tactic(auto, unfolding(refinement::specs::Flat::map_status, refinement::specs::Flat::domain_exists, rules::specs::Handlers::form_steps, rules::specs::State::config_of, rules::specs::Guests::own))]
fn check_map(s: &State, t: &[u64], g: Guest, d: Domain, r: Mapping) -> Result<(), Failure>
    requires { g.0 < max_guests }
    ensures { outcome_status result ≡ map_status (device s.now t.now) g d r }
{
    if !state_endpoints::domain_exists(&s.owners, &s.attached, &s.domains, g, d) {
        return Err(Failure::Noent);
    }
    let i = g.0 as usize;
    check_form(&limits_at(&s.settings, i), r)?;
    if table_overlap::overlaps(t, s.live, r) {
        return Err(Failure::Inval);
    }
    if reserved::on_regions(s, g, d, r) {
        return Err(Failure::Inval);
    }
    if s.settings.shares[i] as usize <= table_count::held(t, s.live, g) {
        return Err(Failure::Nomem);
    }
    Ok(())
}

// MAP for a guest: the record goes into the table where every step passes. It is a device error where the guest has no
// place or one record more can't be counted, which a sound state rules out.
#[tactic(auto, unfolding(refinement::specs::Flat::handle_map, refinement::specs::Flat::map_counted, refinement::specs::Flat::inserted))]
pub fn handle_map(
    s: &mut State,
    t: &mut [u64],
    g: Guest,
    d: Domain,
    r: Mapping,
) -> Result<(), Failure>
    ensures { with_status (outcome_status result) (device s.new t.new) ≡ flat.handle_map (device s.old t.old) g d r }
{
    if !((g.0 < GUEST_PLACES) & (s.live < usize::MAX)) {
        return Err(Failure::Deverr);
    }
    check_map(s, t, g, d, r)?;
    table_insert::insert_mapping(t, s.live, r);
    s.live += 1;
    Ok(())
}
