// Reset of a guest.
#![tactic(auto)]

ghost use Rattle.std.specs.Prelude.{◌≡◌, []};
ghost use Rattle.rules.specs.Device as rules;
ghost use Rattle.refinement.specs.Flat.{device};
ghost use Rattle.refinement.specs.Resetting.{reset_whole};

use rules::sizes::{DOMAIN_SPAN, MAX_GUESTS, TOP_ADDRESS};
use rules::{Answer, Guest, Refusal, State};

// The highest domain number.
const LAST_DOMAIN: u64 = DOMAIN_SPAN - 1;

// A guest's endpoints detached, its records gone, its log empty, its lost count 0; a guest that is none of so many is refused.
pub fn reset_guest(s: &mut State, t: &mut [u64], g: Guest) -> Answer
    ensures { (record { answer = result; buffer = [] }, device s.new t.new) ≡ reset_whole s.old.settings.guests (device s.old t.old) g }
{
    let guests = s.settings.guests.min(MAX_GUESTS);
    if guests <= (g.0 as usize) {
        return Answer::Refused(Refusal::NoSuchGuest);
    }
    state_reset::clear_log(s, g);
    state_reset::detach_all(s, g);
    let low = u64::from(g.0) * DOMAIN_SPAN;
    s.live = table_remove::remove(t, s.live, low, low + LAST_DOMAIN, 0, TOP_ADDRESS);
    Answer::Done
}

// A guest's reset, of a state and a table that are tested first.
pub fn reset(s: &mut State, t: &mut [u64], g: Guest) -> Answer
    ensures { (record { answer = result; buffer = [] }, device s.new t.new) ≡ rules.step (device s.old t.old) (rules.of_guest g rules.reset) }
{
    if let Err(e) = sound::check_job(s, t, g) {
        return Answer::Refused(e);
    }
    reset_guest(s, t, g)
}
