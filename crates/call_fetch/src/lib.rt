// Fetches.
#![tactic(auto)]

mod putting;

ghost use Rattle.std.specs.Prelude.{◌≡◌};
ghost use Rattle.rules.specs.Device as rules;
ghost use Rattle.refinement.specs.Flat.{device};
ghost use Rattle.refinement.specs.Fetching.{fetch_faults};

use rules::sizes::{FAULT_SIZE, MAX_FAULTS, MAX_GUESTS};
use rules::{Answer, Guest, Refusal, State};

// A guest's oldest faults, as many as are held and fit whole into the buffer, which then go; a guest that is none of so many is refused,
// and so is a log that a sound state has not.
pub fn fetch_faults(s: &mut State, g: Guest, buffer: &mut [u8]) -> Answer
    ensures { (record { answer = result; buffer = buffer.new }, s.new) ≡ fetch_faults s.old.settings.guests s.old g buffer.old }
{
    let guest = g.0 as usize;
    if s.settings.guests <= guest {
        return Answer::Refused(Refusal::NoSuchGuest);
    }
    if MAX_GUESTS <= guest {
        return Answer::Refused(Refusal::Unsound);
    }
    let held = s.logged[guest];
    if MAX_FAULTS < held {
        return Answer::Refused(Refusal::Unsound);
    }
    let n = held.min(buffer.len() / FAULT_SIZE);
    putting::put_faults(s, g, n, buffer);
    state_log::drop_faults(s, g, n);
    Answer::Fetched(n)
}

// A guest's fetch, of a state and a table that are tested first.
pub fn fetch(s: &mut State, t: &[u64], g: Guest, buffer: &mut [u8]) -> Answer
    ensures { (record { answer = result; buffer = buffer.new }, device s.new t.now) ≡ rules.step (device s.old t.now) (rules.of_guest g (rules.fetch buffer.old)) }
{
    if let Err(e) = sound::check_job(s, t, g) {
        return Answer::Refused(e);
    }
    fetch_faults(s, g, buffer)
}
