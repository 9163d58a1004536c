// Requests, refusals in order and then the handler of the type.
#![tactic(auto)]

mod answering;

ghost use Rattle.std.specs.Prelude.{◌≡◌};
ghost use Rattle.rules.specs.Device as rules;
ghost use Rattle.refinement.specs.Flat.{device};
ghost use Rattle.refinement.specs.Requesting.{serve};

use answering::answer;
use rules::{Answer, Guest, Refusal, State};
use sound::check_job;
use wire_requests::request::parse;

// A guest's request, state and table not tested.
#[tactic(auto, using(crate::proofs::Served::room_parsed), unfolding(refinement::specs::Requesting::serve, refinement::specs::Requesting::unless_refused))]
pub fn serve(s: &mut State, t: &mut [u64], g: Guest, readable: &[u8], writable: &mut [u8]) -> Answer
    ensures { (record { answer = result; buffer = writable.new }, device s.new t.new) ≡ serve (device s.old t.old) g readable.now writable.old }
{
    if s.settings.guests <= (g.0 as usize) {
        return Answer::Refused(Refusal::NoSuchGuest);
    }
    match parse(readable, writable.len()) {
        Ok(q) => answer(s, t, g, q, writable),
        Err(e) => Answer::Refused(e),
    }
}

// A guest's request, in a readable and a writable part of any lengths; state and table are tested first.
pub fn request(
    s: &mut State,
    t: &mut [u64],
    g: Guest,
    readable: &[u8],
    writable: &mut [u8],
) -> Answer
    ensures { (record { answer = result; buffer = writable.new }, device s.new t.new) ≡ rules.step (device s.old t.old) (rules.of_guest g (rules.request readable.now writable.old)) }
{
    if let Err(e) = check_job(s, t, g) {
        return Answer::Refused(e);
    }
    serve(s, t, g, readable, writable)
}
