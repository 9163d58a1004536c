// Accesses.
#![tactic(auto)]

mod blocked;
mod making;
mod translating;

ghost use Rattle.std.specs.Prelude.{◌≡◌, []};
ghost use Rattle.rules.specs.Device.{step, access_by};
ghost use Rattle.refinement.specs.Flat.{device};

pub use making::make_access;
use rules::{Access, Answer, Refusal, State};
use sound::is_sound;
pub use translating::translate;

// An access, of a state and a table that are tested first. One that is blocked is logged.
pub fn access(s: &mut State, t: &[u64], a: Access) -> Answer
    ensures { (record { answer = result; buffer = [] }, device s.new t.now) ≡ step (device s.old t.now) (access_by a) }
{
    if !is_sound(s, t) {
        return Answer::Refused(Refusal::Unsound);
    }
    make_access(s, t, a)
}
