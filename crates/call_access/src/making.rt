// An access whose state and table are not tested.
ghost use Rattle.std.specs.Prelude.{◌≡◌};
ghost use Rattle.refinement.specs.Flat.{device, after_access};
ghost use Rattle.refinement.specs.Translating.{translate};

use crate::blocked::report_fault;
use crate::translating::translate;
use rules::{Access, Answer, State};

// An access: its answer, and the logs with its fault where it is blocked.
#[tactic(auto, unfolding(refinement::specs::Flat::after_access))]
pub fn make_access(s: &mut State, t: &[u64], a: Access) -> Answer
    ensures value { result ≡ translate (device s.old t.now) a }
    ensures s_after { s.new ≡ after_access s.old a result }
{
    let answer = translate(s, t, a);
    if let Answer::Blocked(cause) = answer {
        report_fault(s, a, cause);
    }
    answer
}
