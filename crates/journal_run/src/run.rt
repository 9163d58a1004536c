// The rest of a part of a journal that has started, where state and table are sound: each record keeps them so, and none is worked
// with a test of its own.
ghost use Rattle.std.specs.Prelude.{length};
ghost use Rattle.refinement.specs.Flat.{device};
ghost use Rattle.journal_session.specs.Steps.{running};
ghost use Rattle.journal_session.specs.Matching.{Matches};
ghost use Rattle.journal_run.specs.Journal.{played};
ghost use Rattle.journal_run.specs.Running.{Ready};

use crate::record::work_record;
use journal_session::session::{RECORD_ROOM, StepResult};
use rules::State;

// The records of b from this state on; their lines stand at the front of out.
pub(crate) fn run(s: &mut State, t: &mut [u64], b: &[u8], out: &mut [u8]) -> StepResult
    requires { Ready (device s.old t.old) }
    ensures { Matches (running s.new) result t.new out.old out.new 0 (played (length out.old) (running s.old) t.old b.now) }
{
    let mut read: usize = 0;
    let mut printed: usize = 0;
    // As long as there is room: how far a record goes shows when it is worked.
    while out.len() - printed >= RECORD_ROOM {
        let x = work_record(s, t, &b[read..], out, printed);
        read += x.read;
        printed += x.printed;
        if x.read == 0 {
            return StepResult {
                read,
                printed,
                bad: x.bad,
            };
        }
    }
    StepResult {
        read,
        printed,
        bad: false,
    }
}
