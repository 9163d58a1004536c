// A part of a journal, worked as far as its records are whole and there is room for their lines.
ghost use Rattle.std.specs.Prelude.{length, ◌≡◌, ◌&&◌, IsTrue};
ghost use Rattle.rules.specs.Sound.{sound};
ghost use Rattle.refinement.specs.Flat.{device};
ghost use Rattle.journal_run.specs.Journal.{played};
ghost use Rattle.journal_run.specs.Running.{Ready};
ghost use Rattle.journal_session.specs.Matching.{Matches};

use crate::run::run;
use journal_session::session::{RECORD_ROOM, Session, StepResult};
use journal_step::step_record;
use sound::is_sound;

// Whether the journal has started, and state and table are sound.
fn is_running(p: &Session, t: &[u64]) -> bool
    ensures value { result ≡ (p.now.started && sound (device p.now.state t.now)) }
    ensures ready { IsTrue result → Ready (device p.now.state t.now) }
{
    p.started && is_sound(&p.state, t)
}

// The records of s, the part at hand, from the first on; their lines stand at the front of out. From the first record on that finds
// a sound device running, no test is made.
pub fn play(p: &mut Session, t: &mut [u64], s: &[u8], out: &mut [u8]) -> StepResult
    ensures { Matches p.new result t.new out.old out.new 0 (played (length out.old) p.old t.old s.now) }
{
    let mut read: usize = 0;
    let mut printed: usize = 0;
    // As long as there is room: how far a record goes shows when it is worked.
    while out.len() - printed >= RECORD_ROOM {
        if is_running(p, t) {
            let x = run(&mut p.state, t, &s[read..], &mut out[printed..]);
            return StepResult {
                read: read + x.read,
                printed: printed + x.printed,
                bad: x.bad,
            };
        }
        let x = step_record(p, t, &s[read..], out, printed);
        read += x.read;
        printed += x.printed;
        if x.read == 0 {
            return StepResult {
                read,
                printed,
                bad: x.bad,
            };
        }
    }
    StepResult {
        read,
        printed,
        bad: false,
    }
}
