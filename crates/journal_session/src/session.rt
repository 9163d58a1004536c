// How far a journal has come.
ghost use Rattle.std.specs.Prelude.{◌≡◌};
ghost use Rattle.journal_session.specs.Steps as steps;

use journal_line_fetch::FETCH_ROOM;
use rules::State;

// The bytes that the lines of one record may take: a fetch's are the most.
pub const RECORD_ROOM: usize = FETCH_ROOM;

// Before the start the state holds the configuration named so far, in the places that set-up fills; after it, the device's state.
#[derive(Clone, Copy)]
pub struct Session {
    pub started: bool,
    pub state: State,
}

// What records leave beside the session: the bytes read (0 where no record is worked) and printed, and whether the journal is bad
// there.
#[derive(Clone, Copy)]
pub struct StepResult {
    pub read: usize,
    pub printed: usize,
    pub bad: bool,
}

// Before the first record nothing is named.
pub fn fresh() -> Session
    ensures { result ≡ steps.fresh }
{
    Session {
        started: false,
        state: call_setup::zero_state(),
    }
}
