// What a record leaves beside the session.
ghost use Rattle.std.specs.Prelude.{◌≡◌, false};
ghost use Rattle.journal_session.specs.Matching.{step_result};

use crate::session::StepResult;

// No record is worked.
pub fn unread(bad: bool) -> StepResult
    ensures { result ≡ step_result 0 0 bad }
{
    StepResult {
        read: 0,
        printed: 0,
        bad,
    }
}

// A record of n bytes is worked, and k bytes are printed.
pub fn consumed(n: usize, k: usize) -> StepResult
    ensures { result ≡ step_result n k false }
{
    StepResult {
        read: n,
        printed: k,
        bad: false,
    }
}
