// The calls of a journal on a state that runs, with the lines that they print.
ghost use Rattle.std.specs.Prelude.{ℕ, ◌+◌, ◌*◌, ◌≤◌, List, length, replicate};
ghost use Rattle.journal_records.specs.Items.{Fits, request_bytes};
ghost use Rattle.rules.specs.Sizes.{max_faults, fault_size, probe_size};
ghost use Rattle.rules.specs.Device.{Reply};
ghost use Rattle.refinement.specs.Flat.{device};
ghost use Rattle.refinement.specs.Requesting.{serve};
ghost use Rattle.refinement.specs.Translating.{access_whole};
ghost use Rattle.refinement.specs.Resetting.{reset_whole};
ghost use Rattle.refinement.specs.Fetching.{fetched_whole};
ghost use Rattle.journal_session.specs.Steps.{record_room, running, call_step, accessed_step, cleared_step, fetched_step};
ghost use Rattle.journal_session.specs.Matching.{Matches};
ghost use Rattle.journal_step.specs.Puts.{Puts};

use call_access::make_access;
use call_fetch::fetch_faults;
use call_request::serve;
use call_reset::reset_guest;
use journal_line_call::put_access;
use journal_line_fetch::put_fetch;
use journal_line_plain::put_number;
use journal_records::size_of;
use journal_session::results::consumed;
use journal_session::session::StepResult;
use rules::sizes::{FAULT_SIZE, MAX_FAULTS};
use rules::{Access, Answer, Guest, State};

// A request, with a writable part of N bytes; `put` puts its lines.
pub(crate) fn work_request<const N: usize, F: Fn(&mut [u8], usize, Answer, &[u8]) -> usize>(
    s: &mut State,
    t: &mut [u64],
    b: &[u8],
    g: Guest,
    out: &mut [u8],
    at: usize,
    put: F,
) -> StepResult
    requires fits { Fits b.now }
    requires small { N ≤ probe_size }
    requires callable { F.IsAlwaysCallable put }
    ensures { (room : ℕ) (lines : Reply → List ℕ) → at + room ≤ length out.old → Puts room lines (F.post put) → Matches (running s.new) result t.new out.old out.new at (call_step b.now lines (serve (device s.old t.old) g (request_bytes b.now) (replicate N 0))) }
{
    let n = size_of(b);
    let mut writable: [u8; N] = [0; N];
    let answer = serve(s, t, g, &b[2..n], &mut writable);
    let k = put(out, at, answer, &writable);
    consumed(n, k)
}

// An access.
pub(crate) fn work_access(
    s: &mut State,
    t: &[u64],
    b: &[u8],
    a: Access,
    out: &mut [u8],
    at: usize,
) -> StepResult
    requires { at + record_room ≤ length out.old }
    ensures { Matches (running s.new) result t.now out.old out.new at (accessed_step b.now (access_whole (device s.old t.now) a)) }
{
    let answer = make_access(s, t, a);
    let k = put_access(out, at, answer);
    consumed(size_of(b), k)
}

// A reset.
pub(crate) fn work_reset(
    s: &mut State,
    t: &mut [u64],
    b: &[u8],
    g: Guest,
    out: &mut [u8],
    at: usize,
) -> StepResult
    requires { at + record_room ≤ length out.old }
    ensures { Matches (running s.new) result t.new out.old out.new at (cleared_step b.now (reset_whole s.old.settings.guests (device s.old t.old) g)) }
{
    let answer = reset_guest(s, t, g);
    let k = put_number(out, at, b'Z', answer);
    consumed(size_of(b), k)
}

// The bytes of as many fault records as a fetch may ask for.
const FETCH_BUFFER: usize = FAULT_SIZE * MAX_FAULTS;

// A fetch of at most n records, into a buffer that holds them.
pub(crate) fn work_fetch(
    s: &mut State,
    t: &[u64],
    b: &[u8],
    g: Guest,
    n: usize,
    out: &mut [u8],
    at: usize,
) -> StepResult
    requires { (n ≤ max_faults) × (at + record_room ≤ length out.old) }
    ensures { Matches (running s.new) result t.now out.old out.new at (fetched_step b.now (fetched_whole s.old.settings.guests (device s.old t.now) g (replicate (fault_size * n) 0))) }
{
    let mut bytes: [u8; FETCH_BUFFER] = [0; FETCH_BUFFER];
    let m = FAULT_SIZE * n;
    let buffer = &mut bytes[..m];
    let answer = fetch_faults(s, g, buffer);
    let k = put_fetch(out, at, answer, buffer);
    consumed(size_of(b), k)
}
