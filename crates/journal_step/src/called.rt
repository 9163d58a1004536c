// Records that start the device or call it.
ghost use Rattle.std.specs.Prelude.{ℕ, ◌+◌, ◌≤◌, List, length};
ghost use Rattle.journal_records.specs.declared.Item.TheVariants as item;
ghost use Rattle.journal_records.specs.Items.{Fits};
ghost use Rattle.rules.specs.Sizes.{max_faults, probe_size};
ghost use Rattle.rules.specs.Device.{Reply};
ghost use Rattle.journal_session.specs.Steps.{record_room, allowed, step_of};
ghost use Rattle.journal_session.specs.Matching.{Matches};
ghost use Rattle.journal_step.specs.Puts.{Puts, worked_step};

use journal_line_call::put_access;
use journal_line_fetch::put_fetch;
use journal_line_plain::put_number;
use journal_records::{StartFields, size_of};
use journal_session::naming;
use journal_session::results::{consumed, unread};
use journal_session::session::{Session, StepResult};
use rules::sizes::{FAULT_SIZE, MAX_FAULTS};
use rules::{Access, Answer, Guest};

// Set-up with what was named, unless the journal has started.
pub(crate) fn start(
    p: &mut Session,
    t: &mut [u64],
    s: &[u8],
    f: StartFields,
    out: &mut [u8],
    at: usize,
) -> StepResult
    requires { at + record_room ≤ length out.old }
    ensures { Matches p.new result t.new out.old out.new at (step_of p.old t.old s.now (item.Start f)) }
{
    if p.started {
        return unread(true);
    }
    let answer = naming::start(&mut p.state, t, f);
    p.started = true;
    let k = put_number(out, at, b'S', answer);
    consumed(size_of(s), k)
}

// A request, with a writable part of N bytes; `put` puts its lines.
pub(crate) fn request<const N: usize, F: Fn(&mut [u8], usize, Answer, &[u8]) -> usize>(
    p: &mut Session,
    t: &mut [u64],
    s: &[u8],
    g: Guest,
    out: &mut [u8],
    at: usize,
    put: F,
) -> StepResult
    requires fits { Fits s.now }
    requires small { N ≤ probe_size }
    requires callable { F.IsAlwaysCallable put }
    ensures { (room : ℕ) (lines : Reply → List ℕ) → at + room ≤ length out.old → Puts room lines (F.post put) → Matches p.new result t.new out.old out.new at (allowed p.old.started p.old t.old (worked_step lines p.old t.old s.now g N)) }
{
    if !p.started {
        return unread(true);
    }
    let n = size_of(s);
    let mut writable: [u8; N] = [0; N];
    let answer = call_request::request(&mut p.state, t, g, &s[2..n], &mut writable);
    let k = put(out, at, answer, &writable);
    consumed(n, k)
}

// An access.
pub(crate) fn access(
    p: &mut Session,
    t: &[u64],
    s: &[u8],
    a: Access,
    out: &mut [u8],
    at: usize,
) -> StepResult
    requires { at + record_room ≤ length out.old }
    ensures { Matches p.new result t.now out.old out.new at (step_of p.old t.now s.now (item.AccessBy a)) }
{
    if !p.started {
        return unread(true);
    }
    let answer = call_access::access(&mut p.state, t, a);
    let k = put_access(out, at, answer);
    consumed(size_of(s), k)
}

// A reset.
pub(crate) fn reset(
    p: &mut Session,
    t: &mut [u64],
    s: &[u8],
    g: Guest,
    out: &mut [u8],
    at: usize,
) -> StepResult
    requires { at + record_room ≤ length out.old }
    ensures { Matches p.new result t.new out.old out.new at (step_of p.old t.old s.now (item.Reset g)) }
{
    if !p.started {
        return unread(true);
    }
    let answer = call_reset::reset(&mut p.state, t, g);
    let k = put_number(out, at, b'Z', answer);
    consumed(size_of(s), k)
}

// The bytes of as many fault records as a fetch may ask for.
const FETCH_BUFFER: usize = FAULT_SIZE * MAX_FAULTS;

// A fetch of at most n records, into a buffer that holds them.
pub(crate) fn fetch(
    p: &mut Session,
    t: &[u64],
    s: &[u8],
    g: Guest,
    n: usize,
    out: &mut [u8],
    at: usize,
) -> StepResult
    requires { (n ≤ max_faults) × (at + record_room ≤ length out.old) }
    ensures { Matches p.new result t.now out.old out.new at (step_of p.old t.now s.now (item.Fetch g n)) }
{
    if !p.started {
        return unread(true);
    }
    let mut bytes: [u8; FETCH_BUFFER] = [0; FETCH_BUFFER];
    let m = FAULT_SIZE * n;
    let buffer = &mut bytes[..m];
    let answer = call_fetch::fetch(&mut p.state, t, g, buffer);
    let k = put_fetch(out, at, answer, buffer);
    consumed(size_of(s), k)
}
