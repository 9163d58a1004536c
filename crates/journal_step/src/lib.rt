// One record of a journal: what it does, and the lines that it prints.
#![tactic(auto)]

mod called;

ghost use Rattle.std.specs.Prelude.{length};
ghost use Rattle.journal_session.specs.Steps as steps;
ghost use Rattle.journal_session.specs.Matching.{Matches};

use journal_line_call::put_request;
use journal_line_probe::put_probe;
use journal_records::Item;
use journal_session::named;
use journal_session::results::unread;
use journal_session::session::{RECORD_ROOM, Session, StepResult};
use journal_text::has_room;
use rules::sizes::{PROBE_SIZE, STATUS_SIZE};

// The record at the front of s, the rest of a journal; its lines are put at place `at`. None is worked where there may be
// no room for them.
pub fn step_record(
    p: &mut Session,
    t: &mut [u64],
    s: &[u8],
    out: &mut [u8],
    at: usize,
) -> StepResult
    ensures { Matches p.new result t.new out.old out.new at (steps.step_in (length out.old) at p.old t.old s.now) }
{
    if !has_room(out.len(), at, RECORD_ROOM) {
        return unread(false);
    }
    match journal_records::front(s) {
        Item::Cut => unread(false),
        Item::Wrong => unread(true),
        Item::NamedGuest(f) => named::guest(p, s, f),
        Item::NamedEndpoint(e, g) => named::endpoint(p, s, e, g),
        Item::Start(f) => called::start(p, t, s, f, out, at),
        Item::NamedRegion(e, q) => named::region(p, s, e, q),
        Item::Request(g) => called::request::<STATUS_SIZE, _>(p, t, s, g, out, at, put_request),
        Item::Probe(g) => called::request::<PROBE_SIZE, _>(p, t, s, g, out, at, put_probe),
        Item::AccessBy(a) => called::access(p, t, s, a, out, at),
        Item::Reset(g) => called::reset(p, t, s, g, out, at),
        Item::Fetch(g, n) => called::fetch(p, t, s, g, n, out, at),
    }
}
