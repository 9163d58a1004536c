// A request that is not refused: the handler of its type, and what is written.
ghost use Rattle.std.specs.Prelude.{◌≡◌, ◌+◌, length};
ghost use Rattle.rules.specs.Sizes.{status_size};
ghost use Rattle.rules.specs.Failures.{outcome_status};
ghost use Rattle.refinement.specs.Flat.{device, with_status};
ghost use Rattle.refinement.specs.Requesting.{handle, bytes_before, served};
ghost use Rattle.call_request.specs.Handled.{Handled};

use call_attach::{handle_attach, handle_detach};
use call_map::handle_map;
use call_probe::handle_probe;
use call_unmap::handle_unmap;
use rules::requests::{Failure, OK};
use rules::sizes::STATUS_SIZE;
use rules::{Answer, Guest, Mapping, State};
use table_record::key_of;
use wire_requests::request::Request;
use wire_requests::status::put_status;

// What the handler of a request's type gives, with out for the bytes that come before the status.
#[tactic(auto, using(crate::proofs::Served::handling), unfolding(refinement::specs::Requesting::handle, refinement::specs::Requesting::bytes_before))]
fn handle(s: &mut State, t: &mut [u64], g: Guest, q: Request, out: &mut [u8]) -> Result<(), Failure>
    ensures { Handled (device s.old t.old) g q out.old (with_status (outcome_status result) (device s.new t.new)) out.new }
{
    match q {
        Request::Attach(d, e, reserved) => handle_attach(s, t, g, d, e, reserved),
        Request::Detach(d, e, reserved) => handle_detach(s, t, g, d, e, reserved),
        Request::Map(d, f) => {
            let r = Mapping {
                key: key_of(g, d),
                start: f.start,
                end: f.end,
                phys: f.phys,
                flags: f.flags,
            };
            handle_map(s, t, g, d, r)
        }
        Request::Unmap(d, f) => handle_unmap(s, t, g, d, f.start, f.end, f.reserved),
        Request::Probe(e) => handle_probe(s, g, e, out),
    }
}

// The status that a handler's outcome is answered with.
fn status_of(outcome: Result<(), Failure>) -> u8
    ensures { result ≡ outcome_status outcome }
{
    match outcome {
        Ok(()) => OK,
        Err(f) => f as u8,
    }
}

// A request handled and answered: the bytes of the writable part before its last four are lent to the handler, the last four
// for the status.
pub(crate) fn answer(
    s: &mut State,
    t: &mut [u64],
    g: Guest,
    q: Request,
    writable: &mut [u8],
) -> Answer
    requires { length writable.old ≡ length (bytes_before (device s.old t.old) g q) + status_size }
    ensures { (record { answer = result; buffer = writable.new }, device s.new t.new) ≡ served (bytes_before (device s.old t.old) g q) (handle (device s.old t.old) g q) }
{
    let n = writable.len();
    let (body, tail) = writable.split_at_mut(n - STATUS_SIZE);
    let outcome = handle(s, t, g, q, body);
    put_status(tail, status_of(outcome));
    Answer::Served(n)
}
