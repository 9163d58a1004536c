// The lines of a request with properties, put at a place of a lent buffer where that has room for them. The number of bytes put
// is given back: 0 where there is not the room, and the buffer stays.
#![tactic(auto)]

ghost use Rattle.std.specs.Prelude.{◌≡◌, ◌≤◌, length, take};
ghost use Rattle.rules.specs.Sizes.{properties_size};
ghost use Rattle.journal_line_probe.specs.Lines.{probe_room, probe_lines};
ghost use Rattle.journal_text.specs.Placing.{written, written_count};

use call_answers::number_of;
use journal_line_call::put_request;
use journal_line_plain::LINE_ROOM;
use journal_text::{has_room, put_hex};
use rules::Answer;
use rules::sizes::PROPERTIES_SIZE;

// The bytes of the properties' line: two digits for each of theirs, and a newline.
const PROPERTIES_LINE: usize = 2 * PROPERTIES_SIZE + 1;

// The room that is asked for the lines of a request with properties.
pub const PROBE_ROOM: usize = LINE_ROOM + PROPERTIES_LINE;

// How many bytes of a writable part are properties: all where it has no more.
fn properties_in(writable: &[u8]) -> usize
    ensures { (result ≤ length writable.now) × (take result writable.now ≡ take properties_size writable.now) }
{
    let len = writable.len();
    if PROPERTIES_SIZE < len {
        PROPERTIES_SIZE
    } else {
        len
    }
}

// Puts a request's line, and where it was worked the properties' line after it.
pub fn put_probe(out: &mut [u8], at: usize, a: Answer, writable: &[u8]) -> usize
    ensures { (result ≡ written_count probe_room at (probe_lines a writable.now) out.old) × (out.new ≡ written probe_room at (probe_lines a writable.now) out.old) }
{
    if !has_room(out.len(), at, PROBE_ROOM) {
        return 0;
    }
    let k = put_request(out, at, a, writable);
    if number_of(a) != 0 {
        return k;
    }
    let n = properties_in(writable);
    put_hex(out, at + k, &writable[..n]) - at
}
