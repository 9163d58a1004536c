// The lines of a fetch, put at a place of a lent buffer where that has room for them. The number of bytes put is given back:
// 0 where there is not the room, and the buffer stays.
#![tactic(auto)]

mod records;

ghost use Rattle.std.specs.Prelude.{◌≡◌, cond};
ghost use Rattle.journal_line_fetch.specs.Lines.{fetch_room, fetch_lines, fetch_fits};
ghost use Rattle.journal_text.specs.Placing.{written, written_count};

use call_answers::{count_of, number_of};
use journal_line_plain::{LINE_ROOM, put_number};
use journal_text::{has_room, put_bytes, put_decimal};
use records::{RECORD_LINE, fetch_fits, put_records};
use rules::Answer;
use rules::sizes::MAX_FAULTS;

// The room that is asked for a fetch's lines.
pub const FETCH_ROOM: usize = LINE_ROOM + RECORD_LINE * MAX_FAULTS;

// Puts a fetch's number, its count and its records; nothing where they are more than a log has room for, or the buffer has them not all.
pub fn put_fetch(out: &mut [u8], at: usize, a: Answer, buffer: &[u8]) -> usize
    ensures { (result ≡ cond (fetch_fits a buffer.now) (written_count fetch_room at (fetch_lines a buffer.now) out.old) 0) × (out.new ≡ cond (fetch_fits a buffer.now) (written fetch_room at (fetch_lines a buffer.now) out.old) out.old) }
{
    if !fetch_fits(a, buffer) {
        return 0;
    }
    if !has_room(out.len(), at, FETCH_ROOM) {
        return 0;
    }
    if number_of(a) != 0 {
        return put_number(out, at, b'F', a);
    }
    let head = [b'F', b' ', b'0', b' '];
    let next = put_bytes(out, at, &head);
    let count = count_of(a);
    let after = put_decimal(out, next, count as u64, b'\n');
    put_records(out, after, count, buffer) - at
}
