// The lines of a fetch's records.
ghost use Rattle.std.specs.Prelude.{◌≡◌, ◌+◌, ◌*◌, ◌≤◌, length};
ghost use Rattle.rules.specs.Sizes.{max_faults, fault_size};
ghost use Rattle.journal_line_fetch.specs.Lines.{record_line, record_lines, fetch_fits};
ghost use Rattle.journal_text.specs.Placing.{placed};

use call_answers::count_of;
use journal_text::put_hex;
use rules::Answer;
use rules::sizes::{FAULT_SIZE, MAX_FAULTS};

// The bytes of a record's line: two digits for each of the record's, and a newline.
pub(crate) const RECORD_LINE: usize = 2 * FAULT_SIZE + 1;

// Whether a fetch gave no more records than a log has room for, and the buffer has them all.
pub(crate) fn fetch_fits(a: Answer, buffer: &[u8]) -> bool
    ensures { result ≡ fetch_fits a buffer.now }
{
    let count = count_of(a);
    if MAX_FAULTS < count {
        return false;
    }
    FAULT_SIZE * count <= buffer.len()
}

// A line for each of the first `count` records of a buffer, put at a place; the place after them is given back.
pub(crate) fn put_records(out: &mut [u8], at: usize, count: usize, buffer: &[u8]) -> usize
    requires { (count ≤ max_faults) × (fault_size * count ≤ length buffer.now) × (at + record_line * count ≤ length out.old) }
    ensures { (result ≡ at + length (record_lines count buffer.now)) × (out.new ≡ placed at (record_lines count buffer.now) out.old) }
{
    let mut next = at;
    // By place: a record of the buffer begins where its place says.
    for i in 0..count {
        let start = FAULT_SIZE * i;
        let end = start + FAULT_SIZE;
        next = put_hex(out, next, &buffer[start..end]);
    }
    next
}
