// The lines of a number, of a bad journal and of the end, each put at a place of a lent buffer where that has room for it. The
// number of bytes put is given back: 0 where there is not the room, and the buffer stays.
#![tactic(auto)]

ghost use Rattle.std.specs.Prelude.{◌≡◌};
ghost use Rattle.journal_line_plain.specs.Plain.{number_line, bad_line, end_line, last_line};
ghost use Rattle.journal_text.specs.Placing.{line_room, written, written_count};

use call_answers::number_of;
use journal_text::{has_room, put_bytes, put_decimal};
use rules::Answer;

// The room that is asked for any line but one of bytes in hex.
pub const LINE_ROOM: usize = 64;

// A letter and an answer's number.
fn number_line(letter: u8, a: Answer) -> [u8; 4]
    ensures { result ≡ number_line letter a }
{
    [letter, b' ', b'0' + number_of(a), b'\n']
}

// Puts a letter and an answer's number.
pub fn put_number(out: &mut [u8], at: usize, letter: u8, a: Answer) -> usize
    ensures { (result ≡ written_count line_room at (number_line letter a) out.old) × (out.new ≡ written line_room at (number_line letter a) out.old) }
{
    if !has_room(out.len(), at, LINE_ROOM) {
        return 0;
    }
    let line = number_line(letter, a);
    put_bytes(out, at, &line) - at
}

// Puts the offset at which a journal is bad.
fn put_bad(out: &mut [u8], at: usize, offset: u64) -> usize
    ensures { (result ≡ written_count line_room at (bad_line offset) out.old) × (out.new ≡ written line_room at (bad_line offset) out.old) }
{
    if !has_room(out.len(), at, LINE_ROOM) {
        return 0;
    }
    let next = put_bytes(out, at, b"bad journal at ");
    put_decimal(out, next, offset, b'\n') - at
}

// Puts the last line of a journal that was read to its end.
fn put_end(out: &mut [u8], at: usize) -> usize
    ensures { (result ≡ written_count line_room at end_line out.old) × (out.new ≡ written line_room at end_line out.old) }
{
    if !has_room(out.len(), at, LINE_ROOM) {
        return 0;
    }
    let line = [b'E', b'\n'];
    put_bytes(out, at, &line) - at
}

// Puts the last line of a journal that ends with `left` bytes that are no whole record, the first of them at this offset.
pub fn put_last(out: &mut [u8], left: usize, offset: u64) -> usize
    ensures { (result ≡ written_count line_room 0 (last_line left offset) out.old) × (out.new ≡ written line_room 0 (last_line left offset) out.old) }
{
    if left == 0 {
        return put_end(out, 0);
    }
    put_bad(out, 0, offset)
}
