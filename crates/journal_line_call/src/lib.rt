// The lines of a request and of an access, each put at a place of a lent buffer where that has room for it. The number of
// bytes put is given back: 0 where there is not the room, and the buffer stays.
#![tactic(auto)]

ghost use Rattle.std.specs.Prelude.{◌≡◌, ◌-◌, ◌≤◌};
ghost use Rattle.rules.specs.Sizes.{status_size};
ghost use Rattle.rules.specs.Requests.{status_in};
ghost use Rattle.journal_line_call.specs.Lines.{request_line, access_line};
ghost use Rattle.journal_text.specs.Placing.{line_room, written, written_count};

use call_answers::{address_of, number_of, used_of};
use journal_line_plain::{LINE_ROOM, put_number};
use journal_text::{address_line, has_room, put_bytes, put_decimal};
use rules::Answer;
use rules::sizes::STATUS_SIZE;

// Puts a request's number, used length and status; a dash for the status where the request was not worked. No more bytes than
// the room of a line are put.
pub fn put_request(out: &mut [u8], at: usize, a: Answer, writable: &[u8]) -> usize
    ensures { (result ≡ written_count line_room at (request_line a writable.now) out.old) × (out.new ≡ written line_room at (request_line a writable.now) out.old) × (result ≤ line_room) }
{
    if !has_room(out.len(), at, LINE_ROOM) {
        return 0;
    }
    let number = number_of(a);
    let head = [b'R', b' ', b'0' + number, b' '];
    let next = put_bytes(out, at, &head);
    let after = put_decimal(out, next, used_of(a) as u64, b' ');
    if number != 0 {
        let none = [b'-', b'\n'];
        return put_bytes(out, after, &none) - at;
    }
    put_decimal(out, after, status_in(writable), b'\n') - at
}

// Puts an access's number, and the address where it goes through.
pub fn put_access(out: &mut [u8], at: usize, a: Answer) -> usize
    ensures { (result ≡ written_count line_room at (access_line a) out.old) × (out.new ≡ written line_room at (access_line a) out.old) }
{
    if number_of(a) != 0 {
        return put_number(out, at, b'A', a);
    }
    if !has_room(out.len(), at, LINE_ROOM) {
        return 0;
    }
    let head = [b'A', b' ', b'0', b' '];
    let next = put_bytes(out, at, &head);
    let line = address_line(address_of(a));
    put_bytes(out, next, &line) - at
}

// Where the status stands in a writable part of so many bytes.
fn status_place(len: usize) -> usize
    ensures { result ≡ len - status_size }
{
    if len < STATUS_SIZE {
        0
    } else {
        len - STATUS_SIZE
    }
}

// The status in a writable part, or 0 in an empty one.
fn status_in(writable: &[u8]) -> u64
    ensures { result ≡ status_in writable.now }
{
    if writable.len() == 0 {
        return 0;
    }
    let at = status_place(writable.len());
    writable[at] as u64
}
