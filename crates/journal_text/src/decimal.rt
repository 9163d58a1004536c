// Numbers in decimal, each with the byte that ends it: a newline, or a space where more follows in the line.
ghost use Rattle.std.specs.Prelude.{◌≡◌, ◌∷◌, [], ◌++◌, ◌+◌, ◌≤◌, ◌<◌, drop, length};
ghost use Rattle.journal_text.specs.Text.{decimal};
ghost use Rattle.journal_text.specs.Placing.{decimal_room, written, written_count};

use crate::placing::{has_room, put_bytes};
use crate::text::digit;

// The bytes that a number of 64 bits in decimal may take: 20 digits, and the byte that ends it.
const DECIMAL_ROOM: usize = 21;

// The text at the end of the bytes, from place `from` on.
#[derive(Clone, Copy)]
pub struct Decimal {
    pub bytes: [u8; DECIMAL_ROOM],
    pub from: usize,
}

// A number in decimal, and the byte that ends it.
pub(crate) fn decimal_text(x: u64, end: u8) -> Decimal
    ensures { (result.from < 20) × (length result.bytes ≡ decimal_room) × (drop result.from result.bytes ≡ decimal x ++ (end ∷ [])) }
{
    let mut bytes = [end; DECIMAL_ROOM];
    let mut n = x;
    let mut i: usize = 19;
    // From the last place on: how many digits there are shows at the end.
    while 10 <= n {
        bytes[i] = digit((n % 10) as u8);
        n /= 10;
        i -= 1;
    }
    bytes[i] = digit(n as u8);
    Decimal { bytes, from: i }
}

// A number in decimal and the byte that ends it, put at a place of the buffer where it has room for as many bytes as that may
// take; the place after what is put is given back.
pub fn put_decimal(out: &mut [u8], at: usize, x: u64, end: u8) -> usize
    ensures { (result ≡ at + written_count decimal_room at (decimal x ++ (end ∷ [])) out.old) × (out.new ≡ written decimal_room at (decimal x ++ (end ∷ [])) out.old) × (result ≤ at + decimal_room) }
{
    if !has_room(out.len(), at, DECIMAL_ROOM) {
        return at;
    }
    let number = decimal_text(x, end);
    let bytes = number.bytes;
    let from = number.from;
    put_bytes(out, at, &bytes[from..])
}
