// Addresses and bytes in hex.
ghost use Rattle.std.specs.Prelude.{◌≡◌, ◌∷◌, [], ◌++◌, ◌+◌, length};
ghost use Rattle.journal_text.specs.Text.{newline, address, hex_bytes, hex_line};
ghost use Rattle.journal_text.specs.Placing.{written, written_count};

use crate::placing::has_room;
use crate::text::digit;

// An address in 16 hex digits and a newline.
pub fn address_line(x: u64) -> [u8; 17]
    ensures { result ≡ address x ++ (newline ∷ []) }
{
    let mut line = [b'\n'; 17];
    let mut n = x;
    // By place: the lowest digit stands last.
    for i in (0..16).rev() {
        line[i] = digit((n % 16) as u8);
        n /= 16;
    }
    line
}

// A byte in two hex digits.
fn hex_of(byte: u8) -> [u8; 2]
    ensures { result ≡ hex_bytes (byte ∷ []) }
{
    [digit(byte / 16), digit(byte % 16)]
}

// The bytes in hex and a newline, put at a place of the buffer where it has room for them; the place after what is put is given
// back.
pub fn put_hex(out: &mut [u8], at: usize, bytes: &[u8]) -> usize
    ensures { (result ≡ at + written_count (length (hex_line bytes.now)) at (hex_line bytes.now) out.old) × (out.new ≡ written (length (hex_line bytes.now)) at (hex_line bytes.now) out.old) }
{
    let n = bytes.len();
    // A buffer of fewer than 2 n bytes has no room; in any other case 2 n + 1 can be counted.
    if out.len() / 2 < n {
        return at;
    }
    if !has_room(out.len(), at, 2 * n + 1) {
        return at;
    }
    for (i, &byte) in bytes.iter().enumerate() {
        let digits = hex_of(byte);
        out[at + 2 * i] = digits[0];
        out[at + 2 * i + 1] = digits[1];
    }
    out[at + 2 * n] = b'\n';
    at + 2 * n + 1
}
