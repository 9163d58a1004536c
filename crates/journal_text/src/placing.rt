// Bytes put into a buffer.
ghost use Rattle.std.specs.Prelude.{◌≡◌, ◌+◌, leb, length};
ghost use Rattle.journal_text.specs.Placing.{written, written_count};

// Whether a buffer of so many bytes has room for so many from a place on.
pub fn has_room(len: usize, at: usize, room: usize) -> bool
    ensures { result ≡ leb (at + room) len }
{
    if len < room {
        return false;
    }
    at <= len - room
}

// The bytes put at a place of the buffer where it has room for them; the place after what is put is given back.
#[tactic(auto, unfolding(crate::specs::Placing::written, crate::specs::Placing::written_count, crate::specs::Placing::placed))]
pub fn put_bytes(out: &mut [u8], at: usize, bytes: &[u8]) -> usize
    ensures { (result ≡ at + written_count (length bytes.now) at bytes.now out.old) × (out.new ≡ written (length bytes.now) at bytes.now out.old) }
{
    if !has_room(out.len(), at, bytes.len()) {
        return at;
    }
    out[at..at + bytes.len()].copy_from_slice(bytes);
    at + bytes.len()
}
