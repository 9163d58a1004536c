// The lengths of a request's two parts.
ghost use Rattle.std.specs.Prelude.{◌≡◌};
ghost use Rattle.rules.specs.Requests.{readable_length, writable_length};

use rules::requests::{ATTACH, DETACH, MAP, PROBE, UNMAP};
use rules::sizes::{PROBE_SIZE, STATUS_SIZE};

// The number of bytes that a request of this type has in its readable part.
pub fn readable_length(requested: u8) -> usize
    ensures { result ≡ readable_length requested }
{
    match requested {
        ATTACH => 20,
        DETACH => 20,
        MAP => 36,
        UNMAP => 28,
        PROBE => 72,
        0 | 6..=255 => 0,
    }
}

// The number of bytes that a request of this type has in its writable part.
pub fn writable_length(requested: u8) -> usize
    ensures { result ≡ writable_length requested }
{
    match requested {
        ATTACH..=UNMAP => STATUS_SIZE,
        PROBE => PROBE_SIZE,
        0 | 6..=255 => 0,
    }
}
