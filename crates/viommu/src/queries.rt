// What a caller may also ask, from C too.
ghost use Rattle.std.specs.Prelude.{◌≡◌, length, get_or, take};
ghost use Rattle.rules.specs.Table.{records};
ghost use Rattle.rules.specs.Guests.{records_of};
ghost use Rattle.rules.specs.Requests.{readable_length, writable_length};

use rules::{Guest, State};

// How many records a guest holds.
#[unsafe(no_mangle)]
pub extern "C" fn viommu_held(s: State, t: &[u64], g: Guest) -> usize
    ensures { result ≡ length (records_of g (take s.live (records t.now))) }
{
    table_count::held(t, s.live, g)
}

// A guest's lost count, 0 for a guest number that there is not.
#[unsafe(no_mangle)]
pub extern "C" fn viommu_lost(s: State, g: Guest) -> u32
    ensures { result ≡ get_or s.lost g.0 0 }
{
    let lost = s.lost;
    state_log::lost_of(lost, g)
}

// The number of bytes that a request of this type has in its readable part, to be asked before a buffer is gathered.
#[unsafe(no_mangle)]
pub extern "C" fn viommu_readable_length(requested: u8) -> usize
    ensures { result ≡ readable_length requested }
{
    wire_requests::readable_length(requested)
}

// The number of bytes that a request of this type has in its writable part.
#[unsafe(no_mangle)]
pub extern "C" fn viommu_writable_length(requested: u8) -> usize
    ensures { result ≡ writable_length requested }
{
    wire_requests::writable_length(requested)
}
