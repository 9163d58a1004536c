// A guest's faults put into a lent buffer.
ghost use Rattle.std.specs.Prelude.{◌≡◌, ◌*◌, ◌<◌, ◌≤◌, length};
ghost use Rattle.rules.specs.Sizes.{max_guests, max_faults, fault_size};
ghost use Rattle.refinement.specs.Flat.{fetch_bytes};

use rules::sizes::{FAULT_SIZE, MAX_FAULTS};
use rules::{Endpoint, Fault, Guest, State};

// The buffer with the records of a guest's n oldest faults one after another; its later bytes stay.
pub(crate) fn put_faults(s: &State, g: Guest, n: usize, buffer: &mut [u8])
    requires { (g.0 < max_guests) × (n ≤ max_faults) × (fault_size * n ≤ length buffer.old) }
    ensures { buffer.new ≡ fetch_bytes s.now g n buffer.old }
{
    let first = MAX_FAULTS * (g.0 as usize);
    // By place: four arrays of the state are walked side by side.
    for j in 0..n {
        let at = first + j;
        let f = Fault {
            reason: s.reasons[at],
            flags: s.flags[at],
            endpoint: Endpoint(s.sources[at]),
            address: s.addresses[at],
        };
        let a = FAULT_SIZE * j;
        let e = a + FAULT_SIZE;
        wire_faults::put_fault(&mut buffer[a..e], f);
    }
}
