// The bytes of a fault record.
#![tactic(auto)]

ghost use Rattle.std.specs.Prelude.{◌≡◌, cond, ◌++◌, leb, length, drop};
ghost use Rattle.rules.specs.Sizes.{fault_size};
ghost use Rattle.rules.specs.Access.{fault_bytes};

use rules::Fault;
use rules::sizes::FAULT_SIZE;
use wire_numbers::copying::copy_in;
use wire_numbers::placing::put_field;

// Each byte of a fault record that no field takes.
const RESERVED: u8 = 0;

// The 24 bytes of a fault record.
fn fault_bytes(f: Fault) -> [u8; FAULT_SIZE]
    ensures { result ≡ fault_bytes f }
{
    let flags = u64::from(f.flags);
    let endpoint = u64::from(f.endpoint.0);
    let address = f.address;
    let mut bytes = [RESERVED; FAULT_SIZE];
    bytes[0] = f.reason;
    put_field(&mut bytes, 4, 4, flags);
    put_field(&mut bytes, 8, 4, endpoint);
    put_field(&mut bytes, 16, 8, address);
    bytes
}

// The first 24 bytes of out become the record of f; an out of fewer bytes stays.
pub fn put_fault(out: &mut [u8], f: Fault)
    ensures { out.new ≡ cond (leb fault_size (length out.old)) (fault_bytes f ++ drop fault_size out.old) out.old }
{
    if FAULT_SIZE <= out.len() {
        copy_in(out, &fault_bytes(f));
    }
}
