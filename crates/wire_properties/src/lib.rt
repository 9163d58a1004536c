// The properties that PROBE writes.
#![tactic(auto)]

ghost use Rattle.std.specs.Prelude.{◌≡◌, cond, eqb, length};
ghost use Rattle.rules.specs.Sizes.{property_size};
ghost use Rattle.wire_properties.specs.Properties.{property_put};

use rules::Region;
use rules::sizes::PROPERTY_SIZE;
use wire_numbers::copying::copy_in;
use wire_numbers::placing::put_field;

// A property's type: a reserved region.
const RESERVED_REGION: u8 = 1;

// A property's length, which is counted after its type and its length.
const LENGTH: u8 = 20;

// The 24 bytes of a region's property. Type and length have two bytes each, and their second is zero.
fn property_bytes(q: Region) -> [u8; PROPERTY_SIZE]
    ensures { result ≡ property_put q }
{
    let mut bytes = [0; PROPERTY_SIZE];
    bytes[0] = RESERVED_REGION;
    bytes[2] = LENGTH;
    bytes[4] = (q.subtype % 256) as u8;
    put_field(&mut bytes, 8, 8, q.start);
    put_field(&mut bytes, 16, 8, q.end);
    bytes
}

// An out of 24 bytes becomes the region's property; any other stays.
pub fn put_property(out: &mut [u8], q: Region)
    ensures { out.new ≡ cond (eqb (length out.old) property_size) (property_put q) out.old }
{
    if out.len() == PROPERTY_SIZE {
        copy_in(out, &property_bytes(q));
    }
}
