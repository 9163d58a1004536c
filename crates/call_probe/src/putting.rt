// An endpoint's properties put into a lent buffer.
ghost use Rattle.std.specs.Prelude.{◌≡◌, cond, ◌++◌, ◌*◌, eqb, length, drop, replicate};
ghost use Rattle.laws.specs.Lists.{pad};
ghost use Rattle.rules.specs.Sizes.{property_size, properties_size};
ghost use Rattle.wire_properties.specs.Properties.{properties_put};
ghost use Rattle.state_regions.specs.Held.{held_regions, held_count};

use rules::sizes::{PROPERTIES_SIZE, PROPERTY_SIZE};

// The properties of the regions of the endpoint at place i, one after another; later bytes stay.
fn put_properties(regions: &[u64], i: usize, out: &mut [u8])
    requires { length out.old ≡ properties_size }
    ensures { out.new ≡ properties_put (held_regions regions.now i) ++ drop (property_size * held_count regions.now i) out.old }
{
    let n = state_regions::count_at(regions, i);
    // By place: the property of the region with a number goes to the place of that number.
    for j in 0..n {
        let q = state_regions::region_at(regions, i, j);
        let a = PROPERTY_SIZE * j;
        let e = a + PROPERTY_SIZE;
        wire_properties::put_property(&mut out[a..e], q);
    }
}

// An out of 128 bytes becomes zeros, with the properties of the endpoint at place i before them where it is owned; an out of
// any other length stays.
pub(crate) fn write_properties(regions: &[u64], i: usize, owned: bool, out: &mut [u8])
    ensures { out.new ≡ cond (eqb (length out.old) properties_size) (cond owned (pad properties_size 0 (properties_put (held_regions regions.now i))) (replicate properties_size 0)) out.old }
{
    if out.len() != PROPERTIES_SIZE {
        return;
    }
    out.fill(0);
    if owned {
        put_properties(regions, i, out);
    }
}
