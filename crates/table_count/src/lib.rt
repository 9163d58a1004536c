// How many mappings a guest holds.
#![tactic(auto)]

ghost use Rattle.std.specs.Prelude.{◌≡◌, eqb, length, take};
ghost use Rattle.rules.specs.Table.{records, guest_of};
ghost use Rattle.rules.specs.Guests.{records_of};

use rules::sizes::DOMAIN_SPAN;
use rules::{Guest, Mapping};
use table_record::{bounded, get};

// Whether r is a record of guest g.
fn is_of(r: Mapping, g: Guest) -> bool
    ensures { result ≡ eqb (guest_of r) g.0 }
{
    r.key / DOMAIN_SPAN == g.0 as u64
}

// How many of the first live records are of guest g.
pub fn held(t: &[u64], live: usize, g: Guest) -> usize
    ensures { result ≡ length (records_of g (take live (records t.now))) }
{
    let n = bounded(t, live);
    let mut count: usize = 0;
    // By place: a record is five words of the table, which its place finds.
    for i in 0..n {
        if is_of(get(t, i), g) {
            count += 1;
        }
    }
    count
}
