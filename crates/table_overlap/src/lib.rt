// Which mappings of a domain stand in the way: one that a new mapping overlaps, one that an unmapping would split.
#![tactic(auto)]

ghost use Rattle.std.specs.Prelude.{◌≡◌, take};
ghost use Rattle.laws.specs.Lists.{any?};
ghost use Rattle.rules.specs.Table.{records, overlap};
ghost use Rattle.rules.specs.Handlers.{straddles};
ghost use Rattle.table_overlap.specs.Met.{met};

use rules::Mapping;
use table_record::{bounded, get};

// Whether r is of the key's domain and has an address in common with those from a to b; where it lies inside them, only if
// those inside count.
fn is_met(r: Mapping, key: u64, a: u64, b: u64, inner: bool) -> bool
    ensures { result ≡ met key a b inner r }
{
    ((r.key == key) & ((r.start <= b) & (a <= r.end)))
        & (inner | !((r.key == key) & ((a <= r.start) & (r.end <= b))))
}

// Whether one of the first live records is of the key's domain and has an address in common with those from a to b; one that lies
// inside them only if those inside count.
fn any_met(t: &[u64], live: usize, key: u64, a: u64, b: u64, inner: bool) -> bool
    ensures { result ≡ any? (met key a b inner) (take live (records t.now)) }
{
    let n = bounded(t, live);
    let mut found = false;
    // By place: a record is five words of the table, which its place finds.
    for i in 0..n {
        found = found | is_met(get(t, i), key, a, b, inner);
    }
    found
}

// Whether one of the first live records overlaps r.
pub fn overlaps(t: &[u64], live: usize, r: Mapping) -> bool
    ensures { result ≡ any? (overlap r) (take live (records t.now)) }
{
    any_met(t, live, r.key, r.start, r.end, true)
}

// Whether one of the first live records is of the key's domain and partly inside and partly outside the addresses from a to b.
pub fn straddled(t: &[u64], live: usize, key: u64, a: u64, b: u64) -> bool
    ensures { result ≡ any? (straddles key a b) (take live (records t.now)) }
{
    any_met(t, live, key, a, b, false)
}
