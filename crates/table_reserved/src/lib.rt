// Records of a domain on the reserved regions of an endpoint.
#![tactic(auto)]

ghost use Rattle.std.specs.Prelude.{◌≡◌, take};
ghost use Rattle.rules.specs.Table.{records};
ghost use Rattle.state_regions.specs.Held.{held_regions};
ghost use Rattle.table_reserved.specs.Reserved.{region_met, regions_met};

use rules::Region;
use state_regions::{count_at, region_at};
use table_record::{bounded, get};
use table_search::last_up_to;

// Whether one of the first live records, which are in order, is of the key's domain and has an address in common with the region: of
// those that start at or before its last address the last one ends last.
fn region_met(t: &[u64], live: usize, key: u64, q: Region) -> bool
    ensures { result ≡ region_met key (take live (records t.now)) q }
{
    if bounded(t, live) == 0 {
        return false;
    }
    let r = get(t, last_up_to(t, live, key, q.end));
    (key == r.key) & ((q.start <= r.end) & (r.start <= q.end))
}

// Whether one of the first live records, which are in order, is of the key's domain and has an address in common with a region of the
// endpoint at place i: one search for each region, and none where there is no record.
pub fn regions_met(t: &[u64], live: usize, key: u64, regions: &[u64], i: usize) -> bool
    ensures { result ≡ regions_met key (take live (records t.now)) (held_regions regions.now i) }
{
    if bounded(t, live) == 0 {
        return false;
    }
    let n = count_at(regions, i);
    let mut met = false;
    // By place: a region is three of the endpoint's words, which its place finds.
    for j in 0..n {
        met = met | region_met(t, live, key, region_at(regions, i, j));
    }
    met
}
