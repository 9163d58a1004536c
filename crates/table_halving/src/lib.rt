// The lookup of a mapping by halving, with a count of the records that it reads. Where the records are in order it finds what
// table_lookup's finds, which goes through them one by one and holds for every table. No other crate calls this one.
#![tactic(auto)]

mod covering;
mod halving;
mod search;

ghost use Rattle.std.specs.Prelude.{◌≡◌, ◌^◌, ◌≤◌, length, take};
ghost use Rattle.rules.specs.Table.{records};
ghost use Rattle.rules.specs.Access as access;
ghost use Rattle.table_lookup.specs.Outcomes.{found_of};
ghost use Rattle.table_halving.specs.Halving.{search_reads};
ghost use Rattle.table_halving.specs.Order.{InOrder};
ghost use Rattle.table_halving.specs.Lookup.{covering, looked_up};

use covering::{if_covering, if_flagged};
use rules::Access;
pub use search::{Searched, last_record};
pub use table_record::get_at;

// The record that covers an address of the key's domain, of the first live records, which are in order.
fn find_covering(t: &[u64], live: usize, key: u64, address: u64) -> Searched
    ensures found_value { result.found ≡ found_of (covering key address (take live (records t.now))) }
    ensures reads_value { result.reads ≡ search_reads (length (take live (records t.now))) }
{
    let last = last_record(t, live, key, address);
    let record = last.found;
    let found = if_covering(record, key, address);
    Searched {
        found,
        reads: last.reads,
    }
}

// The first of the first live records that lets an access through that is made in the key's domain, where the records are in order.
// Of up to 2^11 records it reads at most 12.
pub fn find_mapping_by_halving(t: &[u64], live: usize, key: u64, a: Access) -> Searched
    ensures found_value { result.found ≡ found_of (looked_up key a (take live (records t.now))) }
    ensures found_in_order { InOrder (take live (records t.now)) → result.found ≡ found_of (access.find_mapping key a (take live (records t.now))) }
    ensures reads_value { result.reads ≡ search_reads (length (take live (records t.now))) }
    ensures reads_bound { live ≤ 2 ^ 11 → result.reads ≤ 12 }
{
    let covering = find_covering(t, live, key, a.address);
    let record = covering.found;
    let found = if_flagged(record, a.kind);
    Searched {
        found,
        reads: covering.reads,
    }
}
