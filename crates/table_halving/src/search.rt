// The search in the table's order, by halving.
ghost use Rattle.std.specs.Prelude.{◌≡◌, ◌^◌, ◌≤◌, eqb, length, take};
ghost use Rattle.rules.specs.Table.{records};
ghost use Rattle.table_lookup.specs.Outcomes.{found_of};
ghost use Rattle.table_halving.specs.Halving.{last_record, search_reads};

use crate::halving::last_place;
use rules::Mapping;
use rules::sizes::RECORD_WORDS;
use table_record::get_at;

// What a search gives, and how many records it has read.
#[derive(Clone, Copy)]
pub struct Searched {
    pub found: Option<Mapping>,
    pub reads: usize,
}

// Whether there is no record to search.
fn is_empty(t: &[u64], live: usize) -> bool
    ensures { result ≡ eqb (length (take live (records t.now))) 0 }
{
    (live == 0) | (t.len() < RECORD_WORDS)
}

// The last of the first live records that does not stand after an address of the key's domain, where the records are in order; the
// first where all do. Of up to 2^11 records it reads at most 12.
pub fn last_record(t: &[u64], live: usize, key: u64, address: u64) -> Searched
    ensures found_value { result.found ≡ found_of (last_record key address (take live (records t.now))) }
    ensures reads_value { result.reads ≡ search_reads (length (take live (records t.now))) }
    ensures reads_bound { live ≤ 2 ^ 11 → result.reads ≤ 12 }
{
    if is_empty(t, live) {
        return Searched {
            found: None,
            reads: 0,
        };
    }
    let place = last_place(t, live, key, address);
    let r = get_at(t, place.word);
    let reads = place.reads + 1;
    Searched {
        found: Some(r),
        reads,
    }
}
