// A mapping put into the table at its place.
#![tactic(auto)]

ghost use Rattle.std.specs.Prelude.{◌≡◌, ◌++◌, ◌+◌, ◌<◌, ◌≤◌, length, take, drop};
ghost use Rattle.rules.specs.Table.{records, words, before};
ghost use Rattle.table_record.specs.Records.{spare};
ghost use Rattle.table_insert.specs.Inserted.{mapping_index, insert_at, inserted_words};

use rules::Mapping;
use rules::sizes::RECORD_WORDS;
use table_record::write;

// Whether r goes before s.
fn precedes(r: Mapping, s: Mapping) -> bool
    ensures { result ≡ before r s }
{
    (r.key < s.key) | ((r.key == s.key) & (r.start < s.start))
}

// How many of the first live records stand before the first that r goes before.
fn insertion_index(t: &[u64], live: usize, r: Mapping) -> usize
    requires { live ≤ length (records t.now) }
    ensures { (result ≡ mapping_index r (take live (records t.now))) × (result ≤ live) }
{
    // By place: a record is five words of the table, which its place finds.
    for i in 0..live {
        if precedes(r, table_record::get(t, i)) {
            return i;
        }
    }
    live
}

// The records from at to live go one place up, and r goes to place at.
fn shift_in(t: &mut [u64], at: usize, live: usize, r: Mapping)
    requires { (at ≤ live) × (live < length (records t.old)) }
    ensures { t.new ≡ words (insert_at at r (take live (records t.old)) ++ drop (live + 1) (records t.old)) ++ spare t.old }
{
    let mut carried = r;
    // By place: each record is read before the one below it is written in its place.
    for i in at..live {
        let next = table_record::get(t, i);
        write(t, i, carried);
        carried = next;
    }
    write(t, live, carried);
}

// The table with r in its place among the first live records, where it has room for one more.
pub fn insert_mapping(t: &mut [u64], live: usize, r: Mapping)
    ensures { t.new ≡ inserted_words live r t.old }
{
    if live < t.len() / RECORD_WORDS {
        let at = insertion_index(t, live, r);
        shift_in(t, at, live, r);
    }
}
