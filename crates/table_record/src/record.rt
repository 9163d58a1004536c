// One record of the table.
ghost use Rattle.std.specs.Prelude.{◌≡◌, cond, ◌+◌, ◌*◌, ◌<◌, ◌≤◌, leb, length, get_or, take};
ghost use Rattle.rules.specs.Sizes.{record_words};
ghost use Rattle.rules.specs.Table.{records};
ghost use Rattle.table_record.specs.Records.{no_mapping, loaded};

use rules::Mapping;
use rules::sizes::RECORD_WORDS;

// The record in the five words from at on.
fn load(t: &[u64], at: usize) -> Mapping
    requires { at + record_words ≤ length t.now }
    ensures { result ≡ loaded t.now at }
{
    Mapping {
        key: t[at],
        start: t[at + 1],
        end: t[at + 2],
        phys: t[at + 3],
        flags: t[at + 4],
    }
}

// Record i, one of the table's.
fn read(t: &[u64], i: usize) -> Mapping
    requires { i < length (records t.now) }
    ensures { result ≡ get_or (records t.now) i no_mapping }
{
    load(t, RECORD_WORDS * i)
}

// Record i, and five zeros past the last.
pub fn get(t: &[u64], i: usize) -> Mapping
    ensures { result ≡ get_or (records t.now) i no_mapping }
{
    if i < t.len() / RECORD_WORDS {
        return read(t, i);
    }
    Mapping::default()
}

// The record in the five words from at on, and five zeros where the table does not have them all.
pub fn get_at(t: &[u64], at: usize) -> Mapping
    ensures { result ≡ cond (leb (at + record_words) (length t.now)) (loaded t.now at) no_mapping }
{
    if t.len() < RECORD_WORDS {
        return Mapping::default();
    }
    if t.len() - RECORD_WORDS < at {
        return Mapping::default();
    }
    load(t, at)
}

// The smaller of live and the number of whole records.
pub fn bounded(t: &[u64], live: usize) -> usize
    ensures { (result ≡ length (take live (records t.now))) × (result ≤ length (records t.now)) × (record_words * result ≤ length t.now) }
{
    let whole = t.len() / RECORD_WORDS;
    live.min(whole)
}
