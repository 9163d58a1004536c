// Mappings taken out of the table, and words made zero.
#![tactic(auto)]

ghost use Rattle.std.specs.Prelude.{◌≡◌, ◌*◌, ◌≤◌, length, take, drop, replicate};
ghost use Rattle.rules.specs.Sizes.{record_words};
ghost use Rattle.rules.specs.Table.{records, words};
ghost use Rattle.table_remove.specs.Removed.{within, kept_of, removed_words};

use rules::Mapping;
use rules::sizes::RECORD_WORDS;
use table_record::write;

// Whether r has a key from low to high and lies inside the addresses from a to b.
fn is_within(r: Mapping, low: u64, high: u64, a: u64, b: u64) -> bool
    ensures { result ≡ within low high a b r }
{
    ((low <= r.key) & (r.key <= high)) & ((a <= r.start) & (r.end <= b))
}

// The first n records without those within, closed up; the number kept.
fn close_up(t: &mut [u64], n: usize, low: u64, high: u64, a: u64, b: u64) -> usize
    requires { n ≤ length (records t.old) }
    ensures value { (result ≡ length (kept_of n low high a b t.old)) × (result ≤ n) }
    ensures t_after { (take (record_words * result) t.new ≡ words (kept_of n low high a b t.old)) × (drop (record_words * n) t.new ≡ drop (record_words * n) t.old) }
{
    let mut kept: usize = 0;
    // By place: each record that is kept is written back to an earlier place of the same words.
    for i in 0..n {
        let r = table_record::get(t, i);
        if !is_within(r, low, high, a, b) {
            write(t, kept, r);
            kept += 1;
        }
    }
    kept
}

// Every word zero.
pub fn clear(t: &mut [u64])
    ensures { t.new ≡ replicate (length t.old) 0 }
{
    t.fill(0);
}

// The first live records without those with a key from low to high that lie inside the addresses from a to b, closed
// up and zeros after them; the number kept.
pub fn remove(t: &mut [u64], live: usize, low: u64, high: u64, a: u64, b: u64) -> usize
    ensures value { result ≡ length (kept_of live low high a b t.old) }
    ensures t_after { t.new ≡ removed_words live low high a b t.old }
{
    let n = table_record::bounded(t, live);
    let kept = close_up(t, n, low, high, a, b);
    let from = RECORD_WORDS * kept;
    let to = RECORD_WORDS * n;
    clear(&mut t[from..to]);
    kept
}
