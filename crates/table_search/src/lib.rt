// The search in the table's order, by halving.
#![tactic(auto)]

ghost use Rattle.std.specs.Prelude.{◌≡◌, cond, ◌&&◌, ◌||◌, leb, ltb, eqb, take};
ghost use Rattle.rules.specs.Table.{records};
ghost use Rattle.table_search.specs.Halving.{last_up_to};

use rules::sizes::RECORD_WORDS;
use table_record::bounded;

// Whether a record with this first word and virt_start does not stand after an address of the key's domain.
fn is_up_to(first: u64, start: u64, key: u64, address: u64) -> bool
    ensures { result ≡ (ltb first key || (eqb first key && leb start address)) }
{
    (first < key) | ((first == key) & (start <= address))
}

// One of two numbers: a function of its own, so that the search is compiled without a jump.
fn pick(b: bool, x: usize, y: usize) -> usize
    ensures { result ≡ cond b x y }
{
    if b { x } else { y }
}

// The place of the last of the first live records that does not stand after an address of the key's domain, where the records are
// in order; 0 where there is none. It reads the two words of a record that order it, and no more.
pub fn last_up_to(t: &[u64], live: usize, key: u64, address: u64) -> usize
    ensures { result ≡ last_up_to key address (take live (records t.now)) }
{
    let mut a = 0;
    let mut n = bounded(t, live);
    // By hand: the library's searches go over the elements of a slice, and a record is five words.
    while n > 1 {
        let half = n / 2;
        let middle = a + half;
        let at = RECORD_WORDS * middle;
        a = pick(is_up_to(t[at], t[at + 1], key, address), middle, a);
        n = n - half;
    }
    a
}
