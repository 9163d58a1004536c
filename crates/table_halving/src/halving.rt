// The place of a record, found by halving.
ghost use Rattle.std.specs.Prelude.{◌≡◌, cond, ◌&&◌, ◌||◌, ◌*◌, ◌^◌, ◌≤◌, leb, ltb, eqb, length, take};
ghost use Rattle.rules.specs.Sizes.{record_words};
ghost use Rattle.rules.specs.Table.{records};
ghost use Rattle.table_search.specs.Halving.{last_up_to};
ghost use Rattle.table_halving.specs.Halving.{half, halvings};

use rules::sizes::RECORD_WORDS;
use table_record::bounded;

// The place of a record by its first word, and how many records were read to find it.
#[derive(Clone, Copy)]
pub(crate) struct Place {
    pub(crate) word: usize,
    pub(crate) reads: usize,
}

// Whether a record with this first word and virt_start does not stand after an address of the key's domain.
fn is_up_to(first: u64, start: u64, key: u64, address: u64) -> bool
    ensures { result ≡ (ltb first key || (eqb first key && leb start address)) }
{
    (first < key) | ((first == key) & (start <= address))
}

// One of two numbers: a function of its own, so that the search is compiled without a jump.
fn pick(b: bool, x: usize, y: usize) -> usize
    ensures { result ≡ cond b x y }
{
    if b { x } else { y }
}

// Half of n places.
fn half(n: usize) -> usize
    ensures { result ≡ half n }
{
    n / 2
}

// The place of the last of the first live records that does not stand after an address of the key's domain, where the records are
// in order; the first where there is none. It reads the two words of a record that order it, and no more. It counts in words, not in
// records: what a step waits for is shorter by a product.
pub(crate) fn last_place(t: &[u64], live: usize, key: u64, address: u64) -> Place
    ensures word_value { result.word ≡ record_words * last_up_to key address (take live (records t.now)) }
    ensures reads_value { result.reads ≡ halvings (length (take live (records t.now))) (length (take live (records t.now))) }
    ensures reads_bound { live ≤ 2 ^ 11 → result.reads ≤ 11 }
{
    let mut word = 0;
    let mut n = bounded(t, live);
    let mut reads = 0;
    // By hand: the library's searches go over the elements of a slice, and a record is five words.
    while n > 1 {
        let step = half(n);
        let middle = word + RECORD_WORDS * step;
        let passes = is_up_to(t[middle], t[middle + 1], key, address);
        word = pick(passes, middle, word);
        reads = reads + 1;
        n = n - step;
    }
    Place { word, reads }
}
