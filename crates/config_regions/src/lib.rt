// Whether the reserved regions of a configuration's endpoints are good.
#![tactic(auto)]

ghost use Rattle.std.specs.Prelude.{◌≡◌, ◌+◌, ◌*◌, ◌≤◌, ◌<◌, length};
ghost use Rattle.laws.specs.Lists.{every?};
ghost use Rattle.rules.specs.Sizes.{max_regions, region_words, endpoint_region_words};
ghost use Rattle.rules.specs.Configuration.{region_at, regions_at, region_tests, good_regions};
ghost use Rattle.config_regions.specs.Places.{loaded, formed, apart, fitting};

use rules::Region;
use rules::sizes::{ENDPOINT_REGION_WORDS, MAX_REGIONS, REGION_WORDS};

// The subtype of the region that messages of interrupts are written to.
const MSI: u64 = 1;

// The region in the three words from at on.
fn load(words: &[u64], at: usize) -> Region
    requires { at + region_words ≤ length words.now }
    ensures { result ≡ loaded words.now at }
{
    Region {
        subtype: words[at],
        start: words[at + 1],
        end: words[at + 2],
    }
}

// Whether a region has a subtype that there is, and a start not past its end.
fn is_formed(q: Region) -> bool
    ensures { result ≡ formed q }
{
    (q.subtype <= MSI) & (q.start <= q.end)
}

// Whether two regions are not both MSI and have no address in common.
fn is_apart(a: Region, b: Region) -> bool
    ensures { result ≡ apart a b }
{
    !((a.subtype == MSI) & (b.subtype == MSI)) & !((a.start <= b.end) & (b.start <= a.end))
}

// Region j of endpoint i.
fn region_of(words: &[u64], i: usize, j: usize) -> Region
    requires { (endpoint_region_words * i + endpoint_region_words ≤ length words.now) × (j < max_regions) }
    ensures { result ≡ region_at words.now i j }
{
    load(words, ENDPOINT_REGION_WORDS * i + 1 + REGION_WORDS * j)
}

// Whether region j of endpoint i is formed, and apart from each before it.
fn is_fitting(words: &[u64], i: usize, j: usize) -> bool
    requires { (endpoint_region_words * i + endpoint_region_words ≤ length words.now) × (j < max_regions) }
    ensures { result ≡ fitting (region_at words.now i) j }
{
    let q = region_of(words, i, j);
    is_formed(q) & (0..j).all(|k| is_apart(region_of(words, i, k), q))
}

// Whether the regions of endpoint i are good: at most four, each fitting.
fn endpoint_good(words: &[u64], i: usize) -> bool
    requires { endpoint_region_words * i + endpoint_region_words ≤ length words.now }
    ensures { result ≡ every? (region_tests (regions_at words.now i)) }
{
    let n = words[ENDPOINT_REGION_WORDS * i] as usize;
    if n > MAX_REGIONS {
        return false;
    }
    (0..n).all(|j| is_fitting(words, i, j))
}

// Whether the words are those for n endpoints, and the regions of each are good.
pub fn good_regions(n: usize, words: &[u64]) -> bool
    ensures { result ≡ good_regions n words.now }
{
    if words.len() / ENDPOINT_REGION_WORDS != n {
        return false;
    }
    if words.len() % ENDPOINT_REGION_WORDS != 0 {
        return false;
    }
    (0..n).all(|i| endpoint_good(words, i))
}
