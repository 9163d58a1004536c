// The words of the reserved regions as the start state holds them.
ghost use Rattle.std.specs.Prelude.{◌≡◌};
ghost use Rattle.rules.specs.State.{trimmed_regions};
ghost use Rattle.call_setup.specs.Kept.{kept_word};

use rules::sizes::{ENDPOINT_REGION_WORDS, REGION_PLACES, REGION_WORDS};
use std::array;

// Word k of the regions of n endpoints: zero where it is not in use.
fn kept_word(n: usize, words: &[u64], k: usize) -> u64
    ensures { result ≡ kept_word n words.now k }
{
    if k >= words.len() {
        return 0;
    }
    if k / ENDPOINT_REGION_WORDS >= n {
        return 0;
    }
    // The regions that there must be for word j of the endpoint's to be in use.
    let j = k % ENDPOINT_REGION_WORDS;
    let needed = (j + (REGION_WORDS - 1)) / REGION_WORDS;
    if words[k - j] < needed as u64 {
        return 0;
    }
    words[k]
}

// The words of the regions of n endpoints, at their places, and zero where none is in use.
pub fn placed_regions(n: usize, words: &[u64]) -> [u64; REGION_PLACES]
    ensures { result ≡ trimmed_regions n words.now }
{
    array::from_fn(|k| kept_word(n, words, k))
}
