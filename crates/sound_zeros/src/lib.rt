// The test that words are zero from a place on.
#![tactic(auto)]

ghost use Rattle.std.specs.Prelude.{◌≡◌};
ghost use Rattle.rules.specs.Sound.{zero_from};

// Whether all words from place n on are zero.
pub fn zero_from(x: &[u64], n: usize) -> bool
    ensures { result ≡ zero_from n x.now }
{
    let mut bits: u64 = 0;
    for i in n..x.len() {
        bits = bits | x[i];
    }
    bits == 0
}
