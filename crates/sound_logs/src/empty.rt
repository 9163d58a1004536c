// Logs without a fault, and places that no fault is in.
ghost use Rattle.std.specs.Prelude.{◌≡◌, ◌+◌, ◌≤◌, eqb, get_or};
ghost use Rattle.laws.specs.Lists.{below};
ghost use Rattle.rules.specs.Sizes.{max_guests, fault_places};
ghost use Rattle.rules.specs.State.{fault_at};
ghost use Rattle.rules.specs.Sound.{fault_zero};

use rules::State;

// Whether no log has a fault.
pub(crate) fn none_logged(s: &State) -> bool
    ensures { result ≡ below max_guests (λ g. eqb (get_or s.now.logged g 0) 0) }
{
    let mut ok = true;
    for &count in &s.logged {
        ok = (count == 0) & ok;
    }
    ok
}

// Whether the n places for faults from place `first` on are zero.
pub(crate) fn zero_places(s: &State, first: usize, n: usize) -> bool
    requires { first + n ≤ fault_places }
    ensures { result ≡ below n (λ j. fault_zero (fault_at s.now (first + j))) }
{
    let mut narrow: u32 = 0;
    let mut broad: u64 = 0;
    // By place: four arrays of the state are walked side by side.
    for j in 0..n {
        let i = first + j;
        narrow = (u32::from(s.reasons[i]) | (s.flags[i] | s.sources[i])) | narrow;
        broad = s.addresses[i] | broad;
    }
    (narrow == 0) & (broad == 0)
}
