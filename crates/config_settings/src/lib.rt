// Whether the settings of a configuration are good.
#![tactic(auto)]

ghost use Rattle.std.specs.Prelude.{◌≡◌, not, ◌≤◌, ◌<◌, leb};
ghost use Rattle.laws.specs.Lists.{below, sum_below};
ghost use Rattle.rules.specs.Sizes.{max_guests};
ghost use Rattle.rules.specs.Configuration.{share, window_first, window_last, share_address, good_settings};

use rules::sizes::{MAX_GUESTS, MAX_RECORDS};
use rules::{Guest, Settings};

// What the shares may sum to.
const MAX_SUM: u64 = MAX_RECORDS as u64;

// Whether the windows of the first n guests are not empty.
fn windows_filled(s: Settings, n: usize) -> bool
    requires { n ≤ max_guests }
    ensures { result ≡ below n (λ g. leb (window_first s g) (window_last s g)) }
{
    s.firsts[..n]
        .iter()
        .zip(&s.lasts[..n])
        .all(|(first, last)| first <= last)
}

// Whether guest g's window has no address in common with that of a guest below it.
fn window_apart(s: Settings, g: Guest) -> bool
    requires { g.0 < max_guests }
    ensures { result ≡ below g.0 (λ h. not (share_address s g.0 h)) }
{
    let guest = usize::from(g.0);
    let first = s.firsts[guest];
    let last = s.lasts[guest];
    s.firsts[..guest]
        .iter()
        .zip(&s.lasts[..guest])
        .all(|(a, b)| !((first <= *b) & (*a <= last)))
}

// Whether no two windows of the first n guests have an address in common.
fn windows_apart(s: Settings, n: usize) -> bool
    requires { n ≤ max_guests }
    ensures { result ≡ below n (λ g. below g (λ h. not (share_address s g h))) }
{
    (0..n).all(|g| window_apart(s, Guest(g as u8)))
}

// The sum of the first n guests' shares.
fn shares_sum(s: Settings, n: usize) -> u64
    requires { n ≤ max_guests }
    ensures { result ≡ sum_below n (share s) }
{
    s.shares[..n].iter().map(|&share| u64::from(share)).sum()
}

// Whether the settings are good.
pub fn good_settings(s: Settings) -> bool
    ensures { result ≡ good_settings s }
{
    let n = s.guests;
    if n < 1 {
        return false;
    }
    if n > MAX_GUESTS {
        return false;
    }
    windows_filled(s, n)
        & (windows_apart(s, n)
            & ((shares_sum(s, n) <= MAX_SUM)
                & ((s.mask != 0)
                    & ((s.input.start <= s.input.end) & (s.domains.start <= s.domains.end)))))
}
