// The first word of a record.
ghost use Rattle.std.specs.Prelude.{◌≡◌};
ghost use Rattle.rules.specs.Table.{key_of};

use rules::sizes::DOMAIN_SPAN;
use rules::{Domain, Guest};

// The first word of the records of a guest's domain.
pub fn key_of(g: Guest, d: Domain) -> u64
    ensures { result ≡ key_of g d }
{
    (g.0 as u64) * DOMAIN_SPAN + (d.0 as u64)
}
