// Whether the record found lets an access through.
ghost use Rattle.std.specs.Prelude.{◌≡◌};
ghost use Rattle.table_lookup.specs.Outcomes.{found_of};
ghost use Rattle.table_halving.specs.Outcomes.{option_of};
ghost use Rattle.table_halving.specs.Lookup.{covers, flagged, passing};

use rules::Mapping;
use table_lookup::has_flag;

// Whether r is of the key's domain and covers the address.
#[tactic(auto, unfolding(crate::specs::Lookup::covers, rules::specs::Handlers::of_key))]
fn is_covering(r: Mapping, key: u64, address: u64) -> bool
    ensures { result ≡ covers key address r }
{
    (r.key == key) & ((r.start <= address) & (address <= r.end))
}

// The record found, where it is of the key's domain and covers the address.
#[tactic(auto, unfolding(table_lookup::specs::Outcomes::found_of, crate::specs::Outcomes::option_of, crate::specs::Lookup::passing))]
pub(crate) fn if_covering(found: Option<Mapping>, key: u64, address: u64) -> Option<Mapping>
    ensures { result ≡ found_of (passing (covers key address) (option_of found)) }
{
    found.filter(|r| is_covering(*r, key, address))
}

// The record found, where it has the flag that an access of this kind asks for.
#[tactic(auto, unfolding(table_lookup::specs::Outcomes::found_of, crate::specs::Outcomes::option_of, crate::specs::Lookup::passing))]
pub(crate) fn if_flagged(found: Option<Mapping>, kind: u8) -> Option<Mapping>
    ensures { result ≡ found_of (passing (flagged kind) (option_of found)) }
{
    found.filter(|r| has_flag(kind, r.flags))
}
