// The lookup of a mapping that lets an access through.
#![tactic(auto)]

ghost use Rattle.std.specs.Prelude.{◌≡◌, take};
ghost use Rattle.rules.specs.Table.{records};
ghost use Rattle.rules.specs.Access as access;
ghost use Rattle.table_lookup.specs.Outcomes.{found_of};

use rules::{Access, Mapping};
use table_record::{bounded, get};

// Whether the flags have the one that an access of this kind asks for.
#[tactic(auto, unfolding(rules::specs::Access::has_flag))]
pub fn has_flag(kind: u8, flags: u64) -> bool
    ensures { result ≡ access.has_flag kind flags }
{
    if kind == 0 {
        flags % 2 == 1
    } else {
        flags / 2 % 2 == 1
    }
}

// Whether r lets an access through that is made in the key's domain.
#[tactic(auto, unfolding(rules::specs::Access::permits, rules::specs::Handlers::of_key))]
fn permits(r: Mapping, key: u64, a: Access) -> bool
    ensures { result ≡ access.permits key a r }
{
    (r.key == key) & (((r.start <= a.address) & (a.address <= r.end)) & has_flag(a.kind, r.flags))
}

// The first of the first live records that lets an access through that is made in the key's domain.
pub fn find_mapping(t: &[u64], live: usize, key: u64, a: Access) -> Option<Mapping>
    ensures { result ≡ found_of (access.find_mapping key a (take live (records t.now))) }
{
    let n = bounded(t, live);
    // By place: a record is five words of the table.
    for i in 0..n {
        let r = get(t, i);
        if permits(r, key, a) {
            return Some(r);
        }
    }
    None
}
