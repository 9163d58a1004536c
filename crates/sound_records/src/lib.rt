// The test that the live records are in order and apart, that each would pass steps 1 to 6 of MAP, and that no guest holds
// more than its share: one pass, domain by domain.
#![tactic(auto)]

mod domains;

ghost use Rattle.std.specs.Prelude.{◌≡◌, true, ◌&&◌, ◌≤◌, ◌<◌, length, take};
ghost use Rattle.laws.specs.Lists.{every?};
ghost use Rattle.rules.specs.Sizes.{max_guests, max_endpoints};
ghost use Rattle.rules.specs.Table.{records};
ghost use Rattle.rules.specs.Sound.{shares_kept};
ghost use Rattle.table_record.specs.Records.{no_mapping};
ghost use Rattle.sound_records.specs.Scan as spec;

use domains::{domain_held, domain_of, hints_of};
use map_steps::{limits_at, opens, run_end};
use rules::sizes::{DOMAIN_SPAN, MAX_ENDPOINTS, MAX_GUESTS, RECORD_WORDS};
use rules::{Guest, State};
use sound_places::shares_kept;

// The pass over the live records, domain by domain: the first record of each is tested beside the domain before it, those
// that go on with the domain each beside the record before it, and the guests' records are counted. The guests, the endpoints
// and the records are as many as have places, and the mask has a lowest bit.
fn placed_good(s: &State, t: &[u64]) -> bool
    requires { (s.now.settings.guests ≤ max_guests) × (0 < s.now.settings.mask) × (s.now.listed ≤ max_endpoints) × (s.now.live ≤ length (records t.now)) }
    ensures { result ≡ (spec.scan (spec.own_good s.now.settings) (spec.domain_good s.now.listed s.now.owners s.now.attached s.now.domains) true no_mapping (take s.now.live (records t.now)) && shares_kept s.now.settings (take s.now.live (records t.now))) }
{
    let live = s.live;
    let hints = hints_of(s);
    let mut counts: [usize; MAX_GUESTS] = [0; MAX_GUESTS];
    let mut key: u64 = 0;
    let mut i: usize = 0;
    // By place: where the records of one domain end, those of the next begin.
    while i < live {
        let r = table_record::get(t, i);
        let g = (r.key / DOMAIN_SPAN) as usize;
        if g >= s.settings.guests {
            return false;
        }
        let limits = limits_at(&s.settings, g);
        if !opens(&limits, i == 0, key, r) {
            return false;
        }
        if !domain_held(s, &hints, Guest(g as u8), domain_of(r)) {
            return false;
        }
        let next = run_end(t, i + 1, live, &limits, r.key, r.end);
        counts[g] += next - i;
        key = r.key;
        i = next;
    }
    shares_kept(s.settings, counts)
}

// Whether the live records are in order and apart, each would pass steps 1 to 6 of MAP, and no guest holds more
// than its share; false where a count has no places, or the mask is zero.
pub fn records_good(s: &State, t: &[u64]) -> bool
    ensures { result ≡ (every? (spec.room_tests s.now.settings s.now.listed s.now.live t.now) && (spec.scan (spec.own_good s.now.settings) (spec.domain_good s.now.listed s.now.owners s.now.attached s.now.domains) true no_mapping (take s.now.live (records t.now)) && shares_kept s.now.settings (take s.now.live (records t.now)))) }
{
    if !((s.settings.guests <= MAX_GUESTS)
        & ((0 < s.settings.mask)
            & ((s.listed <= MAX_ENDPOINTS) & (s.live <= t.len() / RECORD_WORDS))))
    {
        return false;
    }
    placed_good(s, t)
}
