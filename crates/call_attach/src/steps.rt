// What the steps of ATTACH and DETACH ask.
ghost use Rattle.std.specs.Prelude.{◌≡◌, not, ◌&&◌};
ghost use Rattle.rules.specs.Handlers.{outside};
ghost use Rattle.refinement.specs.Flat.{device, is_in_domain, barred_from};

use rules::{Domain, DomainRange, Guest, State};
use state_endpoints::{domain_at, flag_at};

// Whether domain d lies outside the range.
#[tactic(auto, unfolding(rules::specs::Handlers::outside))]
pub(crate) fn is_outside(range: DomainRange, d: Domain) -> bool
    ensures { result ≡ outside range.start range.end d.0 }
{
    (d.0 < range.start) | (range.end < d.0)
}

// Whether the endpoint at place i is attached to domain d.
pub(crate) fn is_in(s: &State, i: usize, d: Domain) -> bool
    ensures { result ≡ is_in_domain s.now i d }
{
    (flag_at(&s.attached, i) == 1) & (domain_at(&s.domains, i) == d)
}

// Whether the endpoint at place i is barred from domain d of guest g: it is not there yet, and a record of the domain overlaps
// one of its regions.
pub(crate) fn is_barred(s: &State, t: &[u64], g: Guest, d: Domain, i: usize) -> bool
    ensures { result ≡ not (is_in_domain s.now i d) && barred_from (device s.now t.now) g d i }
{
    !is_in(s, i, d)
        && table_reserved::regions_met(t, s.live, table_record::key_of(g, d), &s.regions, i)
}
