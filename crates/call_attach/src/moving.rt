// Endpoints that leave and enter domains, and the records that go with a domain.
ghost use Rattle.std.specs.Prelude.{◌≡◌};
ghost use Rattle.refinement.specs.Flat.{device};
ghost use Rattle.refinement.specs.Flat as flat;

use rules::sizes::TOP_ADDRESS;
use rules::{Domain, Guest, State};
use state_endpoints::{attach_at, domain_at, domain_exists, flag_at};

// The endpoint at place i leaves domain d; with its last endpoint the domain's records go.
#[tactic(auto, unfolding(refinement::specs::Flat::leave, refinement::specs::Flat::removed, refinement::specs::Flat::domain_exists))]
pub(crate) fn leave(s: &mut State, t: &mut [u64], g: Guest, i: usize, d: Domain)
    ensures { device s.new t.new ≡ flat.leave (device s.old t.old) g i d }
{
    attach_at(s, i, 0, Domain(0));
    if domain_exists(&s.owners, &s.attached, &s.domains, g, d) {
        return;
    }
    let key = table_record::key_of(g, d);
    s.live = table_remove::remove(t, s.live, key, key, 0, TOP_ADDRESS);
}

// The endpoint at place i is attached to domain d, leaving the domain that it was in.
#[tactic(auto, unfolding(refinement::specs::Flat::move_to, refinement::specs::Flat::enter))]
pub(crate) fn move_to(s: &mut State, t: &mut [u64], g: Guest, i: usize, d: Domain)
    ensures { device s.new t.new ≡ flat.move_to (device s.old t.old) g i d }
{
    if flag_at(&s.attached, i) == 1 {
        let was = domain_at(&s.domains, i);
        if was == d {
            return;
        }
        leave(s, t, g, i, was);
    }
    attach_at(s, i, 1, d);
}
