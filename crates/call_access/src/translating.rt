// What an access is answered, from what it reads alone.
ghost use Rattle.std.specs.Prelude.{◌≡◌, ◌+◌, take};
ghost use Rattle.rules.specs.declared.Answer.TheVariants.{Through};
ghost use Rattle.rules.specs.Table.{records};
ghost use Rattle.rules.specs.Access.{find_mapping};
ghost use Rattle.refinement.specs.Flat.{device, answer_of};
ghost use Rattle.refinement.specs.Translating.{in_words, translate};

use rules::sizes::{MAX_ENDPOINTS, TOP_ADDRESS};
use rules::{Access, Answer, Cause, Domain, Guest, Refusal, State};
use table_record::key_of;

// The answer of an access that lies so far into a record; a record that leads past the last address is none of a sound table.
#[tactic(auto, unfolding(refinement::specs::Translating::in_words))]
fn landing(offset: u64, phys: u64) -> Answer
    ensures { result ≡ in_words (Through (offset + phys)) }
{
    if TOP_ADDRESS - offset < phys {
        return Answer::Refused(Refusal::Unsound);
    }
    Answer::Through(offset + phys)
}

// The answer of an access under a domain's key.
#[tactic(auto, unfolding(refinement::specs::Flat::answer_of, refinement::specs::Translating::in_words, table_lookup::specs::Outcomes::found_of))]
fn answer_under(t: &[u64], live: usize, key: u64, a: Access) -> Answer
    ensures { result ≡ in_words (answer_of a (find_mapping key a (take live (records t.now)))) }
{
    match table_lookup::find_mapping(t, live, key, a) {
        Some(r) => landing(a.address - r.start, r.phys),
        None => Answer::Blocked(Cause::Unmapped),
    }
}

// The answer of an access, from what it reads alone; more endpoints than there are places are none of a sound state.
#[tactic(auto, unfolding(refinement::specs::Flat::decision_at, refinement::specs::Translating::in_words))]
pub fn translate(s: &State, t: &[u64], a: Access) -> Answer
    ensures { result ≡ translate (device s.now t.now) a }
{
    if MAX_ENDPOINTS < s.listed {
        return Answer::Refused(Refusal::Unsound);
    }
    let i = state_endpoints::index_of(s.listed, &s.endpoints, a.endpoint);
    if i >= s.listed {
        return Answer::Refused(Refusal::UnknownEndpoint);
    }
    if s.attached[i] != 1 {
        return Answer::Blocked(Cause::Unattached);
    }
    let key = key_of(Guest(s.owners[i]), Domain(s.domains[i]));
    answer_under(t, s.live, key, a)
}
