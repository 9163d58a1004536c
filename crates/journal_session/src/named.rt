// Records that name a guest, an endpoint or a region.
ghost use Rattle.std.specs.Prelude.{List, ℕ};
ghost use Rattle.journal_records.specs.declared.Item.TheVariants.{NamedGuest, NamedEndpoint, NamedRegion};
ghost use Rattle.journal_session.specs.Steps.{step_of};
ghost use Rattle.journal_session.specs.Matching.{Matches};

use crate::naming;
use crate::results::{consumed, unread};
use crate::session::{Session, StepResult};
use journal_records::GuestFields;
use rules::sizes::{MAX_ENDPOINTS, MAX_GUESTS};
use rules::{Endpoint, Guest, Region};

// A guest is named, unless it is the fifth or the journal has started.
pub fn guest(p: &mut Session, s: &[u8], f: GuestFields) -> StepResult
    ensures { (t out : List ℕ) (k : ℕ) → Matches p.new result t out out k (step_of p.old t s.now (NamedGuest f)) }
{
    if p.started {
        return unread(true);
    }
    if p.state.settings.guests >= MAX_GUESTS {
        return unread(true);
    }
    naming::name_guest(&mut p.state.settings, f);
    consumed(journal_records::size_of(s), 0)
}

// An endpoint is named, unless it is the 33rd or the journal has started.
pub fn endpoint(p: &mut Session, s: &[u8], e: Endpoint, g: Guest) -> StepResult
    ensures { (t out : List ℕ) (k : ℕ) → Matches p.new result t out out k (step_of p.old t s.now (NamedEndpoint e g)) }
{
    if p.started {
        return unread(true);
    }
    if p.state.listed >= MAX_ENDPOINTS {
        return unread(true);
    }
    naming::name_endpoint(&mut p.state, e, g);
    consumed(journal_records::size_of(s), 0)
}

// A region of an endpoint is named, unless the endpoint is not yet, it is the endpoint's fifth or the journal has started.
pub fn region(p: &mut Session, s: &[u8], e: Endpoint, q: Region) -> StepResult
    ensures { (t out : List ℕ) (k : ℕ) → Matches p.new result t out out k (step_of p.old t s.now (NamedRegion e q)) }
{
    if p.started {
        return unread(true);
    }
    if !naming::name_region(&mut p.state, e, q) {
        return unread(true);
    }
    consumed(journal_records::size_of(s), 0)
}
