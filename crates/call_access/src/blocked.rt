// The fault that a blocked access logs.
ghost use Rattle.std.specs.Prelude.{◌≡◌, ◌+◌, get_or};
ghost use Rattle.rules.specs.declared.Answer.TheVariants.{Blocked};
ghost use Rattle.rules.specs.Access.{flag_for, reason_of, fault_of};
ghost use Rattle.rules.specs.Sound.{guest};
ghost use Rattle.refinement.specs.Flat.{after_access};

use rules::{Access, Cause, Fault, Guest, State};
use state_log::log_fault;

// The flags of a read's fault, READ 1 and ADDRESS 256.
const READ_FLAGS: u32 = 257;

// The flags of a write's fault, WRITE 2 and ADDRESS 256.
const WRITE_FLAGS: u32 = 258;

// The reason that a fault of this cause is logged with.
fn reason_of(cause: Cause) -> u8
    ensures { result ≡ reason_of cause }
{
    match cause {
        Cause::Unattached => 1,
        Cause::Unmapped => 2,
    }
}

// The flags of an access's fault, by its kind.
fn flags_of(kind: u8) -> u32
    ensures { result ≡ flag_for kind + 256 }
{
    if kind == 0 { READ_FLAGS } else { WRITE_FLAGS }
}

// The fault of a blocked access.
fn fault_of(cause: Cause, a: Access) -> Fault
    ensures { result ≡ fault_of cause a }
{
    Fault {
        reason: reason_of(cause),
        flags: flags_of(a.kind),
        endpoint: a.endpoint,
        address: a.address,
    }
}

// The owner at a place, 0 past the last.
fn owner_at(owners: &[u8], i: usize) -> Guest
    ensures { result ≡ guest (get_or owners.now i 0) }
{
    Guest(owners.get(i).copied().unwrap_or(0))
}

// The fault of a blocked access, logged for its endpoint's owner.
#[tactic(auto, unfolding(refinement::specs::Flat::after_access))]
pub(crate) fn report_fault(s: &mut State, a: Access, cause: Cause)
    ensures { s.new ≡ after_access s.old a (Blocked cause) }
{
    let i = state_endpoints::index_of(s.listed, &s.endpoints, a.endpoint);
    let owner = owner_at(&s.owners, i);
    log_fault(s, owner, fault_of(cause, a));
}
