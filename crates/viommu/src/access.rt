// Accesses.
ghost use Rattle.std.specs.Prelude.{◌≡◌};
ghost use Rattle.rules.specs.Answers.{number, address_of};
ghost use Rattle.rules.specs.Device as rules;
ghost use Rattle.refinement.specs.Flat.{device};

use rules::{Access, Endpoint, State};

// An access's number, address and next state.
#[repr(C)]
#[derive(Clone, Copy)]
pub struct AccessGiven {
    pub state: State,
    pub number: u8,
    pub address: u64,
}

#[unsafe(no_mangle)]
pub extern "C" fn viommu_access(
    mut s: State,
    t: &[u64],
    e: Endpoint,
    address: u64,
    kind: u8,
) -> AccessGiven
    ensures { (result.number ≡ number (rules.step (device s t.now) (rules.access_by (record { endpoint = e; address = address; kind = kind }))).0.answer) × (result.address ≡ address_of (rules.step (device s t.now) (rules.access_by (record { endpoint = e; address = address; kind = kind }))).0.answer) × (device result.state t.now ≡ (rules.step (device s t.now) (rules.access_by (record { endpoint = e; address = address; kind = kind }))).1) }
{
    let a = Access {
        endpoint: e,
        address,
        kind,
    };
    let answer = call_access::access(&mut s, t, a);
    let values = call_answers::values_of(answer);
    AccessGiven {
        state: s,
        number: values.number,
        address: values.address,
    }
}
