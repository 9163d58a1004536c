// Requests.
ghost use Rattle.std.specs.Prelude.{◌≡◌};
ghost use Rattle.rules.specs.Answers.{number, used_length};
ghost use Rattle.rules.specs.Device as rules;
ghost use Rattle.refinement.specs.Flat.{device};

use rules::{Guest, State};

// A request's number, used length and next state.
#[repr(C)]
#[derive(Clone, Copy)]
pub struct RequestGiven {
    pub state: State,
    pub number: u8,
    pub used: usize,
}

#[unsafe(no_mangle)]
pub extern "C" fn viommu_request(
    mut s: State,
    t: &mut [u64],
    g: Guest,
    readable: &[u8],
    writable: &mut [u8],
) -> RequestGiven
    ensures number_value { (result.number ≡ number (rules.step (device s t.old) (rules.of_guest g (rules.request readable.now writable.old))).0.answer) × (result.used ≡ used_length (rules.step (device s t.old) (rules.of_guest g (rules.request readable.now writable.old))).0.answer) }
    ensures t_after { (device result.state t.new ≡ (rules.step (device s t.old) (rules.of_guest g (rules.request readable.now writable.old))).1) × (writable.new ≡ (rules.step (device s t.old) (rules.of_guest g (rules.request readable.now writable.old))).0.buffer) }
{
    let answer = call_request::request(&mut s, t, g, readable, writable);
    let values = call_answers::values_of(answer);
    RequestGiven {
        state: s,
        number: values.number,
        used: values.used,
    }
}
