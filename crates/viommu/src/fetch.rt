// Fetches.
ghost use Rattle.std.specs.Prelude.{◌≡◌};
ghost use Rattle.rules.specs.Answers.{number, fetched_count};
ghost use Rattle.rules.specs.Device as rules;
ghost use Rattle.refinement.specs.Flat.{device};

use rules::{Guest, State};

// A fetch's number, count and next state.
#[repr(C)]
#[derive(Clone, Copy)]
pub struct FetchGiven {
    pub state: State,
    pub number: u8,
    pub count: usize,
}

#[unsafe(no_mangle)]
pub extern "C" fn viommu_fetch(mut s: State, t: &[u64], g: Guest, buffer: &mut [u8]) -> FetchGiven
    ensures number_value { (result.number ≡ number (rules.step (device s t.now) (rules.of_guest g (rules.fetch buffer.old))).0.answer) × (result.count ≡ fetched_count (rules.step (device s t.now) (rules.of_guest g (rules.fetch buffer.old))).0.answer) }
    ensures t_value { (device result.state t.now ≡ (rules.step (device s t.now) (rules.of_guest g (rules.fetch buffer.old))).1) × (buffer.new ≡ (rules.step (device s t.now) (rules.of_guest g (rules.fetch buffer.old))).0.buffer) }
{
    let answer = call_fetch::fetch(&mut s, t, g, buffer);
    let values = call_answers::values_of(answer);
    FetchGiven {
        state: s,
        number: values.number,
        count: values.count,
    }
}
