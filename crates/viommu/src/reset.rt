// Resets.
ghost use Rattle.std.specs.Prelude.{◌≡◌};
ghost use Rattle.rules.specs.Answers.{number};
ghost use Rattle.rules.specs.Device as rules;
ghost use Rattle.refinement.specs.Flat.{device};

use rules::{Guest, State};

// A reset's number and next state.
#[repr(C)]
#[derive(Clone, Copy)]
pub struct ResetGiven {
    pub state: State,
    pub number: u8,
}

#[unsafe(no_mangle)]
pub extern "C" fn viommu_reset(mut s: State, t: &mut [u64], g: Guest) -> ResetGiven
    ensures { (result.number ≡ number (rules.step (device s t.old) (rules.of_guest g rules.reset)).0.answer) × (device result.state t.new ≡ (rules.step (device s t.old) (rules.of_guest g rules.reset)).1) }
{
    let answer = call_reset::reset(&mut s, t, g);
    let values = call_answers::values_of(answer);
    ResetGiven {
        state: s,
        number: values.number,
    }
}
