// Set-up.
ghost use Rattle.std.specs.Prelude.{◌≡◌};
ghost use Rattle.rules.specs.Answers.{number};
ghost use Rattle.rules.specs.Device as rules;
ghost use Rattle.refinement.specs.Flat.{device};
ghost use Rattle.refinement.specs.Setting.{configured};

use rules::{Settings, State};

// A set-up's number and state.
#[repr(C)]
#[derive(Clone, Copy)]
pub struct SetUpGiven {
    pub state: State,
    pub number: u8,
}

#[unsafe(no_mangle)]
pub extern "C" fn viommu_set_up(
    settings: Settings,
    endpoints: &[u32],
    owners: &[u8],
    regions: &[u64],
    t: &mut [u64],
) -> SetUpGiven
    ensures { (result.number ≡ number (rules.set_up (configured settings endpoints.now owners.now regions.now) t.old).answer) × (device result.state t.new ≡ (rules.set_up (configured settings endpoints.now owners.now regions.now) t.old).device) }
{
    let given = call_setup::set_up(settings, endpoints, owners, regions, t);
    let answer = given.answer;
    let next = given.state;
    let values = call_answers::values_of(answer);
    SetUpGiven {
        state: next,
        number: values.number,
    }
}
