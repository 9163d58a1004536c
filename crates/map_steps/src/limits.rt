// A guest's limits.
ghost use Rattle.std.specs.Prelude.{◌≡◌};
ghost use Rattle.map_steps.specs.Forms.{limits_at};

use rules::{InputRange, Settings};

// What steps 2 to 6 of MAP ask of a guest's configuration: the mask, the input range, and the window from first to last.
#[derive(Clone, Copy)]
pub struct Limits {
    pub mask: u64,
    pub input: InputRange,
    pub first: u64,
    pub last: u64,
}

// The limits of the guest with number g, whose window's ends are 0 where there is no place for one.
pub fn limits_at(settings: &Settings, g: usize) -> Limits
    ensures { result ≡ limits_at settings.now g }
{
    Limits {
        mask: settings.mask,
        input: settings.input,
        first: settings.firsts.get(g).copied().unwrap_or(0),
        last: settings.lasts.get(g).copied().unwrap_or(0),
    }
}
