// The test that comes before every job of a guest's.
ghost use Rattle.std.specs.Prelude.{◌≡◌};
ghost use Rattle.std.specs.Result.{OnOk};
ghost use Rattle.rules.specs.State.{Lengths};
ghost use Rattle.sound.specs.Assembled.{device_of};
ghost use Rattle.sound.specs.Checks.{job_checked};

use crate::is_sound;
use rules::{Guest, Refusal, State};

// The test before a guest's job: the guest's number, then state and table; and, for whoever calls and goes on, what the types of
// the state's arrays fix.
pub fn check_job(s: &State, t: &[u64], g: Guest) -> Result<(), Refusal>
    ensures value { result ≡ job_checked (device_of s.now t.now) g }
    ensures lengths { OnOk result (Lengths s.now) }
{
    if s.settings.guests <= (g.0 as usize) {
        return Err(Refusal::NoSuchGuest);
    }
    if !is_sound(s, t) {
        return Err(Refusal::Unsound);
    }
    Ok(())
}
