// The test that a state and a table are sound, and the test before a guest's job.
#![tactic(auto)]

mod checking;

ghost use Rattle.std.specs.Prelude.{◌≡◌, ℕ, ◌≤◌, true, length};
ghost use Rattle.laws.specs.Lists.{every?};
ghost use Rattle.rules.specs.Sizes.{max_guests};
ghost use Rattle.rules.specs.Configuration.{window_last, good_settings};
ghost use Rattle.rules.specs.Sound.{frame_tests, sound};
ghost use Rattle.rules.specs.State.{Lengths};
ghost use Rattle.sound.specs.Assembled.{device_of};

pub use checking::check_job;
use config_endpoints::good_lists;
use config_regions::good_regions;
use config_settings::good_settings;
use rules::sizes::{ENDPOINT_REGION_WORDS, MAX_ENDPOINTS, MAX_RECORDS, RECORD_WORDS, TABLE_WORDS};
use rules::{Settings, State};
use sound_logs::faults_good;
use sound_places::places_good;
use sound_records::records_good;
use sound_regions::regions_good;
use sound_zeros::zero_from;

// Whether the settings are good; and, for whoever calls, what the types of their arrays fix.
fn settings_good(settings: Settings) -> bool
    ensures value { result ≡ good_settings settings }
    ensures lengths { (length settings.shares ≡ max_guests) × (length settings.firsts ≡ max_guests) × (length settings.lasts ≡ max_guests) }
    ensures by_index { (i : ℕ) → window_last settings i ≤ 18446744073709551615 }
{
    good_settings(settings)
}

// Whether the table has its length, the records and the endpoints have places, and lists and regions are good, where the settings
// are known to be.
fn frame_good(s: &State, t: &[u64]) -> bool
    requires { good_settings s.now.settings ≡ true }
    ensures { result ≡ every? (frame_tests (device_of s.now t.now)) }
{
    if t.len() != TABLE_WORDS {
        return false;
    }
    if s.live > MAX_RECORDS {
        return false;
    }
    if s.listed > MAX_ENDPOINTS {
        return false;
    }
    if !good_lists(s.settings, s.listed, &s.endpoints, &s.owners) {
        return false;
    }
    let end = ENDPOINT_REGION_WORDS * s.listed;
    good_regions(s.listed, &s.regions[..end])
}

// Whether every test of soundness passes, where the settings are known to be good.
fn tests_pass(s: &State, t: &[u64]) -> bool
    requires { good_settings s.now.settings ≡ true }
    ensures { result ≡ sound (device_of s.now t.now) }
{
    if !frame_good(s, t) {
        return false;
    }
    if !places_good(s) {
        return false;
    }
    if !faults_good(s) {
        return false;
    }
    if !zero_from(t, RECORD_WORDS * s.live) {
        return false;
    }
    if !records_good(s, t) {
        return false;
    }
    regions_good(s, t)
}

// Whether state and table are sound; and, for whoever calls, what the types of the state's arrays and of the window ends fix.
pub fn is_sound(s: &State, t: &[u64]) -> bool
    ensures value { result ≡ sound (device_of s.now t.now) }
    ensures lengths { Lengths s.now }
    ensures by_index { (i : ℕ) → window_last s.now.settings i ≤ 18446744073709551615 }
{
    settings_good(s.settings) && tests_pass(s, t)
}
