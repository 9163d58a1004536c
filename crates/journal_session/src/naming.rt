// The configuration that a journal names, and the start.
ghost use Rattle.std.specs.Prelude.{◌≡◌, cond, ◌<◌};
ghost use Rattle.rules.specs.Sizes.{max_guests, max_endpoints, max_regions};
ghost use Rattle.rules.specs.State.{config_of};
ghost use Rattle.rules.specs.Device.{set_up};
ghost use Rattle.refinement.specs.Flat.{device};
ghost use Rattle.state_fields.specs.Fields.{with_settings, with_regions};
ghost use Rattle.journal_session.specs.Naming.{guest_named, endpoint_named, region_put, region_taken, region_named, ranges_named};

use journal_records::{GuestFields, StartFields};
use rules::sizes::{
    ENDPOINT_REGION_WORDS, MAX_ENDPOINTS, MAX_REGIONS, REGION_PLACES, REGION_WORDS,
};
use rules::{Answer, Endpoint, Guest, Region, Settings, State};
use state_endpoints::index_of;
use state_regions::count_at;

// One guest more.
pub(crate) fn name_guest(s: &mut Settings, f: GuestFields)
    requires { s.old.guests < max_guests }
    ensures { s.new ≡ guest_named f s.old }
{
    let n = s.guests;
    s.shares[n] = f.share;
    s.firsts[n] = f.first;
    s.lasts[n] = f.last;
    s.guests = n + 1;
}

// One endpoint more.
pub(crate) fn name_endpoint(s: &mut State, e: Endpoint, g: Guest)
    requires { s.old.listed < max_endpoints }
    ensures { s.new ≡ endpoint_named e g s.old }
{
    let n = s.listed;
    s.endpoints[n] = e.0;
    s.owners[n] = g.0;
    s.listed = n + 1;
}

// The region as region j of the endpoint at place i, and its last.
fn put_region(regions: &mut [u64; REGION_PLACES], i: usize, j: usize, q: Region)
    requires { (i < max_endpoints) × (j < max_regions) }
    ensures { regions.new ≡ region_put i j q regions.old }
{
    let count = ENDPOINT_REGION_WORDS * i;
    let first = count + (REGION_WORDS * j + 1);
    regions[count] = (j + 1) as u64;
    regions[first] = q.subtype;
    regions[first + 1] = q.start;
    regions[first + 2] = q.end;
}

// One region more, after those that its endpoint has, if that is named and has not all its regions. Says whether it is.
pub(crate) fn name_region(s: &mut State, e: Endpoint, q: Region) -> bool
    ensures taken { result ≡ region_taken s.old.listed s.old.endpoints s.old.regions e }
    ensures named { s.new ≡ cond result (with_regions (region_named s.old.listed s.old.endpoints s.old.regions e q) s.old) s.old }
{
    let i = index_of(s.listed, &s.endpoints, e);
    if i >= s.listed.min(MAX_ENDPOINTS) {
        return false;
    }
    let j = count_at(&s.regions, i);
    if j >= MAX_REGIONS {
        return false;
    }
    put_region(&mut s.regions, i, j, q);
    true
}

// The settings get the mask and the ranges that a start names.
fn name_ranges(s: &mut Settings, f: StartFields)
    ensures { s.new ≡ ranges_named f s.old }
{
    s.mask = f.mask;
    s.input = f.input;
    s.domains = f.domains;
}

// Set-up with the configuration named so far.
pub fn start(s: &mut State, t: &mut [u64], f: StartFields) -> Answer
    ensures { record { answer = result; device = device s.new t.new } ≡ set_up (config_of (with_settings (ranges_named f s.old.settings) s.old)) t.old }
{
    name_ranges(&mut s.settings, f);
    let n = s.listed.min(MAX_ENDPOINTS);
    let m = ENDPOINT_REGION_WORDS * n;
    let given = call_setup::set_up(
        s.settings,
        &s.endpoints[..n],
        &s.owners[..n],
        &s.regions[..m],
        t,
    );
    *s = given.state;
    given.answer
}
