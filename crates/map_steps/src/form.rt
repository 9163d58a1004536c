// Steps 2 to 6 of MAP for a record.
ghost use Rattle.std.specs.Prelude.{◌≡◌, ◌&&◌, ◌||◌, ◌+◌, ◌-◌, leb, ltb};
ghost use Rattle.rules.specs.Failures.{outcome_status};
ghost use Rattle.rules.specs.Handlers.{status_of, aligned, form_steps};
ghost use Rattle.map_steps.specs.Forms.{limits_of, form_good};

use crate::limits::Limits;
use rules::Mapping;
use rules::requests::Failure;
use rules::sizes::TOP_ADDRESS;

// The highest flags that a record may have.
const TOP_FLAGS: u64 = 3;

// Whether start and phys are multiples of the mask's lowest set bit, and end one less than a multiple; where no bit is set,
// whether start and phys are the first address there is, and end the last.
fn aligned(mask: u64, start: u64, phys: u64, end: u64) -> bool
    ensures { result ≡ (aligned mask start && (aligned mask phys && aligned mask (end + 1))) }
{
    if mask == 0 {
        return (start == 0) & ((phys == 0) & (end == TOP_ADDRESS));
    }
    let g = 1u64 << u64::trailing_zeros(mask);
    (start % g == 0) & ((phys % g == 0) & (end % g == g - 1))
}

// Whether the addresses from phys on, as many as from start to end, lie in the window from first to last; false where there
// are none from start to end.
fn in_window(first: u64, last: u64, phys: u64, start: u64, end: u64) -> bool
    ensures { result ≡ (leb start end && (leb first phys && leb (phys + end - start) last)) }
{
    if end < start {
        return false;
    }
    if last < phys {
        return false;
    }
    (first <= phys) & (end - start <= last - phys)
}

// Refuses a record that fails one of steps 2 to 6 of MAP, with the status of the first that fails.
#[tactic(auto, unfolding(rules::specs::Handlers::form_steps, rules::specs::Handlers::outside))]
pub fn check_form(limits: &Limits, r: Mapping) -> Result<(), Failure>
    ensures { outcome_status result ≡ status_of (form_steps (limits_of limits.now) r) }
{
    if r.flags > TOP_FLAGS {
        return Err(Failure::Inval);
    }
    if r.end <= r.start {
        return Err(Failure::Range);
    }
    if !aligned(limits.mask, r.start, r.phys, r.end) {
        return Err(Failure::Range);
    }
    if (r.start < limits.input.start) | (limits.input.end < r.end) {
        return Err(Failure::Range);
    }
    if !in_window(limits.first, limits.last, r.phys, r.start, r.end) {
        return Err(Failure::Fault);
    }
    Ok(())
}

// Whether steps 2 to 6 of MAP pass.
#[tactic(auto, unfolding(crate::specs::Forms::form_good, rules::specs::Handlers::form_steps))]
pub(crate) fn form_good(limits: &Limits, r: Mapping) -> bool
    ensures { result ≡ form_good limits.now r }
{
    check_form(limits, r).is_ok()
}

// Whether steps 2 to 6 of MAP pass for the first record of a domain, which comes after the domain of key, or is the
// first record of all.
pub fn opens(limits: &Limits, start: bool, key: u64, r: Mapping) -> bool
    ensures { result ≡ (form_good limits.now r && (start || ltb key r.key)) }
{
    form_good(limits, r) & (start | (key < r.key))
}
