// The records of one domain, which stand one after another.
ghost use Rattle.std.specs.Prelude.{◌≡◌, ◌+◌, take, drop};
ghost use Rattle.rules.specs.Table.{records};
ghost use Rattle.map_steps.specs.Forms.{form_good, run};

use crate::form::form_good;
use crate::limits::Limits;

// The place at which the records from place `from` on no longer go on with a domain: each is of its key, stands past the
// end of the one before, and passes steps 2 to 6 of MAP.
pub fn run_end(t: &[u64], from: usize, live: usize, limits: &Limits, key: u64, end: u64) -> usize
    ensures { result ≡ from + run (form_good limits.now) key end (drop from (take live (records t.now))) }
{
    let n = table_record::bounded(t, live);
    if n <= from {
        return from;
    }
    let mut before = end;
    // By place: a record is five words of the table, which its place finds.
    for i in from..n {
        let r = table_record::get(t, i);
        if r.key != key {
            return i;
        }
        if r.start <= before {
            return i;
        }
        if !form_good(limits, r) {
            return i;
        }
        before = r.end;
    }
    n
}
