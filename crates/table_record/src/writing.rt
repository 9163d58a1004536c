// One record written.
ghost use Rattle.std.specs.Prelude.{◌≡◌, ◌++◌, ◌+◌, ◌≤◌, length, set};
ghost use Rattle.rules.specs.Sizes.{record_words};
ghost use Rattle.rules.specs.Table.{records, words};
ghost use Rattle.table_record.specs.Records.{spare};
ghost use Rattle.table_record.specs.Stored.{stored};

use rules::Mapping;
use rules::sizes::RECORD_WORDS;

// The words with r in the five from at on.
fn store(t: &mut [u64], at: usize, r: Mapping)
    requires { at + record_words ≤ length t.old }
    ensures { t.new ≡ stored t.old at r }
{
    t[at] = r.key;
    t[at + 1] = r.start;
    t[at + 2] = r.end;
    t[at + 3] = r.phys;
    t[at + 4] = r.flags;
}

// The table with r as record i, where it has one.
pub fn write(t: &mut [u64], i: usize, r: Mapping)
    ensures { t.new ≡ words (set (records t.old) i r) ++ spare t.old }
{
    if i < t.len() / RECORD_WORDS {
        store(t, RECORD_WORDS * i, r);
    }
}
