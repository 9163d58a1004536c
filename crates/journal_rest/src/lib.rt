// A block of a journal, as a program reads it.
#![tactic(auto)]

ghost use Rattle.std.specs.Prelude.{◌≡◌};
ghost use Rattle.journal_rest.specs.Blocks.{kept, kept_count};

// Of a block whose first `held` bytes are a journal's, those from place `from` on move to the front. Their number is given
// back; 0 where there are none, and the block stays.
#[tactic(auto, unfolding(crate::specs::Blocks::kept, crate::specs::Blocks::kept_count))]
pub fn keep_rest(block: &mut [u8], from: usize, held: usize) -> usize
    ensures { (result ≡ kept_count from held block.old) × (block.new ≡ kept from held block.old) }
{
    if block.len() < held {
        return 0;
    }
    if held < from {
        return 0;
    }
    let n = held - from;
    block.copy_within(from..held, 0);
    n
}
