// A journal that a program reads piece by piece into a block, and whose lines it writes from a buffer.
#![tactic(auto)]

ghost use Rattle.std.specs.Prelude.{◌≡◌, ◌+◌, min, length, if◌then◌else◌};
ghost use Rattle.journal_text.specs.Placing.{line_room, written, written_count};
ghost use Rattle.journal_line_plain.specs.Plain.{last_line};
ghost use Rattle.journal_blocks.specs.Advances as advances;
ghost use Rattle.journal_blocks.specs.Advances.{Leaves};

use journal_rest::keep_rest;
use journal_run::play::play;
use journal_session::session;
use journal_session::session::Session;

// How far a journal has come: where in it the first byte held stands, how many bytes are held at the front of the block, and
// whether more are wanted behind them before the next advance.
#[derive(Clone, Copy)]
pub struct Progress {
    pub session: Session,
    pub offset: u64,
    pub held: usize,
    pub wants: bool,
}

// What an advance leaves beside the progress: how many bytes at the front of the buffer are to be written, and whether they are
// the last.
#[derive(Clone, Copy)]
pub struct Advanced {
    pub printed: usize,
    pub finished: bool,
}

// Before the first byte.
pub fn beginning() -> Progress
    ensures { result ≡ advances.beginning }
{
    Progress {
        session: session::fresh(),
        offset: 0,
        held: 0,
        wants: true,
    }
}

// The bytes held with those read behind them, as far as a block goes.
fn held_with(held: usize, got: usize, len: usize) -> usize
    ensures { result ≡ min (held + got) len }
{
    held.saturating_add(got).min(len)
}

// Puts the last line where the journal is over, with `left` bytes left at this offset; else the lines of n bytes stay.
fn put_over(out: &mut [u8], over: bool, left: usize, offset: u64, n: usize) -> usize
    ensures { (result ≡ (if over then written_count line_room 0 (last_line left offset) out.old else n)) × (out.new ≡ (if over then written line_room 0 (last_line left offset) out.old else out.old)) }
{
    if over {
        return journal_line_plain::put_last(out, left, offset);
    }
    n
}

// One advance, after `got` bytes were read behind those held: 0 where none were wanted, or the journal has ended. The whole records
// held are worked, as far as there is room for their lines, and what is left moves to the front. Where no record is worked,
// more bytes are wanted, or the journal is over and its last line is put.
pub fn advance(
    p: &mut Progress,
    t: &mut [u64],
    block: &mut [u8],
    out: &mut [u8],
    got: usize,
) -> Advanced
    ensures { Leaves p.new result t.new block.new out.old out.new (advances.advance (length out.old) p.old t.old block.old got) }
{
    let held = held_with(p.held, got, block.len());
    let x = play(&mut p.session, t, &block[..held], out);
    let still = x.read == 0;
    let over = still & (x.bad | (p.wants & (got == 0)));
    p.held = keep_rest(block, x.read, held);
    p.offset = p.offset.wrapping_add(x.read as u64);
    p.wants = still;
    let printed = put_over(out, over, p.held, p.offset, x.printed);
    Advanced {
        printed,
        finished: over,
    }
}
