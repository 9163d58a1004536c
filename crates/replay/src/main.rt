// Replays a journal from standard input and prints its lines: reads, lets `crates/journal_blocks` advance, writes.
#![tactic(auto)]

use journal_blocks::{Progress, advance, beginning};
use rules::sizes::TABLE_WORDS;
use std::io;
use std::io::{Read, Write};
use std::rt::{Stdin, Stdout};

// How many bytes of the journal, and of its lines, a round holds.
const BLOCK_SIZE: usize = 65536;

// Prints a buffer's first n bytes, at most all of them.
fn print(mut to: Stdout, out: &[u8], n: usize) -> io::Result<()> {
    let k = n.min(out.len());
    to.write_all(&out[..k])
}

// Reads behind the bytes held, where more are wanted, and gives how many were read; 0 where none are.
fn read_more(mut from: Stdin, wants: bool, block: &mut [u8], held: usize) -> io::Result<usize> {
    if !wants {
        return Ok(0);
    }
    if held > block.len() {
        return Ok(0);
    }
    from.read(&mut block[held..])
}

// One round: reads where bytes are wanted, advances, and writes what that put. Says whether it was the last. Where reading fails,
// nothing is printed; where lines can't be written, none may follow.
fn go_on(
    from: Stdin,
    to: Stdout,
    p: &mut Progress,
    table: &mut [u64],
    block: &mut [u8],
    out: &mut [u8],
) -> io::Result<bool> {
    let got = read_more(from, p.wants, block, p.held)?;
    let x = advance(p, table, block, out, got);
    print(to, out, x.printed)?;
    Ok(x.finished)
}

// Works the journal to its end. A proved loop has to end, so it counts to a number that no journal uses up.
fn replay_all(
    from: Stdin,
    to: Stdout,
    table: &mut [u64],
    block: &mut [u8],
    out: &mut [u8],
) -> io::Result<()> {
    let mut p = beginning();
    for _ in 0..u64::MAX {
        if go_on(from, to, &mut p, table, block, out)? {
            break;
        }
    }
    Ok(())
}

fn main(rt: HostRuntime) -> io::Result<()> {
    let mut table = [0u64; TABLE_WORDS];
    let mut block = [0u8; BLOCK_SIZE];
    let mut out = [0u8; BLOCK_SIZE];
    replay_all(rt.stdin(), rt.stdout(), &mut table, &mut block, &mut out)
}
