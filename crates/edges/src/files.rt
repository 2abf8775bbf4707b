// Files of blocks: in the input each comes after its length, four bytes, little-endian.
ghost use Rattle.std.specs.Prelude.{◌≤◌, length};

use crate::engines;
use crate::engines::Both;
use crate::writing::is_written_again;
use blocks::Block;
use input::Setup;
use pages::{Engine, Page, Session};
use std::io;
use std::io::Read;

// More files than the input has.
const MOST_FILES: u64 = 1000;

// A walk through a file: its session, the same on both engines, and how many of its blocks so far were written again
// byte for byte.
#[derive(Clone, Copy)]
struct Walk {
    session: Session,
    again: u64,
    both: Both,
}

// Writes the page of what was read, and returns the session after it. The buffer is long enough for any page.
fn write_page(rt: &impl Print, session: Session, read: &[u8]) -> io::Result<Session> {
    let mut out = [0u8; Page::LIMIT];
    let page = pages::next_page(session, read, &mut out, Engine::Locking).unwrap_or(Page {
        session,
        len: 0,
    });
    rt.write_all(&out[..page.len])?;
    Ok(page.session)
}

// Both engines after a block that was accepted: what follows a refused one is not stepped through.
fn follow(both: Both, after: Session, read: &[u8], index: u64) -> Both {
    if after.over {
        return both;
    }
    let part = blocks::used_part(read, blocks::judge_block(read, index).ok());
    if index == 0 {
        engines::begin(input::setup_from(part))
    } else {
        engines::step_all(both, part)
    }
}

// The walk with what was read at an index: its page is written, and both engines go on.
fn go_on(rt: &impl Print, walk: Walk, read: &[u8], index: u64) -> io::Result<Walk> {
    let session = walk.session;
    let again = u64::from(is_written_again(read, index));
    let after = write_page(rt, session, read)?;
    let both = follow(walk.both, after, read, index);
    Ok(Walk {
        session: after,
        again: walk.again.wrapping_add(again),
        both: engines::with_page(both, session, read),
    })
}

// Reads until the buffer is full or the input ends, and returns how much was read. A read that fails ends it as the
// input's end does, and what was read before counts, which `streams::read_full` does not tell.
fn read_full(input: &mut impl Read, buffer: &mut [u8]) -> usize
    ensures { result ≤ length buffer.new }
{
    let mut len = 0;
    while len < buffer.len() {
        let got = input.read(&mut buffer[len..]).unwrap_or(0);
        if got == 0 {
            break;
        }
        len += got;
    }
    len
}

// Takes the block at an index of a file that has `left` bytes left: its last block may be shorter, and past its end
// nothing is read.
fn take_block_of(
    rt: &impl Print,
    input: &mut impl Read,
    walk: Walk,
    index: u64,
    left: usize,
) -> io::Result<Walk> {
    let mut block = [0u8; Block::SIZE];
    let wanted = left.min(Block::SIZE);
    let got = read_full(input, &mut block[..wanted]);
    go_on(rt, walk, &block[..got], index)
}

// Steps through a file of `len` bytes; what follows a refused block is read but not printed. At the end it prints how
// many of all its blocks were written again byte for byte, and in how much the engines agreed.
fn run_file(rt: &impl Print, input: &mut impl Read, len: usize) -> io::Result<()> {
    let mut walk = Walk {
        session: pages::begin(),
        again: 0,
        both: engines::begin(Setup::none()),
    };
    let mut left = len;
    let turns = len / Block::SIZE + 2;
    for index in 0..turns {
        walk = take_block_of(rt, input, walk, index as u64, left)?;
        left = left.saturating_sub(Block::SIZE);
    }
    println!(rt; "written again {}", walk.again)?;
    engines::tell(rt, walk.both)
}

// Steps through the next file; returns false at the input's end.
fn run_next(rt: &impl Print, input: &mut impl Read, number: u64) -> io::Result<bool> {
    let mut head = [0u8; 4];
    let got = read_full(input, &mut head);
    if got < 4 {
        return Ok(false);
    }
    println!(rt; "case {number}")?;
    run_file(rt, input, u32::from_le_bytes(head) as usize)?;
    Ok(true)
}

// Every file in the input.
pub fn run_all(rt: &impl Print, input: &mut impl Read) -> io::Result<()> {
    for number in 1..MOST_FILES {
        if !run_next(rt, input, number)? {
            break;
        }
    }
    Ok(())
}
