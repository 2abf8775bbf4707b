// Pages of sessions by call: at the largest numbers, when the output is over, and into a buffer that is too short.
ghost use Rattle.std.specs.Prelude.{◌≤◌};
ghost use Rattle.pages.specs.Pages.{page_limit};

use crate::printed;
use crate::reporting::{
    LENT, changed, end_row, print_answer, print_first_line, print_flag, print_number,
};
use blocks::Block;
use input::Event;
use pages::{Engine, Page, Session};
use std::io;

// A block of that number with one event: time passes to tick 9.
pub fn event_block(number: u16) -> [u8; Block::SIZE] {
    let mut block = [0u8; Block::SIZE];
    block[..2].copy_from_slice(&number.to_le_bytes());
    block[Block::KIND_AT] = Block::EVENTS;
    block[Block::COUNT_AT] = 1;
    block[Block::PAYLOAD_AT] = Event::PASSING;
    block[Block::PAYLOAD_AT + 4] = 9;
    let check = blocks::check_of(&block);
    let second_at = Block::CHECK_AT + 2;
    block[Block::CHECK_AT..second_at].copy_from_slice(&check.first.to_le_bytes()[..2]);
    block[second_at..].copy_from_slice(&check.second.to_le_bytes()[..2]);
    block
}

// Prints the index and the events of the session after a page, whether the output is over, and whether the state is
// as before.
fn print_after(rt: &impl Print, before: Session, after: Session) -> io::Result<()> {
    print_number(rt, after.index)?;
    print_number(rt, after.events)?;
    print_flag(rt, after.over)?;
    print_flag(rt, after.state == before.state)
}

// Prints a text's length, how many bytes of its buffer were written, and its first line.
fn print_text(rt: &impl Print, out: &[u8], len: usize) -> io::Result<()> {
    print_number(rt, len as u64)?;
    print_number(rt, changed(out, 0))?;
    print_first_line(rt, out, len)
}

// Prints a page's number, the session after it, and its text. The buffer has `room` bytes. Where the page is refused,
// the session is the same and there is no text.
pub fn print_page(rt: &impl Print, session: Session, read: &[u8], room: usize) -> io::Result<()>
    requires { room ≤ page_limit }
{
    let mut out = [LENT; Page::LIMIT];
    let printed = pages::next_page(session, read, &mut out[..room], Engine::Locking);
    print_answer(rt, numbers::answer_of(&printed))?;
    let page = printed.unwrap_or(Page { session, len: 0 });
    print_after(rt, session, page.session)?;
    print_text(rt, &out, page.len)?;
    end_row(rt)
}

// Prints the pages of a block of one event, numbered 65,535, and of the input's end, for a session on the busy state.
fn tell_pages(rt: &impl Print, index: u64, events: u64, over: bool, room: usize) -> io::Result<()>
    requires { room ≤ page_limit }
{
    let state = printed::busy();
    let session = Session {
        index,
        events,
        over,
        state,
        refused: false,
    };
    let block = event_block(65535);
    print!(rt; "page block")?;
    print_page(rt, session, &block, room)?;
    print!(rt; "page end")?;
    print_page(rt, session, b"", room)
}

// The largest numbers, an output that is over, and short buffers.
pub fn run_all(rt: &impl Print) -> io::Result<()> {
    tell_pages(rt, u64::MAX, u64::MAX, false, Page::LIMIT)?;
    tell_pages(rt, 65535, u64::MAX, false, Page::LIMIT)?;
    tell_pages(rt, 65535, 5, true, Page::LIMIT)?;
    tell_pages(rt, 65535, 5, false, Page::LIMIT - 1)?;
    tell_pages(rt, u64::MAX, u64::MAX, true, Page::LIMIT - 1)
}
