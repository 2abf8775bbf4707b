// Edges that no file can show: blocks at far indices, lines that are refused, and events on a state that is not
// sound.
ghost use Rattle.std.specs.Prelude.{◌<◌, ◌≤◌};
ghost use Rattle.lines.specs.Buffers.{line_limit};

use crate::page_calls::event_block;
use crate::printed;
use crate::reporting::{LENT, end_row, print_line};
use blocks::Block;
use input::Event;
use numbers::Refusal;
use protocol::{State, Task};
use std::io;

// A buffer that is long enough for a line, and one that is not.
const ENOUGH: usize = lines::LIMIT;

const SHORT: usize = lines::LIMIT - 1;

// Prints the number that a call returned.
fn tell(rt: &impl Print, call: u64, number: u8) -> io::Result<()> {
    println!(rt; "call {call} {number}")
}

// Has a line written into a buffer of `room` bytes, and prints its number and length, and how many bytes of the
// buffer were written.
fn tell_line<F: FnOnce(&mut [u8]) -> Result<usize, Refusal>>(
    rt: &impl Print,
    call: u64,
    room: usize,
    write: F,
) -> io::Result<()>
    requires room { room ≤ line_limit }
    requires callable { F.IsAlwaysCallable write }
{
    let mut out = [LENT; lines::LIMIT];
    let line = write(&mut out[..room]);
    print!(rt; "call {call}")?;
    print_line(rt, line, &out)?;
    end_row(rt)
}

// The first line, an event's line and a task's line: of a state that is sound, or is not.
fn state_lines(rt: &impl Print, call: u64, state: State, t: u8, room: usize) -> io::Result<()>
    requires { (call < 1000) × (room ≤ line_limit) }
{
    tell_line(rt, call, room, |out| lines::first_line(state, out))?;
    tell_line(
        rt,
        call + 1,
        room,
        |out| lines::event_line(state, 1, 0, out),
    )?;
    tell_line(rt, call + 2, room, |out| lines::task_line(state, t, out))
}

// The lines that need no state.
fn plain_lines(rt: &impl Print, call: u64, room: usize) -> io::Result<()>
    requires { (call < 1000) × (room ≤ line_limit) }
{
    tell_line(
        rt,
        call,
        room,
        |out| lines::block_line(Block::LAST_INDEX + 1, 32, out),
    )?;
    tell_line(rt, call + 1, room, |out| lines::setup_line(5, out))?;
    tell_line(
        rt,
        call + 2,
        room,
        |out| lines::places_line(12, 2, &[19, 0, 0, 2, 255], out),
    )?;
    tell_line(
        rt,
        call + 3,
        room,
        |out| lines::totals_line(31, [u32::MAX; Task::TOTALS], out),
    )
}

// The verdict on a block of one event with this number, at an index.
fn tell_verdict(rt: &impl Print, call: u64, number: u16, index: u64) -> io::Result<()> {
    let verdict = blocks::judge_block(&event_block(number), index);
    tell(rt, call, numbers::answer_of(&verdict))
}

// An event of no kind, on a state that is sound, or is not.
fn tell_answers(rt: &impl Print, call: u64, state: State) -> io::Result<()>
    requires { call < 1000 }
{
    tell(
        rt,
        call,
        numbers::answer_of(&locking::judge_event(state, Event::NONE)),
    )?;
    tell(
        rt,
        call + 1,
        numbers::answer_of(&locking::step(state, Event::NONE)),
    )?;
    let mut written = [0u8; 2 * State::SNAPSHOT];
    locking::play(state, &[0u8; 2 * Event::SIZE], &mut written);
    tell(rt, call + 2, written[0])?;
    tell(rt, call + 3, written[State::SNAPSHOT])
}

// All calls, numbered from 1.
pub fn run_all(rt: &impl Print) -> io::Result<()> {
    let sound = printed::state_on(2);
    let empty = printed::state_on(0);
    state_lines(rt, 1, sound, 2, ENOUGH)?;
    state_lines(rt, 4, sound, 2, SHORT)?;
    state_lines(rt, 7, sound, 3, ENOUGH)?;
    state_lines(rt, 10, sound, 3, SHORT)?;
    state_lines(rt, 13, empty, 2, ENOUGH)?;
    state_lines(rt, 16, empty, 3, SHORT)?;
    plain_lines(rt, 19, ENOUGH)?;
    plain_lines(rt, 23, SHORT)?;
    tell_verdict(rt, 27, 65535, 65535)?;
    tell_verdict(rt, 28, 0, 65536)?;
    tell_verdict(rt, 29, 1, 65536)?;
    tell_verdict(rt, 30, 16959, 999999)?;
    tell_verdict(rt, 31, 16960, 1000000)?;
    tell_answers(rt, 32, sound)?;
    tell_answers(rt, 36, empty)
}
