// Blocks that are written: those of the files again, and by call those that no file has, and those that are refused.
ghost use Rattle.std.specs.Prelude.{◌≤◌};

use crate::printed;
use crate::reporting::{LENT, changed, end_row, print_answer, print_flag, print_number};
use blocks::Block;
use input::{Event, Setup};
use numbers::Refusal;
use std::io;
use writer::Events;

// A byte more than a block has.
const ROOM: usize = Block::SIZE + 1;

// An event in which no two bytes are the same.
const MIXED: Event = Event {
    kind: 1,
    task: 2,
    resource: 3,
    tick: 1284,
};

// An event in which each number is the largest.
const LARGEST: Event = Event {
    kind: 255,
    task: 255,
    resource: 255,
    tick: 65535,
};

// Whether the writer accepts what was read of a block, and writes that block again byte for byte.
fn is_again<F: FnOnce(&mut [u8]) -> Result<(), Refusal>>(block: &[u8], write: F) -> bool
    requires { F.IsAlwaysCallable write }
{
    let mut out = [LENT; Block::SIZE];
    write(&mut out).is_ok() && out.as_slice() == block
}

// Whether a block is read at its index and written again byte for byte. Nothing is read of one that the reader
// refuses, and the writer refuses that.
pub fn is_written_again(block: &[u8], index: u64) -> bool {
    let part = blocks::used_part(block, blocks::judge_block(block, index).ok());
    if index == 0 {
        is_again(
            block,
            |out| writer::write_setup(input::setup_from(part), out),
        )
    } else {
        is_again(
            block,
            |out| writer::write_events(writer::events_from(part), index, out),
        )
    }
}

// Four bytes from a place on.
fn print_four(rt: &impl Print, out: &[u8; ROOM], from: usize) -> io::Result<()>
    requires { from ≤ 508 }
{
    for byte in &out[from..from + 4] {
        print_answer(rt, *byte)?;
    }
    Ok(())
}

// Prints the answer and how many bytes were written; of a written block also its head, its check, and whether it is
// written again once it is read.
fn print_written(
    rt: &impl Print,
    written: Result<(), Refusal>,
    out: &[u8; ROOM],
    index: u64,
) -> io::Result<()> {
    print_answer(rt, numbers::answer_of(&written))?;
    print_number(rt, changed(out, 0))?;
    if written.is_ok() {
        print_four(rt, out, 0)?;
        print_four(rt, out, Block::CHECK_AT)?;
        print_flag(rt, is_written_again(&out[..Block::SIZE], index))?;
    }
    end_row(rt)
}

// Writes a set-up into `room` bytes, and prints the result.
fn tell_setup(rt: &impl Print, setup: Setup, room: usize) -> io::Result<()>
    requires { room ≤ 513 }
{
    let mut out = [LENT; ROOM];
    let written = writer::write_setup(setup, &mut out[..room]);
    print!(rt; "write set-up")?;
    print_written(rt, written, &out, 0)
}

// Writes the first `count` of events that are all `e` but for the mixed one in front, and prints the result.
fn tell_events(rt: &impl Print, e: Event, count: usize, index: u64, room: usize) -> io::Result<()>
    requires { room ≤ 513 }
{
    let mut of = [e; Events::MOST];
    of[0] = MIXED;
    let mut out = [LENT; ROOM];
    let written = writer::write_events(Events { of, count }, index, &mut out[..room]);
    print!(rt; "write events")?;
    print_written(rt, written, &out, index)
}

// The set-up with the fault that has this refusal; with none, without any. No other refusal is of a set-up.
fn faulty(refusal: Option<Refusal>) -> Setup {
    let mut setup = printed::busy_setup();
    match refusal {
        Some(Refusal::CountOutside) => setup.processors = usize::MAX,
        Some(Refusal::PeriodZero) => setup.periods[2] = 0,
        Some(Refusal::KindUnknown) => setup.kinds[1] = 2,
        Some(Refusal::PairStray) => setup.outer[0] = 2,
        Some(Refusal::LongInShort) => {
            setup.kinds[0] = Setup::LONG;
            setup.kinds[1] = Setup::SHORT;
        }
        _ => (),
    }
    setup
}

// The set-up, of 3 tasks, 2 resources and a pair, with a number in the first and the last place past each count.
fn past_counts() -> Setup {
    let mut setup = printed::busy_setup();
    setup.periods[3] = 9;
    setup.kinds[2] = 9;
    setup.outer[1] = 9;
    setup.inner[1] = 9;
    setup.periods[Setup::TASKS - 1] = 9;
    setup.kinds[Setup::RESOURCES - 1] = 9;
    setup.outer[Setup::PAIRS - 1] = 9;
    setup.inner[Setup::PAIRS - 1] = 9;
    setup
}

// Prints what comes back of the first of these numbers.
fn tell_past_counts(rt: &impl Print) -> io::Result<()> {
    let mut out = [LENT; Block::SIZE];
    print!(rt; "past counts")?;
    let written = writer::write_setup(past_counts(), &mut out);
    print_answer(rt, numbers::answer_of(&written))?;
    let back = input::setup_from(blocks::used_part(&out, blocks::judge_block(&out, 0).ok()));
    print_number(rt, back.periods[3] as u64)?;
    print_answer(rt, back.kinds[2])?;
    print_answer(rt, back.outer[1])?;
    print_answer(rt, back.inner[1])?;
    end_row(rt)
}

// A set-up with every place in use.
fn full() -> Setup {
    Setup {
        processors: Setup::PROCESSORS,
        tasks: Setup::TASKS,
        resources: Setup::RESOURCES,
        pairs: Setup::PAIRS,
        start: 16909060,
        periods: [1286; Setup::TASKS],
        kinds: [Setup::LONG; Setup::RESOURCES],
        outer: [8; Setup::PAIRS],
        inner: [9; Setup::PAIRS],
    }
}

// Set-ups that are written, and ones that are refused.
fn tell_setups(rt: &impl Print) -> io::Result<()> {
    tell_setup(rt, faulty(None), Block::SIZE)?;
    tell_setup(rt, past_counts(), Block::SIZE)?;
    tell_setup(rt, full(), Block::SIZE)?;
    tell_setup(rt, faulty(Some(Refusal::CountOutside)), Block::SIZE)?;
    tell_setup(rt, faulty(Some(Refusal::PeriodZero)), Block::SIZE)?;
    tell_setup(rt, faulty(Some(Refusal::KindUnknown)), Block::SIZE)?;
    tell_setup(rt, faulty(Some(Refusal::PairStray)), Block::SIZE)?;
    tell_setup(rt, faulty(Some(Refusal::LongInShort)), Block::SIZE)?;
    tell_setup(rt, faulty(Some(Refusal::CountOutside)), Block::SIZE - 1)?;
    tell_setup(rt, faulty(Some(Refusal::CountOutside)), Block::SIZE + 1)?;
    tell_setup(rt, faulty(Some(Refusal::CountOutside)), 0)?;
    tell_setup(rt, faulty(None), Block::SIZE - 1)?;
    tell_setup(rt, faulty(None), Block::SIZE + 1)
}

// Events that are written, and ones that are refused.
fn tell_event_blocks(rt: &impl Print) -> io::Result<()> {
    tell_events(rt, Event::NONE, 2, 1, Block::SIZE)?;
    tell_events(rt, LARGEST, 1, 1, Block::SIZE)?;
    tell_events(rt, LARGEST, Events::MOST, 65536, Block::SIZE)?;
    tell_events(rt, LARGEST, Events::MOST, Block::LAST_INDEX, Block::SIZE)?;
    tell_events(rt, LARGEST, 0, 1, Block::SIZE)?;
    tell_events(rt, LARGEST, Events::MOST + 1, 1, Block::SIZE)?;
    tell_events(rt, LARGEST, usize::MAX, 1, Block::SIZE)?;
    tell_events(rt, LARGEST, 1, 0, Block::SIZE)?;
    tell_events(rt, LARGEST, 1, Block::LAST_INDEX + 1, Block::SIZE)?;
    tell_events(rt, LARGEST, 1, u64::MAX, Block::SIZE)?;
    tell_events(rt, LARGEST, 0, 0, Block::SIZE)?;
    tell_events(
        rt,
        LARGEST,
        Events::MOST + 1,
        Block::LAST_INDEX + 1,
        Block::SIZE,
    )?;
    tell_events(rt, LARGEST, 0, 0, Block::SIZE - 1)?;
    tell_events(rt, LARGEST, 0, 1, Block::SIZE + 1)?;
    tell_events(rt, LARGEST, 1, 0, 0)
}

// All set-ups and events.
pub fn run_all(rt: &impl Print) -> io::Result<()> {
    tell_setups(rt)?;
    tell_past_counts(rt)?;
    tell_event_blocks(rt)
}
