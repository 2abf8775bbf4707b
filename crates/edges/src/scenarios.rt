// Lines of scenarios: what becomes of each, and whether a block is written.
use crate::reporting::{LENT, changed, end_row, print_flag};
use blocks::Block;
use scenario::{Draft, Item, Taken, Trouble};
use std::io;

// Words that are not as expected.
const BAD_WORDS: [&[u8]; 11] = [
    b"tasks 5",
    b"task 65536",
    b"task # 5",
    b"task 1 2",
    b"start 4294967296",
    b"resource Short",
    b"pair 0 256",
    b"arrive 0 65530",
    b"pass @65536",
    b"event 1 2 -3 @4",
    b"event 1 2 3 @4 5",
];

// A set-up of two processors and a task, with events before it and items that come twice, which are faulty.
const SETUP: [&[u8]; 9] = [
    b"arrive 0 @65530",
    b"block",
    b"processors 2",
    b"processors 2",
    b"start 65530\r",
    b"start 0",
    b"",
    b"\t # task 5",
    b" task\t100#a remark",
];

// The first event ends the set-up; a block without events is not written.
const EVENTS: [&[u8]; 7] = [
    b"arrive 0 @65530",
    b"task 100",
    b"start 1",
    b"event 255 255 255 @00000000000000000000065535",
    b"block",
    b"block",
    b"pass @7",
];

// A pair of resources that do not exist: the set-up is refused, and again, as the draft stays as it was.
const REFUSED: [&[u8]; 5] = [
    b"processors 1",
    b"task 5",
    b"pair 0 1",
    b"pass @0",
    b"block",
];

// Takes an item, prints what became of it and whether a block was written, and returns the draft after it.
fn take_item(rt: &impl Print, draft: Draft, item: Item) -> io::Result<Draft> {
    let mut block = [LENT; Block::SIZE];
    let taken = scenario::take_item(draft, item, &mut block);
    print!(rt; "line")?;
    match taken {
        Ok(Taken::Kept(_)) => print!(rt; " kept")?,
        Ok(Taken::Written(_)) => print!(rt; " written")?,
        Err(Trouble::Faulty(reason)) => print!(rt; " faulty {reason}")?,
        Err(Trouble::Refused(refusal)) => print!(rt; " refused {}", u8::from(refusal))?,
    }
    print_flag(rt, changed(&block, 0) > 0)?;
    end_row(rt)?;
    match taken {
        Ok(Taken::Kept(after) | Taken::Written(after)) => Ok(after),
        Err(_) => Ok(draft),
    }
}

// Takes lines, one after another.
fn take_all(rt: &impl Print, begun: Draft, lines: &[&[u8]]) -> io::Result<Draft> {
    let mut draft = begun;
    for line in lines {
        draft = take_item(rt, draft, scenario::read_line(line))?;
    }
    Ok(draft)
}

// One scenario with faulty lines, and one whose set-up is refused.
pub fn run_all(rt: &impl Print) -> io::Result<()> {
    let worded = take_all(rt, scenario::begin(), &BAD_WORDS)?;
    let set = take_all(rt, worded, &SETUP)?;
    let happened = take_all(rt, set, &EVENTS)?;
    take_item(rt, happened, Item::Block)?;
    let refused = take_all(rt, scenario::begin(), &REFUSED)?;
    take_item(rt, refused, Item::Block)?;
    Ok(())
}
