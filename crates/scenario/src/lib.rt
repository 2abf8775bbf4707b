// Scenarios: plain texts with one item a line, and the block files that they describe.
#![tactic(auto)]

mod drafts;
mod faults;
mod items;
mod reading;
mod setup_items;

pub use drafts::{begin, take_item};
pub use faults::{Reason, Sort, Trouble, UnknownReason};
use input::{Event, Setup};
pub use items::read_line;
use writer::Events;

// What a line of a scenario says. A wrong one has the number of a `Reason`, and no `Reason`, since `take_item` answers
// one with any number.
#[derive(Clone, Copy)]
pub enum Item {
    Blank,
    Processors(u32),
    Start(u32),
    Task(u16),
    Resource(u8),
    Pair(u8, u8),
    Happens(Event),
    Block,
    Wrong(u8),
}

// A file in the making: its set-up so far; whether its processors and its start are given; the index of the block
// being filled, 0 while the set-up is open; and the events of that block. The two flags stand beside the set-up, since
// `draft_by` and `taken` of specs/Drafts speak of these very fields.
#[derive(Clone, Copy)]
pub struct Draft {
    pub setup: Setup,
    pub sized: bool,
    pub started: bool,
    pub index: u64,
    pub events: Events,
}

// What became of an item that was taken: the draft keeps it, or has written a block into the lent buffer. Each with the
// draft after it.
#[derive(Clone, Copy)]
pub enum Taken {
    Kept(Draft),
    Written(Draft),
}
