// The reader of block files: a block's check, the verdict on it, and its used part.
#![tactic(auto)]

mod checking;
mod judging;
mod kinds;

pub use checking::check_of;
pub use judging::{judge_block, used_part};
pub use kinds::BlockKind;

// The layout and the limits of a block. Its bytes are always lent, as a slice.
#[derive(Clone, Copy)]
pub struct Block {}

impl Block {
    // Where each part of a block is, and its size.
    pub const KIND_AT: usize = 2;

    pub const COUNT_AT: usize = 3;

    pub const PAYLOAD_AT: usize = 4;

    pub const CHECK_AT: usize = 508;

    pub const SIZE: usize = 512;
    // The last index that a block may have, and how many numbers there are: a block's number is its index modulo
    // this.
    pub const LAST_INDEX: u64 = 999999;

    pub const NUMBERS: u64 = 65536;
    // The numbers of the kinds of block in the format, which the code goes by as `BlockKind`; and the most events in
    // one.
    pub const SETUP: u8 = 1;

    pub const EVENTS: u8 = 2;

    pub const MOST_EVENTS: u8 = 84;
}

// The two sums of a block's check.
#[derive(Clone, Copy, PartialEq, Eq)]
pub struct Check {
    pub first: u32,
    pub second: u32,
}
