// The writer of block files: a set-up or up to 84 events into a lent block, which the reader reads back.
#![tactic(auto)]

mod event_blocks;
mod sealing;
mod setup_blocks;

use blocks::Block;
pub use event_blocks::{events_from, write_events};
use input::Event;
pub use setup_blocks::write_setup;

// The events of one block. Places past the count are not read. There is no heap, and any count gets an answer
// (`events_written`), so the count stands beside the events.
#[derive(Clone, Copy)]
pub struct Events {
    pub of: [Event; Events::MOST],
    pub count: usize,
}

impl Events {
    // The most events in a block.
    pub const MOST: usize = Block::MOST_EVENTS as usize;
}
