// The kinds of block: what each says of the records, of the filler and of the used part.
ghost use Rattle.std.specs.Prelude.{◌≡◌, ◌≤◌, ◌+◌, ◌*◌};
ghost use Rattle.search.specs.Words.{◌is◌};
ghost use Rattle.search.specs.Below.{all_below};
ghost use Rattle.input.specs.Layout.{event_size};
ghost use Rattle.blocks.specs.Sizes.{payload_size};
ghost use Rattle.blocks.specs.Kinds.{is_setup};
ghost use Rattle.blocks.specs.Verdicts.{kind_for, most_for, payload, is_blank, is_setup_filled, is_event_filled, is_filled, used_size};

use crate::Block;
use input::{Event, Setup};

// What a block holds: the set-up, or events.
#[derive(Clone, Copy, Debug, PartialEq, Eq)]
pub enum BlockKind {
    Setup,
    Events,
}

impl From<BlockKind> for u8 {
    ghost from_gives = { λ kind number. number ≡ kind_for (is_setup kind) };

    fn from(kind: BlockKind) -> u8 {
        match kind {
            BlockKind::Setup => Block::SETUP,
            BlockKind::Events => Block::EVENTS,
        }
    }
}

impl BlockKind {
    // The kind that the block at an index must have: the first is the set-up, all others are events.
    pub(crate) fn at(index: u64) -> BlockKind
        ensures { is_setup result ≡ (index is 0) }
    {
        if index == 0 {
            BlockKind::Setup
        } else {
            BlockKind::Events
        }
    }

    // The most records that a block may count.
    pub(crate) fn most_records(self) -> u8
        ensures { result ≡ most_for (is_setup self) }
    {
        match self {
            BlockKind::Setup => 1,
            BlockKind::Events => Block::MOST_EVENTS,
        }
    }

    // Reserve and filler are 0.
    pub(crate) fn is_filled(self, block: &[u8]) -> bool
        ensures { result ≡ is_filled block.now (is_setup self) }
    {
        match self {
            BlockKind::Setup => is_setup_filled(block),
            BlockKind::Events => is_event_filled(block),
        }
    }

    // The length of the used part.
    pub(crate) fn used_size(self, block: &[u8]) -> usize
        ensures { result ≡ used_size block.now (is_setup self) }
    {
        match self {
            BlockKind::Setup => Setup::SIZE,
            BlockKind::Events => Event::SIZE * usize::from(input::byte_at(block, Block::COUNT_AT)),
        }
    }
}

// The payload's bytes from `from` up to but not at `to` are 0. All of them are tested, as that takes less time than
// to stop at the first that is not.
fn is_blank(block: &[u8], from: usize, to: usize) -> bool
    requires { to ≤ payload_size }
    ensures { result ≡ is_blank block.now from to }
{
    (from..to).fold(true, |ok, i| {
        ok & (input::byte_at(block, Block::PAYLOAD_AT + i) == 0)
    })
}

// In a set-up block, table places past a count are 0, and so is all after the tables.
#[tactic(auto, unfolding(crate::specs::Verdicts::is_setup_filled))]
fn is_setup_filled(block: &[u8]) -> bool
    ensures { result ≡ is_setup_filled block.now }
{
    let tasks = usize::from(input::byte_at(block, Block::PAYLOAD_AT + 1));
    let resources = usize::from(input::byte_at(block, Block::PAYLOAD_AT + 2));
    let pairs = usize::from(input::byte_at(block, Block::PAYLOAD_AT + 3));
    is_blank(block, Setup::PERIODS_AT + 2 * tasks, Setup::KINDS_AT)
        && is_blank(block, Setup::KINDS_AT + resources, Setup::PAIRS_AT)
        && is_blank(block, Setup::PAIRS_AT + 2 * pairs, Setup::SIZE)
        && is_blank(block, Setup::SIZE, Block::CHECK_AT - Block::PAYLOAD_AT)
}

// The reserve byte of each of the counted records is 0.
fn is_reserve_blank(block: &[u8], count: u8) -> bool
    ensures { result ≡ all_below count (λ i. payload block.now (event_size * i + 3) is 0) }
{
    (0..usize::from(count)).all(|i| input::byte_at(block, Block::PAYLOAD_AT + Event::SIZE * i + 3)
        == 0)
}

// In an event block, each record's reserve byte is 0, and so is all after the records.
#[tactic(auto, unfolding(crate::specs::Verdicts::is_event_filled))]
fn is_event_filled(block: &[u8]) -> bool
    ensures { result ≡ is_event_filled block.now }
{
    let count = input::byte_at(block, Block::COUNT_AT);
    is_reserve_blank(block, count)
        && is_blank(
            block,
            Event::SIZE * usize::from(count),
            Block::CHECK_AT - Block::PAYLOAD_AT,
        )
}
