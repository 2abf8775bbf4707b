// The block of events, and the events of a block that was read.
ghost use Rattle.std.specs.Prelude.{◌≡◌, ◌<◌};
ghost use Rattle.numbers.specs.Rows.{first_of};
ghost use Rattle.numbers.specs.Answers.{answer_of};
ghost use Rattle.blocks.specs.Sizes.{payload_size, most_events};
ghost use Rattle.writer.specs.EventBlocks.{event_of, events_byte, events_payload, event_rows, events_written, events_read};

use crate::Events;
use crate::sealing::{PAYLOAD, check_room, head_of, put_block};
use blocks::{Block, BlockKind};
use input::Event;
use numbers::Refusal;
use std::array;

impl Events {
    // The `i`-th event; from the count on there is none.
    #[tactic(auto, unfolding(crate::specs::EventBlocks::event_of))]
    fn at(&self, i: usize) -> Event
        requires { i < most_events }
        ensures { result ≡ event_of self.now i }
    {
        if i < self.count {
            self.of[i]
        } else {
            Event::NONE
        }
    }

    // The byte at place `i` of the payload.
    #[tactic(auto, unfolding(crate::specs::EventBlocks::events_byte))]
    fn byte(&self, i: usize) -> u8
        requires { i < payload_size }
        ensures { result ≡ events_byte self.now i }
    {
        let bytes = input::event_bytes(self.at(i / Event::SIZE));
        bytes[i % Event::SIZE]
    }

    // The payload.
    fn payload(&self) -> [u8; PAYLOAD]
        ensures { result ≡ events_payload self.now }
    {
        array::from_fn(|i| self.byte(i))
    }

    // The first of 34 and 32 that applies to these events as block `index`.
    #[tactic(auto, unfolding(crate::specs::EventBlocks::event_rows))]
    fn judge(&self, index: u64) -> Result<(), Refusal>
        ensures { answer_of result ≡ first_of (event_rows self.now index) }
    {
        if self.count < 1 || Events::MOST < self.count {
            return Err(Refusal::RecordCountWrong);
        }
        if index == 0 || Block::LAST_INDEX < index {
            return Err(Refusal::NumberWrong);
        }
        Ok(())
    }
}

// Writes the counted events into a lent block, as block `index` of a file. On a refusal, the first that applies, the
// block stays as lent.
#[tactic(auto, unfolding(crate::specs::EventBlocks::events_written))]
pub fn write_events(events: Events, index: u64, out: &mut [u8]) -> Result<(), Refusal>
    ensures { (answer_of result, out.new) ≡ events_written events index out.old }
{
    check_room(out)?;
    events.judge(index)?;
    let head = head_of(index, BlockKind::Events, events.count as u8);
    put_block(out, head, events.payload());
    Ok(())
}

// The events of an event part, with their count.
pub fn events_from(part: &[u8]) -> Events
    ensures { result ≡ events_read part.now }
{
    Events {
        of: array::from_fn(|i| input::event_at(part, i)),
        count: input::event_count(part),
    }
}
