// A set-up and an event from bytes. A byte past the end reads 0.
ghost use Rattle.std.specs.Prelude.{◌≡◌, ◌+◌, ◌*◌, ◌<◌};
ghost use Rattle.input.specs.Layout.{byte, start_in, periods_in, kinds_in, side_in, setup_in, event_in, event_count};

use crate::{Event, Setup};
use std::array;

// The byte at place `i`; 0 past the end.
pub fn byte_at(part: &[u8], i: usize) -> u8
    ensures { result ≡ byte part.now i }
{
    search::entry(part, i, 0)
}

// Two bytes, little-endian.
pub fn word_of(low: u8, high: u8) -> u16
    ensures { result ≡ low + 256 * high }
{
    u16::from_le_bytes([low, high])
}

// The starting clock: four bytes, little-endian.
fn start_in(part: &[u8]) -> u32
    ensures { result ≡ start_in part.now }
{
    u32::from_le_bytes(array::from_fn(|i| byte_at(part, Setup::START_AT + i)))
}

// The period of each task.
fn periods_in(part: &[u8]) -> [u16; Setup::TASKS]
    ensures { result ≡ periods_in part.now }
{
    array::from_fn(|t| {
        let at = Setup::PERIODS_AT + 2 * t;
        word_of(byte_at(part, at), byte_at(part, at + 1))
    })
}

// The kind of each resource.
fn kinds_in(part: &[u8]) -> [u8; Setup::RESOURCES]
    ensures { result ≡ kinds_in part.now }
{
    array::from_fn(|r| byte_at(part, Setup::KINDS_AT + r))
}

// The outer resources of the pairs, or, with `side` 1, the inner ones: the side is what is added to a place, as in the
// definition.
fn side_in(part: &[u8], side: usize) -> [u8; Setup::PAIRS]
    requires { side < 2 }
    ensures { result ≡ side_in part.now side }
{
    array::from_fn(|i| byte_at(part, Setup::PAIRS_AT + 2 * i + side))
}

// The set-up in the used part of a block.
#[tactic(auto, unfolding(crate::specs::Layout::setup_in))]
pub fn setup_from(part: &[u8]) -> Setup
    ensures { result ≡ setup_in part.now }
{
    Setup {
        processors: usize::from(byte_at(part, 0)),
        tasks: usize::from(byte_at(part, 1)),
        resources: usize::from(byte_at(part, 2)),
        pairs: usize::from(byte_at(part, 3)),
        start: start_in(part),
        periods: periods_in(part),
        kinds: kinds_in(part),
        outer: side_in(part, 0),
        inner: side_in(part, 1),
    }
}

// How many whole events an event part holds.
#[tactic(auto, unfolding(crate::specs::Layout::event_count))]
pub fn event_count(part: &[u8]) -> usize
    ensures { result ≡ event_count part.now }
{
    part.len() / Event::SIZE
}

// The `i`-th event of an event part. The test is `<` and not `<=`, as an event that the part holds only in part is
// read too, what is missing reading 0. It only keeps the multiplication from overflowing: past it every byte reads 0,
// as in `Event::NONE`.
pub fn event_at(part: &[u8], i: usize) -> Event
    ensures { result ≡ event_in part.now i }
{
    if part.len() / Event::SIZE < i {
        return Event::NONE;
    }
    let at = Event::SIZE * i;
    Event {
        kind: byte_at(part, at),
        task: byte_at(part, at + 1),
        resource: byte_at(part, at + 2),
        tick: word_of(byte_at(part, at + 4), byte_at(part, at + 5)),
    }
}
