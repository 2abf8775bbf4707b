// What a session is given: a set-up and events, by call or from bytes.
#![tactic(auto)]

mod events;
mod reading;
mod writing;

ghost use Rattle.std.specs.Prelude.{◌≡◌};
ghost use Rattle.input.specs.Words.{no_setup};

pub use events::{Kind, UnknownKind, fields_of};
use numbers::Limit;
pub use reading::{byte_at, event_at, event_count, setup_from, word_of};
pub use writing::{event_bytes, high, low};

// The counts, the starting clock, each task's period, each resource's kind, and the nesting pairs.
// Places past a count are not read. A session has fixed memory, and any counts and any kinds get an answer, so the
// counts stay beside the tables, and the kinds stay numbers. The pairs are two tables, as the rules read them
// (`outer_of`, `inner_of`).
#[derive(Clone, Copy, PartialEq, Eq)]
pub struct Setup {
    pub processors: usize,
    pub tasks: usize,
    pub resources: usize,
    pub pairs: usize,
    pub start: u32,
    pub periods: [u16; Setup::TASKS],
    pub kinds: [u8; Setup::RESOURCES],
    pub outer: [u8; Setup::PAIRS],
    pub inner: [u8; Setup::PAIRS],
}

impl Setup {
    // The limits.
    pub const PROCESSORS: usize = Limit::PROCESSORS;

    pub const TASKS: usize = Limit::TASKS;

    pub const RESOURCES: usize = Limit::RESOURCES;

    pub const PAIRS: usize = Limit::PAIRS;
    // The kinds of resource.
    pub const SHORT: u8 = 0;

    pub const LONG: u8 = 1;
    // Where the parts of a set-up begin in a block's payload, after the four counts; and the bytes of a set-up.
    pub const START_AT: usize = 4;

    pub const PERIODS_AT: usize = 8;

    pub const KINDS_AT: usize = Setup::PERIODS_AT + 2 * Setup::TASKS;

    pub const PAIRS_AT: usize = Setup::KINDS_AT + Setup::RESOURCES;

    pub const SIZE: usize = Setup::PAIRS_AT + 2 * Setup::PAIRS;

    // No set-up: every count and every place is 0.
    pub fn none() -> Setup
        ensures { result ≡ no_setup }
    {
        Setup {
            processors: 0,
            tasks: 0,
            resources: 0,
            pairs: 0,
            start: 0,
            periods: [0; Setup::TASKS],
            kinds: [0; Setup::RESOURCES],
            outer: [0; Setup::PAIRS],
            inner: [0; Setup::PAIRS],
        }
    }
}

// An event: its kind, the task and the resource that it names, and the console's tick. Any number of a kind gets an
// answer, so it stays a number; `Kind` is what it may be.
#[derive(Clone, Copy, PartialEq, Eq)]
pub struct Event {
    pub kind: u8,
    pub task: u8,
    pub resource: u8,
    pub tick: u16,
}

impl Event {
    // The numbers of the kinds of event; see `Kind`.
    pub const ARRIVAL: u8 = 1;

    pub const FINISH: u8 = 2;

    pub const REQUEST: u8 = 3;

    pub const COMPLETION: u8 = 4;

    pub const PASSING: u8 = 5;
    // What is read where there is no event.
    pub const NONE: Event = Event {
        kind: 0,
        task: 0,
        resource: 0,
        tick: 0,
    };
    // The bytes of an event: kind, task, resource, reserve, and two bytes of tick.
    pub const SIZE: usize = 6;
}

// Whether a kind of event uses the task, and the resource.
#[derive(Clone, Copy, PartialEq, Eq)]
pub struct Fields {
    pub task: bool,
    pub resource: bool,
}
