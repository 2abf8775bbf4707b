// The kinds of event, and which fields of an event each uses.
ghost use Rattle.std.specs.Prelude.{◌≡◌};
ghost use Rattle.input.specs.Kinds.{kind_number, Decodes, fields_of};

use crate::{Event, Fields};
use std::error::Error;
use std::fmt;

// What an event tells. `Event` keeps its number, which may be of no kind.
#[derive(Clone, Copy, Debug, PartialEq, Eq)]
pub enum Kind {
    // A job of the task arrives, or finishes.
    Arrival,
    Finish,
    // Its job requests the resource, or completes its request.
    Request,
    Completion,
    // Time passes only.
    Passing,
}

// A number that no kind of event has.
#[derive(Clone, Copy, Debug, PartialEq, Eq)]
pub struct UnknownKind(pub u8);

impl From<Kind> for u8 {
    ghost from_gives = { λ kind number. number ≡ kind_number kind };

    fn from(kind: Kind) -> u8 {
        match kind {
            Kind::Arrival => Event::ARRIVAL,
            Kind::Finish => Event::FINISH,
            Kind::Request => Event::REQUEST,
            Kind::Completion => Event::COMPLETION,
            Kind::Passing => Event::PASSING,
        }
    }
}

impl TryFrom<u8> for Kind {
    type Error = UnknownKind;

    ghost try_from_gives = { Decodes };

    fn try_from(number: u8) -> Result<Kind, UnknownKind> {
        match number {
            Event::ARRIVAL => Ok(Kind::Arrival),
            Event::FINISH => Ok(Kind::Finish),
            Event::REQUEST => Ok(Kind::Request),
            Event::COMPLETION => Ok(Kind::Completion),
            Event::PASSING => Ok(Kind::Passing),
            _ => Err(UnknownKind(number)),
        }
    }
}

impl fmt::Display for UnknownKind {
    fn fmt<W: fmt::Write>(&self, f: &mut fmt::Formatter<W>) -> fmt::Result {
        write!(f, "no kind of event has the number {}", self.0)
    }
}

impl Error for UnknownKind {}

// The fields that a kind may use: neither, the task alone, or both.
const NEITHER: Fields = Fields {
    task: false,
    resource: false,
};

const TASK_ALONE: Fields = Fields {
    task: true,
    resource: false,
};

const BOTH: Fields = Fields {
    task: true,
    resource: true,
};

// How many rows the table has: one for each number from 0 on, which is no kind.
const KINDS: usize = Event::PASSING as usize + 1;

// The fields of each kind: a table, as the specification asks for one.
const FIELDS: [Fields; KINDS] = [NEITHER, TASK_ALONE, TASK_ALONE, BOTH, BOTH, NEITHER];

// The fields that a kind uses; neither for a number that is no kind.
#[tactic(auto, unfolding(crate::specs::Kinds::fields_of))]
pub fn fields_of(kind: u8) -> Fields
    ensures { result ≡ fields_of kind }
{
    search::entry(&FIELDS, usize::from(kind), NEITHER)
}
