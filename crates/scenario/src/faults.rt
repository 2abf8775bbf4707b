// Why a line of a scenario is faulty, and the number that stands for it.
ghost use Rattle.std.specs.Prelude.{◌≡◌};
ghost use Rattle.scenario.specs.Faults.{sort_number, reason_number, IsReasonOf};
ghost use Rattle.scenario.specs.declared.faults.Trouble.TheVariants.{Faulty, Refused};

use numbers::Refusal;
use std::error::Error;
use std::fmt;

// The sorts of the words after an item's name.
#[derive(Clone, Copy, Debug, PartialEq, Eq)]
pub enum Sort {
    // No word more.
    NoMore,
    // Numbers of one, of two and of four bytes.
    Byte,
    Period,
    Clock,
    // `@` and a number of two bytes.
    Tick,
    // `short` or `long`.
    Kind,
}

// Why a line is faulty.
#[derive(Clone, Copy, Debug, PartialEq, Eq)]
pub enum Reason {
    // Its first word is no item's name.
    Unknown,
    // A word is not of its sort.
    Misfit(Sort),
    // The item comes after the set-up's end; it comes a second time; its table is full; the processors are not given.
    Late,
    Twice,
    Full,
    Missing,
}

// A number that no reason has.
#[derive(Clone, Copy, Debug, PartialEq, Eq)]
pub struct UnknownReason(pub u8);

// Why an item is not taken: it is faulty, with the number of the reason, which may be any that an `Item` has; or the
// writer refused its block.
#[derive(Clone, Copy, Debug, PartialEq, Eq)]
pub enum Trouble {
    Faulty(u8),
    Refused(Refusal),
}

// The number of a sort is the reason's, for a word that is not of it.
impl From<Sort> for u8 {
    ghost from_gives = { λ sort number. number ≡ sort_number sort };

    fn from(sort: Sort) -> u8 {
        match sort {
            Sort::NoMore => 2,
            Sort::Byte => 3,
            Sort::Period => 4,
            Sort::Clock => 5,
            Sort::Tick => 6,
            Sort::Kind => 7,
        }
    }
}

impl From<Reason> for u8 {
    ghost from_gives = { λ reason number. number ≡ reason_number reason };

    fn from(reason: Reason) -> u8 {
        match reason {
            Reason::Unknown => 1,
            Reason::Misfit(sort) => u8::from(sort),
            Reason::Late => 8,
            Reason::Twice => 9,
            Reason::Full => 10,
            Reason::Missing => 11,
        }
    }
}

impl From<Reason> for Trouble {
    ghost from_gives = { λ reason trouble. trouble ≡ Faulty (reason_number reason) };

    fn from(reason: Reason) -> Trouble {
        Trouble::Faulty(u8::from(reason))
    }
}

impl From<Refusal> for Trouble {
    ghost from_gives = { λ refusal trouble. trouble ≡ Refused refusal };

    fn from(refusal: Refusal) -> Trouble {
        Trouble::Refused(refusal)
    }
}

impl TryFrom<u8> for Reason {
    type Error = UnknownReason;

    ghost try_from_gives = { IsReasonOf };

    fn try_from(number: u8) -> Result<Reason, UnknownReason> {
        match number {
            1 => Ok(Reason::Unknown),
            2 => Ok(Reason::Misfit(Sort::NoMore)),
            3 => Ok(Reason::Misfit(Sort::Byte)),
            4 => Ok(Reason::Misfit(Sort::Period)),
            5 => Ok(Reason::Misfit(Sort::Clock)),
            6 => Ok(Reason::Misfit(Sort::Tick)),
            7 => Ok(Reason::Misfit(Sort::Kind)),
            8 => Ok(Reason::Late),
            9 => Ok(Reason::Twice),
            10 => Ok(Reason::Full),
            11 => Ok(Reason::Missing),
            _ => Err(UnknownReason(number)),
        }
    }
}

// What is expected in the place of a word.
impl fmt::Display for Sort {
    fn fmt<W: fmt::Write>(&self, f: &mut fmt::Formatter<W>) -> fmt::Result {
        f.write_str(match self {
            Sort::NoMore => "a word too many",
            Sort::Byte => "a number from 0 to 255 is expected",
            Sort::Period => "a number from 0 to 65535 is expected",
            Sort::Clock => "a number from 0 to 4294967295 is expected",
            Sort::Tick => "a tick is expected, as @20: from 0 to 65535",
            Sort::Kind => "short or long is expected",
        })
    }
}

impl fmt::Display for Reason {
    fn fmt<W: fmt::Write>(&self, f: &mut fmt::Formatter<W>) -> fmt::Result {
        match self {
            Reason::Unknown => f.write_str("unknown item"),
            Reason::Misfit(sort) => write!(f, "{sort}"),
            Reason::Late => f.write_str("it must come before the first event"),
            Reason::Twice => f.write_str("it comes a second time"),
            Reason::Full => {
                f.write_str("there is no room for more: 32 tasks, 32 resources, 64 pairs")
            }
            Reason::Missing => f.write_str("processors must come before the first event"),
        }
    }
}

impl fmt::Display for UnknownReason {
    fn fmt<W: fmt::Write>(&self, f: &mut fmt::Formatter<W>) -> fmt::Result {
        write!(f, "no reason has the number {}", self.0)
    }
}

impl Error for Reason {}

impl Error for UnknownReason {}
