// Why something is refused, and the number that is handed back for it.
ghost use Rattle.std.specs.Prelude.{◌≡◌};
ghost use Rattle.numbers.specs.Answers.{number_of, answer_of, Decodes};

use std::error::Error;
use std::fmt;

// Why something is refused; specs/Refusals says when each is given, and specs/Answers its number.
#[derive(Clone, Copy, Debug, PartialEq, Eq)]
pub enum Refusal {
    // Of a set-up.
    CountOutside,
    PeriodZero,
    KindUnknown,
    PairStray,
    LongInShort,
    // Of an event.
    NotSound,
    EventUnknown,
    TaskUnknown,
    ResourceUnknown,
    FieldUnused,
    StepBackward,
    ClockPastEnd,
    AlreadyPending,
    ArrivesEarly,
    NotPending,
    // Judged in 19's place, and so before it.
    IsSuspended,
    OnNoProcessor,
    IsSpinning,
    FinishesOpen,
    AlreadyOpen,
    WronglyNested,
    TooManyOpen,
    NotNewest,
    // Of a block that is read.
    SizeWrong,
    CheckWrong,
    NumberWrong,
    BlockKindWrong,
    RecordCountWrong,
    FillerWrong,
    // Of a lent buffer: for a line or a page, and for a block that is written.
    BufferShort,
    RoomWrong,
}

// A number that no refusal has.
#[derive(Clone, Copy, Debug, PartialEq, Eq)]
pub struct UnknownRefusal(pub u8);

impl From<Refusal> for u8 {
    ghost from_gives = { λ refusal number. number ≡ number_of refusal };

    fn from(refusal: Refusal) -> u8 {
        match refusal {
            Refusal::CountOutside => 1,
            Refusal::PeriodZero => 2,
            Refusal::KindUnknown => 3,
            Refusal::PairStray => 4,
            Refusal::LongInShort => 5,
            Refusal::NotSound => 9,
            Refusal::EventUnknown => 10,
            Refusal::TaskUnknown => 11,
            Refusal::ResourceUnknown => 12,
            Refusal::FieldUnused => 13,
            Refusal::StepBackward => 14,
            Refusal::ClockPastEnd => 15,
            Refusal::AlreadyPending => 16,
            Refusal::ArrivesEarly => 17,
            Refusal::NotPending => 18,
            Refusal::IsSuspended => 26,
            Refusal::OnNoProcessor => 19,
            Refusal::IsSpinning => 20,
            Refusal::FinishesOpen => 21,
            Refusal::AlreadyOpen => 22,
            Refusal::WronglyNested => 23,
            Refusal::TooManyOpen => 24,
            Refusal::NotNewest => 25,
            Refusal::SizeWrong => 30,
            Refusal::CheckWrong => 31,
            Refusal::NumberWrong => 32,
            Refusal::BlockKindWrong => 33,
            Refusal::RecordCountWrong => 34,
            Refusal::FillerWrong => 35,
            Refusal::BufferShort => 36,
            Refusal::RoomWrong => 37,
        }
    }
}

impl TryFrom<u8> for Refusal {
    type Error = UnknownRefusal;

    ghost try_from_gives = { Decodes };

    fn try_from(number: u8) -> Result<Refusal, UnknownRefusal> {
        match number {
            1 => Ok(Refusal::CountOutside),
            2 => Ok(Refusal::PeriodZero),
            3 => Ok(Refusal::KindUnknown),
            4 => Ok(Refusal::PairStray),
            5 => Ok(Refusal::LongInShort),
            9 => Ok(Refusal::NotSound),
            10 => Ok(Refusal::EventUnknown),
            11 => Ok(Refusal::TaskUnknown),
            12 => Ok(Refusal::ResourceUnknown),
            13 => Ok(Refusal::FieldUnused),
            14 => Ok(Refusal::StepBackward),
            15 => Ok(Refusal::ClockPastEnd),
            16 => Ok(Refusal::AlreadyPending),
            17 => Ok(Refusal::ArrivesEarly),
            18 => Ok(Refusal::NotPending),
            26 => Ok(Refusal::IsSuspended),
            19 => Ok(Refusal::OnNoProcessor),
            20 => Ok(Refusal::IsSpinning),
            21 => Ok(Refusal::FinishesOpen),
            22 => Ok(Refusal::AlreadyOpen),
            23 => Ok(Refusal::WronglyNested),
            24 => Ok(Refusal::TooManyOpen),
            25 => Ok(Refusal::NotNewest),
            30 => Ok(Refusal::SizeWrong),
            31 => Ok(Refusal::CheckWrong),
            32 => Ok(Refusal::NumberWrong),
            33 => Ok(Refusal::BlockKindWrong),
            34 => Ok(Refusal::RecordCountWrong),
            35 => Ok(Refusal::FillerWrong),
            36 => Ok(Refusal::BufferShort),
            37 => Ok(Refusal::RoomWrong),
            _ => Err(UnknownRefusal(number)),
        }
    }
}

// The condition under which it is given, in words.
impl fmt::Display for Refusal {
    fn fmt<W: fmt::Write>(&self, f: &mut fmt::Formatter<W>) -> fmt::Result {
        f.write_str(match self {
            Refusal::CountOutside => "a set-up count is outside its limits",
            Refusal::PeriodZero => "a period is 0",
            Refusal::KindUnknown => "a kind is neither 0 nor 1",
            Refusal::PairStray => "a pair names a resource not in the table, or one resource twice",
            Refusal::LongInShort => "a pair puts a long inside a short",
            Refusal::NotSound => "the state is not sound",
            Refusal::EventUnknown => "event kind not 1 to 5",
            Refusal::TaskUnknown => "task not in the table",
            Refusal::ResourceUnknown => "resource not in the table",
            Refusal::FieldUnused => "a field that the kind does not use is not 0",
            Refusal::StepBackward => "step 32,768 or more",
            Refusal::ClockPastEnd => "clock would pass 4,294,967,295",
            Refusal::AlreadyPending => "job already pending",
            Refusal::ArrivesEarly => "less than one period after the task's last",
            Refusal::NotPending => "no pending job",
            Refusal::IsSuspended => "the job is suspended",
            Refusal::OnNoProcessor => "the job is runnable, but on no processor",
            Refusal::IsSpinning => "the job is spinning",
            Refusal::FinishesOpen => "a request is open",
            Refusal::AlreadyOpen => "already open for that resource",
            Refusal::WronglyNested =>
                "long while a short is open, or same kind open in another group",
            Refusal::TooManyOpen => "eight open",
            Refusal::NotNewest => "not the job's newest open request",
            Refusal::SizeWrong => "block is not 512 bytes",
            Refusal::CheckWrong => "block's check is wrong",
            Refusal::NumberWrong =>
                "block's number is not the one expected, or its index is above 999,999",
            Refusal::BlockKindWrong => "block's kind is wrong for its place",
            Refusal::RecordCountWrong => "record count wrong",
            Refusal::FillerWrong => "reserve or filler byte not 0",
            Refusal::BufferShort => "the buffer is too short",
            Refusal::RoomWrong => "the block to be written is not 512 bytes",
        })
    }
}

impl fmt::Display for UnknownRefusal {
    fn fmt<W: fmt::Write>(&self, f: &mut fmt::Formatter<W>) -> fmt::Result {
        write!(f, "no refusal has the number {}", self.0)
    }
}

impl Error for Refusal {}

impl Error for UnknownRefusal {}

// The number of an answer: 0 where nothing is refused.
pub fn answer_of<T>(answer: &Result<T, Refusal>) -> u8
    ensures { result ≡ answer_of answer.now }
{
    match answer {
        Ok(_) => 0,
        Err(refusal) => u8::from(*refusal),
    }
}
