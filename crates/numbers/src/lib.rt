// The numbers of a session: its limits, the mark for none and the refusals, each by name. Lists of refusals are
// defined in specs/, and their laws are in proofs/.
#![tactic(auto)]

mod answers;

ghost use Rattle.std.specs.Prelude.{◌≡◌, get_or};
ghost use Rattle.numbers.specs.Limits.{nothing};

pub use answers::{Refusal, UnknownRefusal, answer_of};

// The limits. Each type that is bounded by one has it as an associated constant of its own.
#[derive(Clone, Copy)]
pub struct Limit {}

impl Limit {
    pub const PROCESSORS: usize = 8;

    pub const TASKS: usize = 32;

    pub const RESOURCES: usize = 32;
    // Nesting pairs of a set-up.
    pub const PAIRS: usize = 64;
    // Open requests of a job.
    pub const REQUESTS: usize = 8;
    // No task, and no resource: what an empty place holds. A number and no `Option`, as snapshots and states of any
    // content have it (`nobody`).
    pub const NOBODY: u8 = 255;

    pub const NOTHING: u8 = Limit::NOBODY;
}

// The task or the resource at place `i` of a table; `Limit::NOTHING`, which is `Limit::NOBODY` too, past it.
pub fn number_at(table: &[u8], i: usize) -> u8
    ensures { result ≡ get_or table.now i nothing }
{
    search::entry(table, i, Limit::NOTHING)
}
