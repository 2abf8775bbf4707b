// Which tasks are linked and which run: the processors, and the rank and mode of each task's job.
#![tactic(auto)]

mod changing;
mod finding;

pub use changing::{link_on, none_linked, place_on};
pub use finding::{is_awaited, is_higher, is_unlinked, link_at, link_of, mode_of, run_of, runs_at};
use numbers::Limit;

// The task that each processor is linked to, and the task that it runs; both nobody from `count` on. A state may hold
// any count and any tasks, and the definitions (`link`, `runs`) read the two lists, so they stay beside each other.
#[derive(Clone, Copy, PartialEq, Eq)]
pub struct Processors {
    pub count: usize,
    pub linked: [u8; Processors::LIMIT],
    pub running: [u8; Processors::LIMIT],
}

impl Processors {
    pub const LIMIT: usize = Limit::PROCESSORS;
}

// The rank of each task's job.
pub type Ranks = [u64; Jobs::LIMIT];

// The mode of each task's job.
pub type Modes = [u8; Jobs::LIMIT];

// What the scheduler knows of each task's job: its rank, lower for a higher priority, and its mode. Two tables, as the
// definitions make one list of each (`jobs_from`), and most questions need only one of them.
#[derive(Clone, Copy, PartialEq, Eq)]
pub struct Jobs {
    pub ranks: Ranks,
    pub modes: Modes,
}

impl Jobs {
    pub const LIMIT: usize = Limit::TASKS;
    // Past the last task: what a search that finds no task returns.
    pub const END: u8 = Jobs::LIMIT as u8;
    // The modes: not runnable (no job, or a suspended one), preemptable, non-preemptable. Numbers and no enum, as a
    // table of modes may hold any number, and each function answers for it.
    pub const OFF: u8 = 0;

    pub const PREEMPTABLE: u8 = 1;

    pub const NON_PREEMPTABLE: u8 = 2;
}
