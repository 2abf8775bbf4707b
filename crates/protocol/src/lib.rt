// The state of a session: tasks, groups and processors. The rules over it are in specs/.
#![tactic(auto)]

use input::Setup;
use numbers::Limit;
use processors::Processors;
use queue::Queue;

// What a waiting job waits for: a lock, by its kind, with the resource asked for.
#[derive(Clone, Copy, PartialEq, Eq)]
pub enum Lock {
    Short(u8),
    Long(u8),
}

// A task has no job, an active one, or one that waits.
#[derive(Clone, Copy, PartialEq, Eq)]
pub enum Standing {
    Absent,
    Active,
    Waiting(Lock),
}

// What a task's job is doing.
#[derive(Clone, Copy, PartialEq, Eq)]
pub enum Situation {
    NoJob,
    Running,
    Spinning,
    LinkedOnly,
    Ready,
    Suspended,
}

// A task's record. `last` is the clock of the last arrival, if the task has `arrived` at all; two fields, as the rules
// read each of them in states of any content (`times_sound`, `empty_sound`). The open requests are the first `depth`,
// oldest first. A session has fixed memory, and a state may hold any depth, so the depth stays beside them.
#[derive(Clone, Copy, PartialEq, Eq)]
pub struct Task {
    pub standing: Standing,
    pub deadline: u64,
    pub arrived: bool,
    pub last: u32,
    pub requests: [u8; Task::REQUESTS],
    pub depth: usize,
    pub totals: [u32; Task::TOTALS],
}

impl Task {
    // How many requests a job may have open.
    pub const REQUESTS: usize = Limit::REQUESTS;
    // How many totals there are: running, spinning, linked but not running, ready, direct blocking, suspended
    // otherwise.
    pub const TOTALS: usize = 6;
    // The numbers of the standings: no job, active, spinning on a short group, suspended on a long one. They are those
    // of the rules (`standing_no`), by which the sound state compares them, and a table of them takes a byte a task.
    pub const ABSENT: u8 = 0;

    pub const ACTIVE: u8 = 1;

    pub const SPINNING: u8 = 2;

    pub const SUSPENDED: u8 = 3;
}

// A lock's record. It is at the place of the group's lowest resource. The holder may be any number in a state, so it is
// no `Option` (`group_sound`).
#[derive(Clone, Copy, PartialEq, Eq)]
pub struct Group {
    pub holder: u8,
    pub queue: Queue,
}

// The state of a session, with the exact clock.
#[derive(Clone, Copy, PartialEq, Eq)]
pub struct State {
    pub setup: Setup,
    pub clock: u32,
    pub tasks: [Task; Setup::TASKS],
    pub groups: [Group; Setup::RESOURCES],
    pub processors: Processors,
}

impl State {
    // The bytes of a snapshot, which is what is written of an event: its answer, and for each processor the linked
    // and the running task.
    pub const SNAPSHOT: usize = 1 + 2 * Processors::LIMIT;
}
