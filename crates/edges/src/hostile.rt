// States that no session has: the busy state of the printed case with the largest number of its type in one place, or
// in all of them at once. None is sound; tests/calls.py names the clause that each one breaks.
use input::Setup;
use processors::Processors;
use protocol::{Lock, Standing, State, Task};

// As a task or a request 255 means 'none', which is not sound in a place that must name one. The largest number that
// does name one is 254, which is sound nowhere.
const FAR: u8 = 254;

// Where a state is made hostile, and by 'far', with which number.
#[derive(Clone, Copy, Debug, PartialEq, Eq)]
pub enum Place {
    // The counts, the start, the period of a pending job, which its deadline then does not fit, a kind, and the sides
    // of a pair.
    Processors,
    Tasks,
    Resources,
    Pairs,
    Start,
    Period,
    Kind,
    Outer,
    Inner,
    // With the start: the clock alone at its largest leaves a state sound, but with this start the last arrivals are
    // before the start.
    Clock,
    // The times and totals of task 0, whose job waits, and the resource that it asked for.
    Deadline,
    LastArrival,
    FirstTotal,
    AllTotals,
    Asked,
    // The open requests of task 1, which has one.
    Depth,
    Request,
    FarRequest,
    // Group 0, which is held, with one task waiting.
    Holder,
    FarHolder,
    QueueLength,
    Queued,
    FarQueued,
    // The count; processor 0, which is linked and not idle; and the last one, past the count, which must hold 255.
    Count,
    Linked,
    FarLinked,
    Running,
    FarRunning,
    FarLastLinked,
    FarLastRunning,
    // The last group's holder and the last task's last request, past the counts.
    FarLastHolder,
    FarLastRequest,
}

impl Place {
    // Every place, in the order of the tests' numbers from 1 on.
    pub const ALL: [Place; 32] = [
        Place::Processors,
        Place::Tasks,
        Place::Resources,
        Place::Pairs,
        Place::Start,
        Place::Period,
        Place::Kind,
        Place::Outer,
        Place::Inner,
        Place::Clock,
        Place::Deadline,
        Place::LastArrival,
        Place::FirstTotal,
        Place::AllTotals,
        Place::Asked,
        Place::Depth,
        Place::Request,
        Place::FarRequest,
        Place::Holder,
        Place::FarHolder,
        Place::QueueLength,
        Place::Queued,
        Place::FarQueued,
        Place::Count,
        Place::Linked,
        Place::FarLinked,
        Place::Running,
        Place::FarRunning,
        Place::FarLastLinked,
        Place::FarLastRunning,
        Place::FarLastHolder,
        Place::FarLastRequest,
    ];
}

// The task with its job waiting for a short resource.
fn waiting_for(task: Task, resource: u8) -> Task {
    states::with_standing(task, Standing::Waiting(Lock::Short(resource)))
}

// The state with that place hostile.
pub fn hostile(state: State, place: Place) -> State {
    let mut next = state;
    match place {
        Place::Processors => next.setup.processors = usize::MAX,
        Place::Tasks => next.setup.tasks = usize::MAX,
        Place::Resources => next.setup.resources = usize::MAX,
        Place::Pairs => next.setup.pairs = usize::MAX,
        Place::Start => next.setup.start = u32::MAX,
        Place::Period => next.setup.periods[0] = u16::MAX,
        Place::Kind => next.setup.kinds[0] = u8::MAX,
        Place::Outer => next.setup.outer[0] = u8::MAX,
        Place::Inner => next.setup.inner[0] = u8::MAX,
        Place::Clock => {
            next.setup.start = u32::MAX;
            next.clock = u32::MAX;
        }
        Place::Deadline => next.tasks[0].deadline = u64::MAX,
        Place::LastArrival => next.tasks[0].last = u32::MAX,
        Place::FirstTotal => next.tasks[0].totals[0] = u32::MAX,
        Place::AllTotals => next.tasks[0].totals = [u32::MAX; Task::TOTALS],
        Place::Asked => next.tasks[0] = waiting_for(next.tasks[0], u8::MAX),
        Place::Depth => next.tasks[1].depth = usize::MAX,
        Place::Request => next.tasks[1].requests[0] = u8::MAX,
        Place::FarRequest => next.tasks[1].requests[0] = FAR,
        _ => next = hostile_behind(next, place),
    }
    next
}

// The same of the places behind the tasks' requests: in groups, in processors and past the counts.
fn hostile_behind(state: State, place: Place) -> State {
    let mut next = state;
    match place {
        Place::Holder => next.groups[0].holder = u8::MAX,
        Place::FarHolder => next.groups[0].holder = FAR,
        Place::QueueLength => next.groups[0].queue.len = usize::MAX,
        Place::Queued => next.groups[0].queue.tasks[0] = u8::MAX,
        Place::FarQueued => next.groups[0].queue.tasks[0] = FAR,
        Place::Count => next.processors.count = usize::MAX,
        Place::Linked => next.processors.linked[0] = u8::MAX,
        Place::FarLinked => next.processors.linked[0] = FAR,
        Place::Running => next.processors.running[0] = u8::MAX,
        Place::FarRunning => next.processors.running[0] = FAR,
        Place::FarLastLinked => next.processors.linked[Processors::LIMIT - 1] = FAR,
        Place::FarLastRunning => next.processors.running[Processors::LIMIT - 1] = FAR,
        Place::FarLastHolder => next.groups[Setup::RESOURCES - 1].holder = FAR,
        Place::FarLastRequest => {
            next.tasks[Setup::TASKS - 1].requests[Task::REQUESTS - 1] = FAR;
        }
        _ => (),
    }
    next
}

// The state with every place hostile.
pub fn hostile_throughout(state: State) -> State {
    Place::ALL
        .iter()
        .fold(state, |next, place| hostile(next, *place))
}
