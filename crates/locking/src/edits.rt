// A task's record with one change: a request more or less, a job that arrives or is gone.
ghost use Rattle.std.specs.Prelude.{◌≡◌, ◌<◌, ◌≤◌};
ghost use Rattle.numbers.specs.Limits.{most_requests};
ghost use Rattle.protocol.specs.Locks.{opening, closing, arriving, departing, lock_of};

use input::Setup;
use numbers::Limit;
use protocol::{Lock, Standing, Task};

// A request for `r` is open, as the newest.
pub fn opened(task: Task, r: u8) -> Task
    requires { task.depth < most_requests }
    ensures { result ≡ opening r task }
{
    let d = task.depth;
    let mut next = task;
    next.requests[d] = r;
    next.depth = d + 1;
    next
}

// The newest request is closed.
pub fn closed(task: Task) -> Task
    requires { (0 < task.depth) × (task.depth ≤ most_requests) }
    ensures { result ≡ closing task }
{
    let d = task.depth;
    let mut next = task;
    next.requests[d - 1] = Limit::NOTHING;
    next.depth = d - 1;
    next
}

// A job arrives at the clock `now`, with the deadline `due`.
pub fn arrived(task: Task, now: u32, due: u64) -> Task
    ensures { result ≡ arriving now due task }
{
    Task {
        standing: Standing::Active,
        deadline: due,
        arrived: true,
        last: now,
        ..task
    }
}

// The job is gone, and its deadline is 0.
pub fn departed(task: Task) -> Task
    ensures { result ≡ departing task }
{
    Task {
        standing: Standing::Absent,
        deadline: 0,
        ..task
    }
}

// What a job that asked for `r`, a resource of this kind, waits for.
pub fn lock_of(kind: u8, r: u8) -> Lock
    ensures { result ≡ lock_of kind r }
{
    if kind == Setup::SHORT {
        Lock::Short(r)
    } else {
        Lock::Long(r)
    }
}
