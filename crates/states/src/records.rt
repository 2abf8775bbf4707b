// The records of no task and of no group, and the record at any place of a table, past its end too.
ghost use Rattle.std.specs.Prelude.{◌≡◌, get_or};
ghost use Rattle.protocol.specs.Records.{no_task, no_group, with_standing};

use input::Setup;
use numbers::Limit;
use protocol::{Group, Standing, Task};
use queue::Queue;

// The record of no task: no job, no request, totals 0.
pub fn no_task() -> Task
    ensures { result ≡ no_task }
{
    Task {
        standing: Standing::Absent,
        deadline: 0,
        arrived: false,
        last: 0,
        requests: [Limit::NOTHING; Task::REQUESTS],
        depth: 0,
        totals: [0; Task::TOTALS],
    }
}

// The record of no group: no holder, and an empty queue.
pub fn no_group() -> Group
    ensures { result ≡ no_group }
{
    Group {
        holder: Limit::NOBODY,
        queue: Queue::empty(),
    }
}

// The record of task `t`; past the table, that of no task.
pub fn task_at(tasks: [Task; Setup::TASKS], t: u8) -> Task
    ensures { result ≡ get_or tasks t no_task }
{
    search::entry(&tasks, usize::from(t), no_task())
}

// The task with another standing.
pub fn with_standing(task: Task, standing: Standing) -> Task
    ensures { result ≡ with_standing standing task }
{
    Task { standing, ..task }
}
