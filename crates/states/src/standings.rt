// What a standing says, and the situation of a task.
ghost use Rattle.std.specs.Prelude.{◌≡◌, get_or};
ghost use Rattle.search.specs.Table.{table};
ghost use Rattle.numbers.specs.Limits.{most_tasks};
ghost use Rattle.protocol.specs.Words.{standing_no, asked_of};
ghost use Rattle.protocol.specs.Records.{no_task};
ghost use Rattle.protocol.specs.Situations.{situation_of};

use input::Setup;
use numbers::Limit;
use processors::Processors;
use protocol::{Lock, Situation, Standing, Task};
use std::array;

// The number of a standing. It leaves out the resource asked for, so it is no `From`.
pub fn stand_of(standing: Standing) -> u8
    ensures { result ≡ standing_no standing }
{
    match standing {
        Standing::Absent => Task::ABSENT,
        Standing::Active => Task::ACTIVE,
        Standing::Waiting(Lock::Short(_)) => Task::SPINNING,
        Standing::Waiting(Lock::Long(_)) => Task::SUSPENDED,
    }
}

// The number of each task's standing.
pub fn stands_of(tasks: [Task; Setup::TASKS]) -> [u8; Setup::TASKS]
    ensures { result ≡ table (λ t. standing_no (get_or tasks t no_task).standing) most_tasks }
{
    array::from_fn(|t| stand_of(tasks[t].standing))
}

// The resource that a waiting job asked for, or nothing.
pub fn asked_of(standing: Standing) -> u8
    ensures { result ≡ asked_of standing }
{
    match standing {
        Standing::Absent | Standing::Active => Limit::NOTHING,
        Standing::Waiting(Lock::Short(resource) | Lock::Long(resource)) => resource,
    }
}

// The situation of task `t`, whose standing has the number `stand`.
pub fn situation_of(stand: u8, p: Processors, t: u8) -> Situation
    ensures { result ≡ situation_of stand p t }
{
    match stand {
        Task::ABSENT => Situation::NoJob,
        Task::SUSPENDED => Situation::Suspended,
        _ if processors::run_of(p, t) < Processors::LIMIT => if stand == Task::SPINNING {
            Situation::Spinning
        } else {
            Situation::Running
        },
        _ if processors::link_of(p, t) < Processors::LIMIT => Situation::LinkedOnly,
        _ => Situation::Ready,
    }
}
