// How many tasks outrank each suspended one: are pending, suspended or not, with a lower own rank. A suspended job is
// directly blocked while fewer do than there are processors. It is counted when a job suspends, and corrected when
// another arrives or finishes, so that no event has to count for every suspended job.
ghost use Rattle.std.specs.Prelude.{◌≡◌, ◌+◌, ◌-◌, ◌<◌, ◌≤◌, true, false, length, slice_set, if◌then◌else◌};
ghost use Rattle.numbers.specs.Limits.{most_tasks};
ghost use Rattle.protocol.specs.Words.{standing_no};
ghost use Rattle.priorities.specs.Bounds.{rank_by};
ghost use Rattle.locking.specs.Ranking.{is_lower, ahead_of, Ranked, RankedBut};

use input::Setup;
use protocol::Task;

// A task of the standing number `stand` and the rank `rank` is pending, with a lower rank than `other`.
fn is_lower(stand: u8, rank: u64, other: u64) -> bool
    ensures { result ≡ is_lower stand rank other }
{
    (stand != Task::ABSENT) & (rank < other)
}

// How many of the first `count` tasks outrank task `t`. Here and below the tables are gone through by a task's number,
// which is its place in each; they are lent apart, as the definitions over them have them (`Ranked`).
fn ahead_of(stands: &[u8; Setup::TASKS], own: &[u64; Setup::TASKS], count: usize, t: usize) -> u8
    requires { (count ≤ most_tasks) × (t < most_tasks) }
    ensures { result ≡ ahead_of stands.now own.now count t }
{
    let rank = own[t];
    let mut ahead = 0;
    for u in 0..count {
        if is_lower(stands[u], own[u], rank) {
            ahead = ahead + 1;
        }
    }
    ahead
}

// How many outrank each suspended task among the first `count`. No state with more tasks than there may be is sound,
// and nothing is counted for it.
pub fn all_ahead<'a>(
    stands: &'a [u8; Setup::TASKS],
    own: &'a [u64; Setup::TASKS],
    count: usize,
) -> [u8; Setup::TASKS]
    ensures { count ≤ most_tasks → Ranked stands.now own.now count result }
{
    let tasks = if count <= Setup::TASKS { count } else { 0 };
    let mut ahead = [0u8; Setup::TASKS];
    for t in 0..tasks {
        if stands[t] == Task::SUSPENDED {
            ahead[t] = ahead_of(stands, own, tasks, t);
        }
    }
    ahead
}

// One less where one is `lost`, one more where one is `won`.
fn corrected(ahead: u8, lost: bool, won: bool) -> u8
    requires { (lost ≡ true → 0 < ahead) × (ahead ≤ most_tasks) }
    ensures { result ≡ (ahead - (if lost then 1 else 0)) + (if won then 1 else 0) }
{
    let rest = if lost { ahead - 1 } else { ahead };
    if won { rest + 1 } else { rest }
}

// Corrects `ahead` for each suspended task but `t`, which had the standing number `was` and the rank `before`.
fn correct(
    ahead: &mut [u8],
    stands: &[u8; Setup::TASKS],
    own: &[u64; Setup::TASKS],
    count: usize,
    t: usize,
    was: u8,
    before: u64,
)
    requires { (count ≤ most_tasks) × (t < count) × (length stands.now ≡ most_tasks) × (length own.now ≡ most_tasks)
        × RankedBut (slice_set stands.now t was) (slice_set own.now t before) count t ahead.old }
    ensures { RankedBut stands.now own.now count t ahead.new }
{
    let stand = stands[t];
    let rank = own[t];
    for u in 0..count {
        if (stands[u] == Task::SUSPENDED) & (u != t) {
            let other = own[u];
            let lost = is_lower(was, before, other);
            let won = is_lower(stand, rank, other);
            ahead[u] = corrected(ahead[u], lost, won);
        }
    }
}

// Brings `ahead` up to date, where task `t` had the record `task`, if `again` says that its job arrived, finished or
// suspended. That is tested here and not by the caller, whose proof would have to join two branches.
pub fn rank_again<'a>(
    ahead: &mut [u8],
    stands: &'a [u8; Setup::TASKS],
    own: &'a [u64; Setup::TASKS],
    count: usize,
    task: Task,
    t: u8,
    again: bool,
)
    requires { (again ≡ false → Ranked stands.now own.now count ahead.old)
        × (again ≡ true → (count ≤ most_tasks) × (t < count)
        × (length stands.now ≡ most_tasks) × (length own.now ≡ most_tasks)
        × Ranked (slice_set stands.now t (standing_no task.standing)) (slice_set own.now t (rank_by task.deadline t))
        count ahead.old) }
    ensures { Ranked stands.now own.now count ahead.new }
{
    if !again {
        return;
    }
    let i = t as usize;
    let standing = task.standing;
    let was = states::stand_of(standing);
    let before = priorities::own_rank(task.deadline, t);
    correct(ahead, stands, own, count, i, was, before);
    if stands[i] == Task::SUSPENDED {
        ahead[i] = ahead_of(stands, own, count, i);
    }
}
