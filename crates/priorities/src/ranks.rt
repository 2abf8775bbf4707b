// Priorities, and what the scheduler is given of each job.
ghost use Rattle.std.specs.Prelude.{◌≡◌, min, get_or};
ghost use Rattle.search.specs.Table.{table};
ghost use Rattle.queue.specs.Waiting.{waiter};
ghost use Rattle.numbers.specs.Limits.{most_tasks, most_resources};
ghost use Rattle.protocol.specs.Records.{no_task};
ghost use Rattle.protocol.specs.Ranks.{least_of, mode_for};
ghost use Rattle.priorities.specs.Bounds.{rank_by, rank_at, rank_before, rank_with, mode_in, jobs_in};

use input::Setup;
use processors::Jobs;
use protocol::{Group, Lock, Standing, Task};
use queue::Queue;
use std::array;

// 2 to the power of 40: no deadline of a sound state is past it, and the ranks up to it fit 64 bits.
const LATEST: u64 = 1 << 40;

// A task's own rank: lower for an earlier deadline, then for a lower task number; 0 past the latest deadline.
pub fn own_rank(deadline: u64, t: u8) -> u64
    ensures { result ≡ rank_by deadline t }
{
    if deadline <= LATEST {
        deadline * 256 + u64::from(t)
    } else {
        0
    }
}

// The own rank of each task.
pub fn own_ranks(tasks: [Task; Setup::TASKS]) -> [u64; Setup::TASKS]
    ensures { result ≡ table (λ t. rank_by (get_or tasks t no_task).deadline t) most_tasks }
{
    array::from_fn(|t| own_rank(tasks[t].deadline, t as u8))
}

// The own rank of task `t`; past the table, that of no task, whose deadline is 0.
fn rank_at(ranks: &[u64; Setup::TASKS], t: u8) -> u64
    ensures { result ≡ rank_at ranks.now t }
{
    search::entry(ranks, usize::from(t), u64::from(t))
}

// The least of `rank` and the own ranks of the tasks that wait in the queue. Its length may be any number: each place
// from the capacity on reads nobody, so one of those is enough.
fn least_waiting(ranks: &[u64; Setup::TASKS], queue: Queue, rank: u64) -> u64
    ensures { result ≡ least_of (λ i. rank_at ranks.now (waiter queue i)) queue.len rank }
{
    let places = 0..queue.len.min(Queue::CAPACITY + 1);
    places.fold(rank, |best, i| best.min(rank_at(ranks, queue.waiter(i))))
}

// The ranks before any group is read. By the rule a task that holds no long group takes the queue at the place past
// the groups, which is `queue`; in a sound state it is empty.
fn unraised(own: [u64; Setup::TASKS], queue: Queue) -> [u64; Setup::TASKS]
    ensures { result ≡ table (rank_before own queue) most_tasks }
{
    if queue.len == 0 {
        return own;
    }
    array::from_fn(|t| least_waiting(&own, queue, own[t]))
}

// The effective ranks, from the own ones: the holder of a long group inherits from those that wait for it. The loop
// goes from the last group to the first, so that of several groups with one holder the lowest remains.
pub fn ranks_of(
    own: [u64; Setup::TASKS],
    kinds: [u8; Setup::RESOURCES],
    resources: usize,
    groups: [Group; Setup::RESOURCES],
) -> [u64; Setup::TASKS]
    ensures { result ≡ table (rank_with own kinds (min resources most_resources) groups) most_tasks }
{
    let count = resources.min(Setup::RESOURCES);
    let past = search::entry(&groups, count, states::no_group());
    let mut ranks = unraised(own, past.queue);
    // By a group's number, which is its place in two tables.
    for g in (0..count).rev() {
        let group = groups[g];
        let holder = usize::from(group.holder);
        if (kinds[g] == Setup::LONG) & (holder < Setup::TASKS) {
            ranks[holder] = least_waiting(&own, group.queue, own[holder]);
        }
    }
    ranks
}

// The mode of a job by its standing; `holds` says whether a short request is open.
fn mode_for(standing: Standing, holds: bool) -> u8
    ensures { result ≡ mode_for standing holds }
{
    match standing {
        Standing::Active if !holds => Jobs::PREEMPTABLE,
        Standing::Active | Standing::Waiting(Lock::Short(_)) => Jobs::NON_PREEMPTABLE,
        Standing::Absent | Standing::Waiting(Lock::Long(_)) => Jobs::OFF,
    }
}

// The mode of a task's job, by its record.
pub fn mode_in(kinds: [u8; Setup::RESOURCES], task: Task) -> u8
    ensures { result ≡ mode_in kinds task }
{
    let holds = states::has_kind(kinds, task.requests, task.depth, Setup::SHORT);
    mode_for(task.standing, holds)
}

// The mode of each task's job.
pub fn modes_of(kinds: [u8; Setup::RESOURCES], tasks: [Task; Setup::TASKS]) -> [u8; Setup::TASKS]
    ensures { result ≡ table (λ t. mode_in kinds (get_or tasks t no_task)) most_tasks }
{
    array::from_fn(|t| mode_in(kinds, tasks[t]))
}

// What the scheduler is given of the jobs, from the kinds and the count of the resources, the tasks and the groups.
#[tactic(auto, unfolding(crate::specs::Bounds::jobs_in))]
pub fn jobs_of(
    kinds: [u8; Setup::RESOURCES],
    resources: usize,
    tasks: [Task; Setup::TASKS],
    groups: [Group; Setup::RESOURCES],
) -> Jobs
    ensures { result ≡ jobs_in kinds resources tasks groups }
{
    let own = own_ranks(tasks);
    Jobs {
        ranks: ranks_of(own, kinds, resources, groups),
        modes: modes_of(kinds, tasks),
    }
}
