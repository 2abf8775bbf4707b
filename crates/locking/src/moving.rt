// The scheduler's move that follows an edit, and the numbers of each task that moves and charges look up.
ghost use Rattle.std.specs.Prelude.{◌≡◌, ◌<◌, min, ◌⊎◌};
ghost use Rattle.search.specs.Table.{table};
ghost use Rattle.processors.specs.Words.{jobs_from, first_modes};
ghost use Rattle.numbers.specs.Limits.{most_tasks, most_resources};
ghost use Rattle.priorities.specs.Bounds.{rank_with};
ghost use Rattle.locking.specs.Edits.{leave, give_way, turn_no, moved_with};
ghost use Rattle.locking.specs.Keeping.{kept_in, kept_with};

use crate::acting::Turn;
use input::Setup;
use numbers::Limit;
use processors::{Jobs, Processors};
use protocol::{Group, Task};

// What moves and charges look up of each task: its own rank, its mode and its standing's number. It is kept up to
// date from event to event, so that no event has to read every record. Three tables, as each is lent alone.
#[derive(Clone, Copy)]
pub struct Kept {
    pub own: [u64; Setup::TASKS],
    pub modes: [u8; Setup::TASKS],
    pub stands: [u8; Setup::TASKS],
}

// What is kept, from the records.
pub fn kept_of(kinds: [u8; Setup::RESOURCES], tasks: [Task; Setup::TASKS]) -> Kept
    ensures { result ≡ kept_in kinds tasks }
{
    Kept {
        own: priorities::own_ranks(tasks),
        modes: priorities::modes_of(kinds, tasks),
        stands: states::stands_of(tasks),
    }
}

// What is kept, with `task` as the new record of task `t`.
pub fn keep(kept: Kept, kinds: [u8; Setup::RESOURCES], task: Task, t: u8) -> Kept
    requires { t < most_tasks }
    ensures { result ≡ kept_with kinds t task kept }
{
    let i = t as usize;
    let standing = task.standing;
    let mut next = kept;
    next.own[i] = priorities::own_rank(task.deadline, t);
    next.modes[i] = priorities::mode_in(kinds, task);
    next.stands[i] = states::stand_of(standing);
    next
}

// What the scheduler knows of the jobs: their effective ranks, from the own ranks and the groups, and their modes.
fn jobs_of(kept: Kept, setup: Setup, groups: [Group; Setup::RESOURCES]) -> Jobs
    ensures { result ≡ jobs_from
        (table (rank_with kept.own setup.kinds (min setup.resources most_resources) groups) most_tasks)
        kept.modes }
{
    let kinds = setup.kinds;
    let own = kept.own;
    let modes = kept.modes;
    let ranks = priorities::ranks_of(own, kinds, setup.resources, groups);
    Jobs { ranks, modes }
}

// The processors after the move `turn` of task `t`. The effective ranks are computed anew, from the own ranks and the
// groups as they are now, where the move needs them.
pub fn moved(
    turn: Turn,
    p: Processors,
    kept: Kept,
    setup: Setup,
    groups: [Group; Setup::RESOURCES],
    t: u8,
) -> Processors
    requires { (turn_no turn ≡ leave) ⊎ (turn_no turn ≡ give_way)
        → first_modes setup.tasks kept.modes ≡ kept.modes }
    ensures { result ≡ moved_with (turn_no turn) p (jobs_from
        (table (rank_with kept.own setup.kinds (min setup.resources most_resources) groups) most_tasks)
        kept.modes) t }
{
    match turn {
        Turn::Stay => p,
        Turn::BecomePreemptable => scheduler::become_preemptable(p, t),
        Turn::Arrive => scheduler::arrive(p, &jobs_of(kept, setup, groups), t, Limit::NOBODY),
        Turn::Leave => scheduler::leave(p, &jobs_of(kept, setup, groups), setup.tasks, t),
        Turn::GiveWay => scheduler::give_way(p, &jobs_of(kept, setup, groups), setup.tasks, t),
    }
}
