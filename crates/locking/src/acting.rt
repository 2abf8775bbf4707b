// What an accepted event does to the records of its task and its group.
ghost use Rattle.std.specs.Prelude.{◌≡◌, ◌<◌, ◌≤◌, ◌||◌};
ghost use Rattle.search.specs.Words.{◌is◌};
ghost use Rattle.input.specs.Kinds.{request as asking, completion};
ghost use Rattle.numbers.specs.Limits.{most_requests};
ghost use Rattle.locking.specs.Edits.{arrive, leave, turn_no, edit_from, requesting, completing, editing, handing};

use crate::edits::{arrived, closed, departed, lock_of, opened};
use input::{Event, Kind, Setup};
use numbers::Limit;
use protocol::{Group, Standing, Task};

// The scheduler's move that follows.
#[derive(Clone, Copy, Debug, PartialEq, Eq)]
pub enum Turn {
    // None.
    Stay,
    // A job becomes preemptable.
    BecomePreemptable,
    // It arrives or resumes.
    Arrive,
    // It finishes or suspends.
    Leave,
    // Its priority is restored, and a higher one may take its processor.
    GiveWay,
}

impl Turn {
    // It may change who outranks whom: a job arrives, resumes, finishes or suspends.
    pub fn ranks_again(self) -> bool
        ensures { result ≡ (turn_no self is arrive || turn_no self is leave) }
    {
        matches!(self, Turn::Arrive | Turn::Leave)
    }
}

// The records of an event's task and group after it, the scheduler's move `turn` that follows, and the task `next`
// that is then handed the group. Both records are always there, changed or not: so every kind of event is done alike,
// by reading the two, storing them back and making the move. `next` is nobody, as a place of a queue is, and no
// `None`: a queue of any content may hold nobody at its first place, and then nobody is handed the group.
#[derive(Clone, Copy)]
pub struct Edit {
    pub task: Task,
    pub group: Group,
    pub turn: Turn,
    pub next: u8,
}

// Task `t` requests `r`: it holds the group at once, or it is enqueued at the end and spins or suspends.
#[tactic(auto, unfolding(crate::specs::Edits::requesting))]
fn request(kinds: [u8; Setup::RESOURCES], task: Task, group: Group, t: u8, r: u8) -> Edit
    requires { task.depth < most_requests }
    ensures { edit_from result ≡ requesting kinds task group t r }
{
    let requests = task.requests;
    let queue = group.queue;
    let kind = states::kind_at(kinds, r);
    if states::has_kind(kinds, requests, task.depth, kind) | (group.holder == Limit::NOBODY) {
        Edit {
            task: opened(task, r),
            group: Group { holder: t, queue },
            turn: Turn::Stay,
            next: Limit::NOBODY,
        }
    } else {
        let waits = states::with_standing(task, Standing::Waiting(lock_of(kind, r)));
        let longer = queue.append(t);
        Edit {
            task: waits,
            group: Group {
                holder: group.holder,
                queue: longer,
            },
            turn: if kind == Setup::SHORT {
                Turn::Stay
            } else {
                Turn::Leave
            },
            next: Limit::NOBODY,
        }
    }
}

// The newest request, that for `r`, is closed; if it was outermost, the group is free, to be handed to the first in
// its queue.
#[tactic(auto, unfolding(crate::specs::Edits::completing))]
fn complete(kinds: [u8; Setup::RESOURCES], task: Task, group: Group, r: u8) -> Edit
    requires { (0 < task.depth) × (task.depth ≤ most_requests) }
    ensures { edit_from result ≡ completing kinds task group r }
{
    let done = closed(task);
    let requests = done.requests;
    let queue = group.queue;
    let kind = states::kind_at(kinds, r);
    if states::has_kind(kinds, requests, done.depth, kind) {
        Edit {
            task: done,
            group,
            turn: Turn::Stay,
            next: Limit::NOBODY,
        }
    } else {
        Edit {
            task: done,
            group: Group {
                holder: Limit::NOBODY,
                queue,
            },
            turn: if kind == Setup::SHORT {
                Turn::BecomePreemptable
            } else {
                Turn::GiveWay
            },
            next: if queue.len == 0 {
                Limit::NOBODY
            } else {
                queue.first()
            },
        }
    }
}

// Event `e` at `clock`, on the records of its task and of its group. A job that arrives has the deadline `due`.
#[tactic(auto, unfolding(crate::specs::Edits::editing))]
pub fn edited(
    kinds: [u8; Setup::RESOURCES],
    due: u64,
    clock: u32,
    task: Task,
    group: Group,
    e: Event,
) -> Edit
    requires { (e.kind ≡ asking → task.depth < most_requests)
        × (e.kind ≡ completion → (0 < task.depth) × (task.depth ≤ most_requests)) }
    ensures { edit_from result ≡ editing kinds due clock task group e }
{
    let stays = Edit {
        task,
        group,
        turn: Turn::Stay,
        next: Limit::NOBODY,
    };
    match Kind::try_from(e.kind) {
        Ok(Kind::Arrival) => Edit {
            task: arrived(task, clock, due),
            group,
            turn: Turn::Arrive,
            next: Limit::NOBODY,
        },
        Ok(Kind::Finish) => Edit {
            task: departed(task),
            group,
            turn: Turn::Leave,
            next: Limit::NOBODY,
        },
        Ok(Kind::Request) => request(kinds, task, group, e.task, e.resource),
        Ok(Kind::Completion) => complete(kinds, task, group, e.resource),
        Ok(Kind::Passing) => stays,
        Err(_) => stays,
    }
}

// The queue's first job, task `next` with the record `task`, is dequeued and becomes holder of `group`, and what it
// asked for is open. `turn` is the completer's move: where that was to give way, the group is long, and `next`
// resumes.
#[tactic(auto, unfolding(crate::specs::Edits::handing))]
pub fn hand_over(task: Task, group: Group, turn: Turn, next: u8) -> Edit
    requires { task.depth < most_requests }
    ensures { edit_from result ≡ handing task group (turn_no turn) next }
{
    let standing = task.standing;
    let queue = group.queue;
    let rest = queue.without_first();
    Edit {
        task: opened(
            states::with_standing(task, Standing::Active),
            states::asked_of(standing),
        ),
        group: Group {
            holder: next,
            queue: rest,
        },
        turn: if turn == Turn::GiveWay {
            Turn::Arrive
        } else {
            Turn::Stay
        },
        next,
    }
}
