// What is read from a state: situations and what each refuses, totals, links and placements.
ghost use Rattle.std.specs.Prelude.{◌≡◌};
ghost use Rattle.numbers.specs.Answers.{answer_of};
ghost use Rattle.processors.specs.Words.{link, runs};
ghost use Rattle.protocol.specs.Words.{task as task_record};
ghost use Rattle.protocol.specs.Situations.{situation as situation_rule, situation_refusal};
ghost use Rattle.states.specs.Writing.{snapshot_of};

use crate::records::task_at;
use crate::standings::{situation_of, stand_of};
use numbers::Refusal;
use processors::Processors;
use protocol::{Situation, State, Task};

// What the job of task `t` is doing.
#[tactic(auto, unfolding(protocol::specs::Situations::situation, protocol::specs::Words::stand))]
pub fn situation(state: State, t: u8) -> Situation
    ensures { result ≡ situation_rule state t }
{
    let task = task_at(state.tasks, t);
    situation_of(stand_of(task.standing), state.processors, t)
}

// The refusal of a finish, request or completion in a situation: 18, 26, 19 or 20. It tells a suspended job from one
// that could run and is on no processor.
pub fn situation_refusal(situation: Situation) -> Result<(), Refusal>
    ensures { answer_of result ≡ situation_refusal situation }
{
    match situation {
        Situation::NoJob => Err(Refusal::NotPending),
        Situation::Suspended => Err(Refusal::IsSuspended),
        Situation::LinkedOnly | Situation::Ready => Err(Refusal::OnNoProcessor),
        Situation::Spinning => Err(Refusal::IsSpinning),
        Situation::Running => Ok(()),
    }
}

// The totals of task `t`: running, spinning, linked but not running, ready, direct blocking, suspended otherwise.
pub fn totals_of(state: State, t: u8) -> [u32; Task::TOTALS]
    ensures { result ≡ (task_record state t).totals }
{
    task_at(state.tasks, t).totals
}

// The task that processor `k` is linked to, or nobody.
pub fn linked_to(state: State, k: usize) -> u8
    ensures { result ≡ link state.processors k }
{
    processors::link_at(state.processors, k)
}

// The task that processor `k` runs, or nobody.
pub fn running_on(state: State, k: usize) -> u8
    ensures { result ≡ runs state.processors k }
{
    processors::runs_at(state.processors, k)
}

// The snapshot of an event: its answer, and for each processor the linked and the running task after it.
pub fn snapshot_of(answer: u8, p: Processors) -> [u8; State::SNAPSHOT]
    ensures { result ≡ snapshot_of answer p }
{
    let mut snapshot = [answer; State::SNAPSHOT];
    // By a processor's number, which gives two places of the snapshot.
    for k in 0..Processors::LIMIT {
        snapshot[2 * k + 1] = processors::link_at(p, k);
        snapshot[2 * k + 2] = processors::runs_at(p, k);
    }
    snapshot
}
