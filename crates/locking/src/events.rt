// One event: its answer, and the state after it.
ghost use Rattle.std.specs.Prelude.{◌≡◌};
ghost use Rattle.numbers.specs.Answers.{answer_of};
ghost use Rattle.protocol.specs.Refusals.{judge as judge_rule};
ghost use Rattle.protocol.specs.Events.{step as step_rule};
ghost use Rattle.protocol.specs.Replies.{reply_from};

use crate::judging::judge_parts;
use crate::session::Session;
use input::Event;
use numbers::Refusal;
use protocol::State;

// The first of 9 to 26 that applies.
pub fn judge_event(state: State, e: Event) -> Result<(), Refusal>
    ensures { answer_of result ≡ judge_rule state e }
{
    let tested = soundness::test(state);
    let naming = tested.naming;
    let setup = state.setup;
    let tasks = state.tasks;
    let p = state.processors;
    let task = states::task_at(tasks, e.task);
    judge_parts(setup, state.clock, task, p, naming, tested.passes, e)
}

// The state after an event, or its refusal.
pub fn step(state: State, e: Event) -> Result<State, Refusal>
    ensures { reply_from state result ≡ step_rule state e }
{
    let mut session = Session::begin(state);
    session.take(e)?;
    Ok(session.end())
}
