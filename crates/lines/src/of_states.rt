// The lines of a state: first the sound test, then a line that needs no state.
#![tactic(auto, using(crate::proofs::Lines::row_refused, crate::proofs::Lines::row_passed))]

ghost use Rattle.std.specs.Prelude.{◌≡◌, []};
ghost use Rattle.numbers.specs.Answers.{answer_of};
ghost use Rattle.numbers.specs.Rows.{first_of};
ghost use Rattle.lines.specs.Lines.{line_from};
ghost use Rattle.lines.specs.StateLines.{unsound, first_line, event_line, task_line};

use crate::of_numbers::{counts_line, places_line, totals_line};
use numbers::Refusal;
use protocol::State;

// Refuses a state that is not sound.
fn judge_sound(state: &State) -> Result<(), Refusal>
    ensures { answer_of result ≡ first_of (unsound state.now []) }
{
    if !soundness::is_sound(*state) {
        return Err(Refusal::NotSound);
    }
    Ok(())
}

// The first line: the counts of processors and tasks, and the start.
pub fn first_line(state: State, out: &mut [u8]) -> Result<usize, Refusal>
    ensures { (line_from result, out.new) ≡ first_line out.old state }
{
    judge_sound(&state)?;
    let setup = state.setup;
    counts_line(setup.processors, setup.tasks, setup.start, out)
}

// The line of an event with this number and answer that left this state.
pub fn event_line(state: State, number: u64, answer: u8, out: &mut [u8]) -> Result<usize, Refusal>
    ensures { (line_from result, out.new) ≡ event_line out.old state number answer }
{
    judge_sound(&state)?;
    let snapshot = states::snapshot_of(answer, state.processors);
    places_line(number, state.setup.processors, &snapshot, out)
}

// A task's line.
pub fn task_line(state: State, t: u8, out: &mut [u8]) -> Result<usize, Refusal>
    ensures { (line_from result, out.new) ≡ task_line out.old state t }
{
    judge_sound(&state)?;
    if state.setup.tasks <= usize::from(t) {
        return Err(Refusal::TaskUnknown);
    }
    totals_line(t, states::totals_of(state, t), out)
}
