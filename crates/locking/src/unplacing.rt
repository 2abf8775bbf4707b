// One event without the scheduler's part: its answer, and what it does to the clock, the totals, the tasks and the
// groups. Links and placements stay as they were, for another engine to work out.
ghost use Rattle.std.specs.Prelude.{◌≡◌, ◌<◌, ◌≤◌};
ghost use Rattle.numbers.specs.Limits.{most_tasks, most_resources};
ghost use Rattle.input.specs.Kinds.{request as asking, completion};
ghost use Rattle.setups.specs.Naming.{group_of};
ghost use Rattle.protocol.specs.Refusals.{step_of, judge};
ghost use Rattle.protocol.specs.Events.{charged as charged_rule};
ghost use Rattle.protocol.specs.Replies.{reply_from};
ghost use Rattle.protocol.specs.Edited.{edited as edited_rule, unplaced as unplaced_rule};
ghost use Rattle.locking.specs.Acting.{CanAct};
ghost use Rattle.locking.specs.Edits.{put as put_rule};

use crate::acting::{edited, hand_over};
use crate::clock::step_to;
use crate::counting::{charge, totals_of, with_totals};
use crate::events::judge_event;
use crate::moving::kept_of;
use crate::playing::place_in;
use crate::ranking::all_ahead;
use input::Event;
use numbers::{Limit, Refusal};
use protocol::{Group, State, Task};

// The state with the clock moved on to the accepted event `e`, and its ticks charged to each pending task.
fn charged(state: State, e: Event) -> State
    requires { judge state e ≡ 0 }
    ensures { result ≡ charged_rule (step_of state e) state }
{
    let setup = state.setup;
    let kinds = setup.kinds;
    let tasks = state.tasks;
    let groups = state.groups;
    let p = state.processors;
    let kept = kept_of(kinds, tasks);
    let stands = kept.stands;
    let ahead = all_ahead(&kept.stands, &kept.own, setup.tasks);
    let mut totals = totals_of(tasks);
    let ticks = step_to(state.clock, e.tick);
    charge(&mut totals, stands, ahead, p, setup.tasks, ticks);
    State {
        setup,
        clock: state.clock + (ticks as u32),
        tasks: with_totals(tasks, totals),
        groups,
        processors: p,
    }
}

// The state with `task` as the record of task `t`, and `group` as that at place `g`.
fn put(state: State, t: u8, g: usize, task: Task, group: Group) -> State
    requires { (t < most_tasks) × (g < most_resources) }
    ensures { result ≡ put_rule t g task group state }
{
    let i = t as usize;
    let mut next = state;
    next.tasks[i] = task;
    next.groups[g] = group;
    next
}

// What event `e` does to the tasks and to its group, at place `g`; any place where it has none.
fn edit_state(state: State, g: usize, e: Event) -> State
    requires { CanAct state e × (g < most_resources)
        × ((asking ≤ e.kind) × (e.kind ≤ completion) → g ≡ group_of state.setup e.resource) }
    ensures { result ≡ edited_rule state.setup e state }
{
    let setup = state.setup;
    let kinds = setup.kinds;
    let tasks = state.tasks;
    let groups = state.groups;
    let task = states::task_at(tasks, e.task);
    let held = groups[g];
    let due = states::due_at(setup, e.task, state.clock);
    let edit = edited(kinds, due, state.clock, task, held, e);
    let mine = edit.task;
    let group = edit.group;
    let next = put(state, e.task, g, mine, group);
    if edit.next == Limit::NOBODY {
        return next;
    }
    let others = next.tasks;
    let waits = states::task_at(others, edit.next);
    let given = hand_over(waits, group, edit.turn, edit.next);
    let heir = given.task;
    let passed = given.group;
    put(next, edit.next, g, heir, passed)
}

// The state after an event but for links and placements, which are as they were; or the event's refusal.
pub fn unplaced(state: State, e: Event) -> Result<State, Refusal>
    ensures { reply_from state result ≡ unplaced_rule state e }
{
    judge_event(state, e)?;
    let later = charged(state, e);
    let setup = state.setup;
    let naming = setups::names_of(setup);
    Ok(edit_state(later, place_in(naming, e.resource), e))
}
