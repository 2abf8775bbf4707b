// A session while the events of a part are played on it.
ghost use Rattle.std.specs.Prelude.{◌≡◌, ◌<◌, ◌⊎◌, get_or};
ghost use Rattle.numbers.specs.Answers.{answer_of};
ghost use Rattle.numbers.specs.Limits.{most_tasks, most_resources};
ghost use Rattle.processors.specs.Words.{first_modes};
ghost use Rattle.protocol.specs.Records.{no_task};
ghost use Rattle.protocol.specs.Events.{step};
ghost use Rattle.protocol.specs.Refusals.{judge};
ghost use Rattle.protocol.specs.declared.State.{State};
ghost use Rattle.locking.specs.Edits.{leave, give_way, turn_no};
ghost use Rattle.locking.specs.Holding.{Holds, stored_in, turned_in};

use crate::acting::{Turn, edited, hand_over};
use crate::clock::step_to;
use crate::counting::{ALL_TOTALS, charge, totals_of, with_totals};
use crate::judging::judge_parts;
use crate::moving::{Kept, keep, kept_of, moved};
use crate::playing::place_in;
use crate::ranking::{all_ahead, rank_again};
use input::{Event, Setup};
use numbers::{Limit, Refusal};
use protocol::{Group, State, Task};

// The state, taken apart once for all events of a part, so that no event copies all of it: the totals are in one table,
// and those in its records out of date; whether it is sound, and the names of its groups, are found once; and what
// moves and charges look up is kept up to date.
#[derive(Clone, Copy)]
pub struct Session {
    pub state: State,
    pub sound: bool,
    pub naming: [u8; Setup::RESOURCES],
    pub totals: [u32; ALL_TOTALS],
    pub kept: Kept,
    pub ahead: [u8; Setup::TASKS],
}

impl Session {
    // The session at a state.
    pub fn begin(state: State) -> Session
        ensures { Holds state result }
    {
        let tested = soundness::test(state);
        let naming = tested.naming;
        let setup = state.setup;
        let totals = totals_of(state.tasks);
        let kept = kept_of(setup.kinds, state.tasks);
        let ahead = all_ahead(&kept.stands, &kept.own, setup.tasks);
        Session {
            state,
            sound: tested.passes,
            naming,
            totals,
            kept,
            ahead,
        }
    }

    // The state that it is at.
    pub fn end(&self) -> State
        ensures { (s : State) → Holds s self.now → result ≡ s }
    {
        let tasks = with_totals(self.state.tasks, self.totals);
        let mut state = self.state;
        state.tasks = tasks;
        state
    }

    // The record of task `t`, but for its totals; past the table, that of no task.
    fn task(&self, t: u8) -> Task
        ensures { result ≡ get_or self.now.state.tasks t no_task }
    {
        search::entry(&self.state.tasks, t as usize, states::no_task())
    }

    // The refusal of an event.
    fn judge(&self, e: Event) -> Result<(), Refusal>
        requires { (s : State) × Holds s self.now }
        ensures { (s : State) → Holds s self.now → answer_of result ≡ judge s e }
    {
        judge_parts(
            self.state.setup,
            self.state.clock,
            self.task(e.task),
            self.state.processors,
            self.naming,
            self.sound,
            e,
        )
    }

    // Stores the record of task `t` and that at place `g`.
    fn store(&mut self, t: u8, g: usize, task: Task, group: Group)
        requires { (t < most_tasks) × (g < most_resources) }
        ensures { self.new ≡ stored_in t g task group self.old }
    {
        self.state.tasks[t as usize] = task;
        self.state.groups[g] = group;
        self.kept = keep(self.kept, self.state.setup.kinds, task, t);
    }

    // Task `t` makes the move `turn`.
    fn turn(&mut self, turn: Turn, t: u8)
        requires { (turn_no turn ≡ leave) ⊎ (turn_no turn ≡ give_way)
            → first_modes self.old.state.setup.tasks self.old.kept.modes ≡ self.old.kept.modes }
        ensures { self.new ≡ turned_in (turn_no turn) t self.old }
    {
        self.state.processors = moved(
            turn,
            self.state.processors,
            self.kept,
            self.state.setup,
            self.state.groups,
            t,
        );
    }

    // An accepted event.
    fn accept(&mut self, e: Event)
        requires { (s : State) × Holds s self.old × (judge s e ≡ 0) }
        ensures { (s : State) → Holds s self.old → judge s e ≡ 0 → Holds (step s e).state self.new }
    {
        let setup = self.state.setup;
        let p = self.state.processors;
        let ticks = step_to(self.state.clock, e.tick);
        let stands = self.kept.stands;
        let ahead = self.ahead;
        charge(&mut self.totals, stands, ahead, p, setup.tasks, ticks);
        let clock = self.state.clock + (ticks as u32);
        self.state.clock = clock;
        let g = place_in(self.naming, e.resource);
        let task = self.task(e.task);
        let group = self.state.groups[g];
        let due = states::due_at(setup, e.task, clock);
        let edit = edited(setup.kinds, due, clock, task, group, e);
        self.store(e.task, g, edit.task, edit.group);
        // Nobody else changes who outranks whom: a job that is handed a group below was pending, and stays so.
        rank_again(
            &mut self.ahead,
            &self.kept.stands,
            &self.kept.own,
            setup.tasks,
            task,
            e.task,
            edit.turn.ranks_again(),
        );
        self.turn(edit.turn, e.task);
        if edit.next != Limit::NOBODY {
            let waits = self.task(edit.next);
            let given = hand_over(waits, edit.group, edit.turn, edit.next);
            self.store(edit.next, g, given.task, given.group);
            self.turn(given.turn, edit.next);
        }
    }

    // An event: its refusal, or it is played.
    pub fn take(&mut self, e: Event) -> Result<(), Refusal>
        requires { (s : State) × Holds s self.old }
        ensures { (s : State) → Holds s self.old
            → (answer_of result ≡ (step s e).answer) × Holds (step s e).state self.new }
    {
        self.judge(e)?;
        self.accept(e);
        Ok(())
    }
}
