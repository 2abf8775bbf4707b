// What every function answers on a state. On each hostile one it is 9, at once; the state that goes with that is the
// one that was given, and the rows print it as they print the state after any other event.
//
// A state and what is printed of it, `which`, are passed side by side: a struct of both would be taken apart at once.
use crate::hostile::{Place, hostile, hostile_throughout};
use crate::page_calls::{event_block, print_page};
use crate::printed;
use crate::reporting::{LENT, end_row, print_answer, print_flag, print_line, print_number};
use input::Event;
use locking::Played;
use numbers::Refusal;
use pages::{Page, Session};
use plain::{Order, Plain};
use processors::Jobs;
use protocol::State;
use std::io;

// Time passes to tick 9; then an event in which each number is the largest.
const TWO_EVENTS: [u8; 12] = [5, 0, 0, 0, 9, 0, 255, 255, 255, 255, 255, 255];

// The first of them.
const PASSING: Event = Event {
    kind: Event::PASSING,
    task: 0,
    resource: 0,
    tick: 9,
};

// Begins the row of a state, with a word for what is in it.
fn begin_row(rt: &impl Print, which: u64, word: &str) -> io::Result<()> {
    print!(rt; "hostile {which} {word}")
}

// Has both events played, and prints the answers to them, how many they were, and whether the state is as before;
// that ends the row.
fn tell_played<F: FnOnce(State, &[u8], &mut [u8]) -> Played>(
    rt: &impl Print,
    state: State,
    play: F,
) -> io::Result<()>
    requires { F.IsAlwaysCallable play }
{
    let mut written = [LENT; 2 * State::SNAPSHOT];
    let played = play(state, &TWO_EVENTS, &mut written);
    print_answer(rt, written[0])?;
    print_answer(rt, written[State::SNAPSHOT])?;
    print_number(rt, played.count as u64)?;
    print_flag(rt, played.state == state)?;
    end_row(rt)
}

// Prints whether the state is the busy one, which shows that the comparison sees each number; the first event judged,
// and stepped, and whether the state is as before; and both events played.
fn tell_events(rt: &impl Print, which: u64, state: State, busy: State) -> io::Result<()> {
    begin_row(rt, which, "events")?;
    print_flag(rt, state == busy)?;
    print_answer(
        rt,
        numbers::answer_of(&locking::judge_event(state, PASSING)),
    )?;
    let stepped = locking::step(state, PASSING);
    print_answer(rt, numbers::answer_of(&stepped))?;
    print_flag(rt, stepped.unwrap_or(state) == state)?;
    tell_played(
        rt,
        state,
        |begun, part, out| locking::play(begun, part, out),
    )
}

// Prints the first event stepped by the plain engine, in the busy session's order, and whether the state is as before;
// and both events played by it.
fn tell_plain(rt: &impl Print, which: u64, state: State, order: Order) -> io::Result<()> {
    let x = Plain { state, order };
    let stepped = plain::step(x, PASSING);
    begin_row(rt, which, "plain")?;
    print_answer(rt, numbers::answer_of(&stepped))?;
    print_flag(rt, stepped.unwrap_or(x).state == state)?;
    tell_played(rt, state, |begun, part, out| plain::play(begun, part, out))
}

// How many runnable jobs the scheduler is given.
fn jobs_seen(state: State) -> u64 {
    let setup = state.setup;
    let jobs = priorities::jobs_of(setup.kinds, setup.resources, state.tasks, state.groups);
    (0..Jobs::END)
        .filter(|t| Jobs::PREEMPTABLE <= processors::mode_of(&jobs.modes, *t))
        .count() as u64
}

// Has a line written into a buffer of its own, and prints it.
fn tell_line<F: FnOnce(&mut [u8]) -> Result<usize, Refusal>>(
    rt: &impl Print,
    write: F,
) -> io::Result<()>
    requires { F.IsAlwaysCallable write }
{
    let mut out = [LENT; lines::LIMIT];
    let line = write(&mut out);
    print_line(rt, line, &out)
}

// Prints whether the state is sound, its runnable jobs, and its three lines.
fn tell_lines(rt: &impl Print, which: u64, state: State) -> io::Result<()> {
    begin_row(rt, which, "state")?;
    print_flag(rt, soundness::is_sound(state))?;
    print_number(rt, jobs_seen(state))?;
    tell_line(rt, |out| lines::first_line(state, out))?;
    tell_line(rt, |out| lines::event_line(state, 6, 0, out))?;
    tell_line(rt, |out| lines::task_line(state, 0, out))?;
    end_row(rt)
}

// Prints the pages of a session with that state, after its set-up and five events: of a block of one event, and at
// the end.
fn tell_pages(rt: &impl Print, which: u64, state: State) -> io::Result<()> {
    let session = Session {
        index: 1,
        events: 5,
        over: false,
        state,
        refused: false,
    };
    let block = event_block(1);
    begin_row(rt, which, "block")?;
    print_page(rt, session, &block, Page::LIMIT)?;
    begin_row(rt, which, "end")?;
    print_page(rt, session, b"", Page::LIMIT)
}

// All rows of a state.
fn tell_state(rt: &impl Print, which: u64, state: State, busy: Plain) -> io::Result<()> {
    tell_events(rt, which, state, busy.state)?;
    tell_plain(rt, which, state, busy.order)?;
    tell_lines(rt, which, state)?;
    tell_pages(rt, which, state)
}

// The busy state, each hostile one by its number, and the one that is hostile in every place.
pub fn run_all(rt: &impl Print) -> io::Result<()> {
    let busy = printed::busy_plain();
    tell_state(rt, 0, busy.state, busy)?;
    for (which, place) in (1..).zip(Place::ALL) {
        tell_state(rt, which, hostile(busy.state, place), busy)?;
    }
    tell_state(rt, 33, hostile_throughout(busy.state), busy)
}
