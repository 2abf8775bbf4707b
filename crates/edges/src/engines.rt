// Both engines side by side: after each event of a file the answers and the whole states are compared, and the pages
// of each block. Behind the files, sessions whose order is not that of their state, as calls.
use crate::printed;
use crate::reporting::{end_row, print_answer, print_flag, print_number};
use input::{Event, Setup};
use numbers::Limit;
use pages::{Engine, Page, Session};
use plain::{Order, Plain};
use protocol::State;
use std::io;

// A session on both engines, how many events there were, and after how many of them the engines agreed; and the same
// of the pages.
#[derive(Clone, Copy)]
pub struct Both {
    pub state: State,
    pub plain: Plain,
    pub events: u64,
    pub alike: u64,
    pub pages: u64,
    pub alike_pages: u64,
}

// One more, if the engines agreed. `timing` has the like: the two programs share nothing but `streams`, which reads.
fn count_if(alike: bool, count: u64) -> u64 {
    if alike { count.wrapping_add(1) } else { count }
}

// The session that a set-up begins with.
pub fn begin(setup: Setup) -> Both {
    Both {
        state: printed::begun(setup),
        plain: printed::begun_plain(setup),
        events: 0,
        alike: 0,
        pages: 0,
        alike_pages: 0,
    }
}

// Whether both engines give the same page of what was read: the same text, and the same state after it.
fn is_page_alike(session: Session, read: &[u8]) -> bool {
    let mut out = [0u8; Page::LIMIT];
    let mut other_out = [0u8; Page::LIMIT];
    let page = pages::next_page(session, read, &mut out, Engine::Locking);
    let other = pages::next_page(session, read, &mut other_out, Engine::Plain);
    match (page, other) {
        (Ok(page), Ok(other)) => {
            out == other_out && page.len == other.len && page.session.state == other.session.state
        }
        _ => false,
    }
}

// The session with one page more.
pub fn with_page(both: Both, session: Session, read: &[u8]) -> Both {
    Both {
        pages: both.pages.wrapping_add(1),
        alike_pages: count_if(is_page_alike(session, read), both.alike_pages),
        ..both
    }
}

// One event on both.
fn step(both: Both, e: Event) -> Both {
    let first = locking::step(both.state, e);
    let other = plain::step(both.plain, e);
    let state = first.unwrap_or(both.state);
    let plain = other.unwrap_or(both.plain);
    let alike = numbers::answer_of(&first) == numbers::answer_of(&other) && state == plain.state;
    Both {
        state,
        plain,
        events: both.events.wrapping_add(1),
        alike: count_if(alike, both.alike),
        ..both
    }
}

// The events of a part on both.
pub fn step_all(begun: Both, part: &[u8]) -> Both {
    (0..input::event_count(part)).fold(begun, |both, i| step(both, input::event_at(part, i)))
}

// Prints after how many events the engines agreed, and in how many pages.
pub fn tell(rt: &impl Print, both: Both) -> io::Result<()> {
    println!(rt;
        "alike {} of {} events, {} of {} pages",
        both.alike, both.events, both.alike_pages, both.pages
    )
}

// Prints an order: how many are pending, and the first four places.
fn print_order(rt: &impl Print, order: Order) -> io::Result<()> {
    print_number(rt, order.pending as u64)?;
    for task in &order.tasks[..4] {
        print_answer(rt, *task)?;
    }
    Ok(())
}

// Prints a session's order, the answer to an event of this kind in it, and whether its state is as before; then the
// order after it.
fn tell_order(rt: &impl Print, session: Plain, kind: u8) -> io::Result<()> {
    let e = Event {
        kind,
        task: 0,
        resource: 0,
        tick: 9,
    };
    let stepped = plain::step(session, e);
    let after = stepped.unwrap_or(session);
    print!(rt; "order")?;
    print_order(rt, session.order)?;
    print_answer(rt, numbers::answer_of(&stepped))?;
    print_flag(rt, after.state == session.state)?;
    print_order(rt, after.order)?;
    end_row(rt)
}

// A session with these tasks in its first four places, and so many pending.
fn with_order(session: Plain, places: [u8; 4], pending: usize) -> Plain {
    let mut tasks = [Limit::NOBODY; Setup::TASKS];
    tasks[..4].copy_from_slice(&places);
    Plain {
        order: Order { tasks, pending },
        ..session
    }
}

// The busy session in its order: task 2, task 0, task 1. With two jobs exchanged; with one counted too few; with a
// task behind the last; and with nobody and the largest count. Time passes to tick 9; and an event of no kind.
pub fn run_all(rt: &impl Print) -> io::Result<()> {
    let none = Limit::NOBODY;
    let busy = printed::busy_plain();
    tell_order(rt, busy, Event::PASSING)?;
    tell_order(rt, busy, 0)?;
    let exchanged = with_order(busy, [0, 2, 1, none], 3);
    tell_order(rt, exchanged, Event::PASSING)?;
    tell_order(rt, exchanged, 0)?;
    tell_order(rt, with_order(busy, [2, 0, 1, none], 2), Event::PASSING)?;
    tell_order(rt, with_order(busy, [2, 0, 1, 3], 3), Event::PASSING)?;
    tell_order(rt, with_order(busy, [none; 4], usize::MAX), Event::PASSING)
}
