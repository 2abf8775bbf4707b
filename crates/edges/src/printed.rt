// RULES.md, 'The worked cases': the set-up of the printed case, and its state after five events.
use input::{Event, Setup};
use plain::Plain;
use protocol::State;

// The set-up of the printed case, with this many processors.
fn setup(processors: usize) -> Setup {
    let mut periods = [0u16; Setup::TASKS];
    periods[..3].copy_from_slice(&[100, 200, 50]);
    Setup {
        processors,
        tasks: 3,
        resources: 1,
        start: 65530,
        periods,
        ..Setup::none()
    }
}

// The state that a set-up begins with; the empty one, if it is refused.
pub fn begun(setup: Setup) -> State {
    states::begin(setup).unwrap_or(states::empty())
}

// The same on the plain engine.
pub fn begun_plain(setup: Setup) -> Plain {
    plain::begin(setup).unwrap_or(plain::empty())
}

// The state that the printed case begins with, on this many processors.
pub fn state_on(processors: usize) -> State {
    begun(setup(processors))
}

// The set-up with a long resource as well, and a pair of it and the short one, which joins nothing: so it has a
// number of every sort.
pub fn busy_setup() -> Setup {
    let mut setup = setup(2);
    setup.resources = 2;
    setup.kinds[1] = Setup::LONG;
    setup.pairs = 1;
    setup.outer[0] = 1;
    setup.inner[0] = 0;
    setup
}

// An event of the printed case, whose only resource is 0.
fn event(kind: u8, task: u8, tick: u16) -> Event {
    Event {
        kind,
        task,
        resource: 0,
        tick,
    }
}

// The first five events of the printed case.
fn events() -> [Event; 5] {
    [
        event(Event::ARRIVAL, 0, 65530),
        event(Event::ARRIVAL, 1, 65532),
        event(Event::REQUEST, 1, 65535),
        event(Event::ARRIVAL, 2, 2),
        event(Event::REQUEST, 0, 4),
    ]
}

// The state of that set-up after five events. Task 1 holds resource 0 and runs on processor 1, to which task 2 is
// linked; task 0 spins for it on processor 0.
pub fn busy() -> State {
    events().iter().fold(
        begun(busy_setup()),
        |state, e| locking::step(state, *e).unwrap_or(state),
    )
}

// The busy state on the plain engine.
pub fn busy_plain() -> Plain {
    events().iter().fold(
        begun_plain(busy_setup()),
        |x, e| plain::step(x, *e).unwrap_or(x),
    )
}
