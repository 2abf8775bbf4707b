// The plain engine: the sessions of `locking`, worked out in the plainest way. The pending jobs stand in one array by
// priority, and links are read off it.
//
// To be read from here: `stepping` has an event from its answer to the new order, `ordering` puts the jobs in order,
// `moving` reads links and placements off the order, and `playing` takes the events of a part one after another.
#![tactic(auto)]

mod moving;
mod ordering;
mod playing;
mod stepping;

use input::Setup;
pub use playing::play;
use protocol::State;
pub use stepping::{begin, empty, step};

// The pending jobs, suspended ones too, by effective priority: the tasks in the first `pending` places, the
// highest-priority one first. The other places have nobody. As memory is fixed, this is an array with room for all
// tasks and a count, and so specs/Orders and the contracts have it.
#[derive(Clone, Copy, PartialEq, Eq)]
pub struct Order {
    pub tasks: [u8; Setup::TASKS],
    pub pending: usize,
}

// A session: the state, and the order of its pending jobs.
#[derive(Clone, Copy)]
pub struct Plain {
    pub state: State,
    pub order: Order,
}
