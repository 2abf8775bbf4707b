// Stepping through a block file: a page of lines for each block, and a last one at the input's end.
#![tactic(auto)]

mod printing;
mod writing;

ghost use Rattle.std.specs.Prelude.{◌≡◌};
ghost use Rattle.locking.specs.Playing.{played};

use blocks::Block;
use locking::Played;
pub use printing::{begin, next_page};
use protocol::State;

// What is kept between two blocks: the index of the next one, the number of events so far, whether the output has
// ended, the state, and whether a block or the set-up was refused, which ends the output. The two flags are those of
// `ended` and `next_page` in specs/Pages, which say what follows for any values of them.
#[derive(Clone, Copy)]
pub struct Session {
    pub index: u64,
    pub events: u64,
    pub over: bool,
    pub state: State,
    pub refused: bool,
}

// A page: the session after it and the length of its text.
#[derive(Clone, Copy)]
pub struct Page {
    pub session: Session,
    pub len: usize,
}

impl Page {
    // The least size of a page's buffer, in bytes: a line for each event of a block.
    pub const LIMIT: usize = Block::MOST_EVENTS as usize * lines::LIMIT;
}

// What plays the events. Both give the same.
#[derive(Clone, Copy, Debug, PartialEq, Eq)]
pub enum Engine {
    Locking,
    Plain,
}

impl Engine {
    // Plays the events of a part, and writes a snapshot of each.
    fn play(self, state: State, part: &[u8], out: &mut [u8]) -> Played
        ensures { (result, out.new) ≡ played state part.now out.old }
    {
        match self {
            Engine::Locking => locking::play(state, part, out),
            Engine::Plain => plain::play(state, part, out),
        }
    }
}
