// Locking: sessions stepped by events. Every public function is defined for any content, by the rules of `protocol`.
//
// What private functions require of a task, a place or a depth holds of an accepted event on a sound state (`CanAct` in
// specs/Acting). No type can say it, since a state and an event may hold any number.
#![tactic(auto)]

mod acting;
mod clock;
mod counting;
mod edits;
mod events;
mod judging;
mod moving;
mod playing;
mod ranking;
mod session;
mod unplacing;

pub use events::{judge_event, step};
pub use playing::play;
use protocol::State;
pub use unplacing::unplaced;

// The state after the events of a part that were played, and how many they were.
#[derive(Clone, Copy)]
pub struct Played {
    pub state: State,
    pub count: usize,
}
