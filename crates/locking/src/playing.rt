// The events of a whole part, with one sound test.
ghost use Rattle.std.specs.Prelude.{◌≡◌, ◌<◌, slice_index_or};
ghost use Rattle.numbers.specs.Limits.{most_resources, nothing};
ghost use Rattle.locking.specs.Playing.{played};

use crate::Played;
use crate::session::Session;
use input::Setup;
use protocol::State;

// The place of the group of resource `r`; place 0 where it has none, as some record has to be read and stored back.
pub fn place_in(naming: [u8; Setup::RESOURCES], r: u8) -> usize
    ensures { (result < most_resources)
        × (slice_index_or naming r nothing < most_resources → result ≡ slice_index_or naming r nothing) }
{
    let g = numbers::number_at(&naming, r as usize) as usize;
    if g < Setup::RESOURCES { g } else { 0 }
}

// Plays as many events as `part` has whole and `out` has room for, and writes the snapshot of each into `out`;
// returns the state after them, and how many they were.
pub fn play(state: State, part: &[u8], out: &mut [u8]) -> Played
    ensures { (result, out.new) ≡ played state part.now out.old }
{
    let room = out.len() / State::SNAPSHOT;
    let count = input::event_count(part).min(room);
    let mut session = Session::begin(state);
    let mut at = 0;
    // By an event's number, which gives its place in the part.
    for i in 0..count {
        let taken = session.take(input::event_at(part, i));
        let snapshot = states::snapshot_of(numbers::answer_of(&taken), session.state.processors);
        at = states::put_snapshot(out, at, snapshot);
    }
    let state = session.end();
    Played { state, count }
}
