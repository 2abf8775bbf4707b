// The events of a whole part, one after another.
ghost use Rattle.std.specs.Prelude.{◌≡◌};
ghost use Rattle.locking.specs.Playing.{played};

use crate::Plain;
use crate::ordering::order_of;
use crate::stepping::step;
use locking::Played;
use protocol::State;

// Plays as many events as `part` has whole and `out` has room for, and writes the snapshot of each into `out`;
// returns the state after them, and how many they were: as `locking::play` does, whose loop takes the state apart, for
// speed, and so is not this one.
pub fn play(state: State, part: &[u8], out: &mut [u8]) -> Played
    ensures { (result, out.new) ≡ played state part.now out.old }
{
    let room = out.len() / State::SNAPSHOT;
    let count = input::event_count(part).min(room);
    let mut x = Plain {
        state,
        order: order_of(state),
    };
    let mut at = 0;
    for i in 0..count {
        let stepped = step(x, input::event_at(part, i));
        let answer = numbers::answer_of(&stepped);
        x = stepped.unwrap_or(x);
        let p = x.state.processors;
        at = states::put_snapshot(out, at, states::snapshot_of(answer, p));
    }
    Played {
        state: x.state,
        count,
    }
}
