// Parts of events that are not whole, and buffers without room for all of them.
ghost use Rattle.std.specs.Prelude.{◌≤◌};

use crate::printed;
use crate::reporting::{LENT, changed, end_row, print_number};
use protocol::State;
use std::io;

// Room for three events.
const ROOM: usize = 3 * State::SNAPSHOT;

// Time passes to ticks 9 and 10; and a byte of a third event.
const EVENTS: [u8; 13] = [5, 0, 0, 0, 9, 0, 5, 0, 0, 0, 10, 0, 5];

// Plays the first `len` bytes into a buffer of `room`, and prints how many events were played, the clock after them,
// and how many bytes were written, in all and from place `from` on.
fn tell_part(rt: &impl Print, len: usize, room: usize, from: usize) -> io::Result<()>
    requires { (len ≤ 13) × (room ≤ 51) }
{
    let mut out = [LENT; ROOM];
    let played = locking::play(printed::busy(), &EVENTS[..len], &mut out[..room]);
    print!(rt; "part {len} {room} {} {}", played.count, played.state.clock)?;
    print_number(rt, changed(&out, 0))?;
    print_number(rt, changed(&out, from))?;
    end_row(rt)
}

// Whole parts, cut ones, and short buffers.
pub fn run_all(rt: &impl Print) -> io::Result<()> {
    tell_part(rt, 13, ROOM, 2 * State::SNAPSHOT)?;
    tell_part(rt, 12, 2 * State::SNAPSHOT, 2 * State::SNAPSHOT)?;
    tell_part(rt, 12, 2 * State::SNAPSHOT - 1, State::SNAPSHOT)?;
    tell_part(rt, 12, State::SNAPSHOT - 1, 0)?;
    tell_part(rt, 5, ROOM, 0)?;
    tell_part(rt, 0, ROOM, 0)
}
