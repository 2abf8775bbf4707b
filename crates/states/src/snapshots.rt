// A snapshot written into a lent buffer.
ghost use Rattle.std.specs.Prelude.{◌≡◌};
ghost use Rattle.states.specs.Writing.{put_at};

use protocol::State;

// Writes a snapshot into `out` from `at` on, and returns the next write position; without room for all of it nothing
// is written, and `at` is returned.
pub fn put_snapshot(out: &mut [u8], at: usize, snapshot: [u8; State::SNAPSHOT]) -> usize
    ensures { (result, out.new) ≡ put_at out.old at snapshot }
{
    match at.checked_add(State::SNAPSHOT) {
        Some(end) if end <= out.len() => {
            out[at..end].copy_from_slice(&snapshot);
            end
        }
        _ => at,
    }
}
