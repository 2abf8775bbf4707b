// Several lines, one after another, into a buffer. Each line has room, so none is refused.
ghost use Rattle.std.specs.Prelude.{◌≡◌, ◌+◌, ◌*◌, ◌≤◌, min, length};
ghost use Rattle.numbers.specs.Limits.{most_tasks};
ghost use Rattle.states.specs.Writing.{snapshot_size};
ghost use Rattle.lines.specs.Buffers.{Put, event_text, line_limit};
ghost use Rattle.lines.specs.Texts.{task_line_text};
ghost use Rattle.pages.specs.Files.{tasks_text};
ghost use Rattle.pages.specs.Pages.{snapshot_in, events_text};

use input::Setup;
use protocol::{State, Task};

// Writes an event's line from `at` on; returns the next write position.
fn put_event(out: &mut [u8], at: usize, number: u64, processors: usize, line: &[u8]) -> usize
    requires { at + line_limit ≤ length out.old }
    ensures { Put out.old at (event_text number processors line.now) result out.new
        × (result ≤ at + line_limit) }
{
    at + lines::places_line(number, processors, line, &mut out[at..]).unwrap_or(0)
}

// Writes the lines of `count` events, from their snapshots in `written`, numbered on from `events`; returns their
// length.
pub fn put_events(
    out: &mut [u8],
    written: &[u8],
    count: usize,
    processors: usize,
    events: u64,
) -> usize
    requires { (line_limit * count ≤ length out.old) × (snapshot_size * count ≤ length written.now) }
    ensures { Put out.old 0
        (events_text (snapshot_in written.now) processors events count) result out.new
        × (result ≤ line_limit * count) }
{
    let mut at = 0;
    // By an event's number, which is printed too.
    for i in 0..count {
        let number = events.wrapping_add(i as u64 + 1);
        let from = State::SNAPSHOT * i;
        let end = from + State::SNAPSHOT;
        at = put_event(out, at, number, processors, &written[from..end]);
    }
    at
}

// Writes a task's line from `at` on; returns the next write position.
fn put_task(out: &mut [u8], at: usize, t: u8, totals: [u32; Task::TOTALS]) -> usize
    requires { at + line_limit ≤ length out.old }
    ensures { Put out.old at (task_line_text t totals) result out.new × (result ≤ at + line_limit) }
{
    at + lines::totals_line(t, totals, &mut out[at..]).unwrap_or(0)
}

// Writes each task's line, of no more tasks than a state can have; returns their length.
pub fn put_tasks(out: &mut [u8], state: State) -> usize
    requires { line_limit * most_tasks ≤ length out.old }
    ensures { Put out.old 0
        (tasks_text state (min state.setup.tasks most_tasks)) result out.new
        × (result ≤ line_limit * most_tasks) }
{
    let mut at = 0;
    for t in 0..state.setup.tasks.min(Setup::TASKS) as u8 {
        at = put_task(out, at, t, states::totals_of(state, t));
    }
    at
}
