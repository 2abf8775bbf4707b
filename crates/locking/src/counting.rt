// The tick totals of all tasks in one table of numbers, and the ticks of an event charged there.
ghost use Rattle.std.specs.Prelude.{◌≡◌, ◌+◌, ◌*◌, ◌<◌, ◌≤◌, length, nat_lt};
ghost use Rattle.search.specs.Table.{table};
ghost use Rattle.numbers.specs.Limits.{most_tasks};
ghost use Rattle.protocol.specs.Records.{total_count, with_totals};
ghost use Rattle.locking.specs.Totals.{all_totals, row_of, counted, totals_in, marked_by, place_by, total_by, total_with, added_at, charged_to, CanCharge, CanChargeTask};

use input::Setup;
use processors::Processors;
use protocol::Task;
use std::array;

// How many totals all tasks have.
pub const ALL_TOTALS: usize = Setup::TASKS * Task::TOTALS;

// The numbers of the totals, in the order printed: places of a task's row, no kinds.
const RUNNING: u8 = 0;

const SPINNING: u8 = 1;

const LINKED_ONLY: u8 = 2;

const READY: u8 = 3;

const DIRECT_BLOCKING: u8 = 4;

const SUSPENDED_OTHERWISE: u8 = 5;

// The table of the totals in the records.
pub fn totals_of(tasks: [Task; Setup::TASKS]) -> [u32; ALL_TOTALS]
    ensures { result ≡ totals_in tasks }
{
    // By index, here and in `with_totals`: with `array::from_fn` the proof was tried and did not close.
    let mut totals = [0u32; ALL_TOTALS];
    for k in 0..ALL_TOTALS {
        let task = tasks[k / Task::TOTALS];
        totals[k] = task.totals[k % Task::TOTALS];
    }
    totals
}

// The totals of task `t` in the table.
fn row_of(totals: &[u32], t: usize) -> [u32; Task::TOTALS]
    requires { (t < most_tasks) × (length totals.now ≡ all_totals) }
    ensures { result ≡ row_of totals.now t }
{
    array::from_fn(|i| totals[Task::TOTALS * t + i])
}

// The task with other totals.
fn with_row(task: Task, row: [u32; Task::TOTALS]) -> Task
    ensures { result ≡ with_totals row task }
{
    Task {
        totals: row,
        ..task
    }
}

// The records with the totals of the table.
pub fn with_totals(tasks: [Task; Setup::TASKS], totals: [u32; ALL_TOTALS]) -> [Task; Setup::TASKS]
    ensures { result ≡ counted tasks totals }
{
    let mut next = tasks;
    for t in 0..Setup::TASKS {
        let task = next[t];
        next[t] = with_row(task, row_of(&totals, t));
    }
    next
}

// Writes `place` for each task in a list of the processors' tasks.
fn mark(places: &mut [u8], tasks: [u8; Processors::LIMIT], place: u8)
    requires { length places.old ≡ most_tasks }
    ensures { places.new ≡ marked_by place tasks places.old }
{
    // By index, as `marked_by` goes over the processors' numbers.
    for k in 0..Processors::LIMIT {
        let t = tasks[k] as usize;
        if t < Setup::TASKS {
            places[t] = place;
        }
    }
}

// The total of each task by the processors alone: running, linked only or ready. Running tasks are marked last, as a
// running task may be linked too.
fn places_of(p: Processors) -> [u8; Setup::TASKS]
    ensures { result ≡ table (place_by p) most_tasks }
{
    let linked = p.linked;
    let running = p.running;
    let mut places = [READY; Setup::TASKS];
    mark(&mut places, linked, LINKED_ONLY);
    mark(&mut places, running, RUNNING);
    places
}

// The total of a pending task with the standing number `stand`, the total `place` by the processors alone, and
// `ahead` tasks that outrank it.
fn total_by(stand: u8, place: u8, ahead: u8, processors: usize) -> u8
    ensures { result ≡ total_by stand place (nat_lt ahead processors) }
{
    if stand == Task::SUSPENDED {
        if (ahead as usize) < processors {
            DIRECT_BLOCKING
        } else {
            SUSPENDED_OTHERWISE
        }
    } else if (stand == Task::SPINNING) & (place == RUNNING) {
        SPINNING
    } else {
        place
    }
}

// Charges `ticks` to a total of task `t`.
fn charge_task(totals: &mut [u32], t: usize, total: u8, ticks: u16)
    requires { (total < total_count) × CanChargeTask totals.old ticks t }
    ensures { totals.new ≡ added_at (total_count * t + total) ticks totals.old }
{
    let k = Task::TOTALS * t + (total as usize);
    totals[k] = totals[k] + (ticks as u32);
}

// Charges `ticks` to each pending task among the first `count`. Their standings have the numbers `stands`, and
// `ahead` says how many outrank each.
pub fn charge(
    totals: &mut [u32],
    stands: [u8; Setup::TASKS],
    ahead: [u8; Setup::TASKS],
    p: Processors,
    count: usize,
    ticks: u16,
)
    requires { (count ≤ most_tasks) × CanCharge totals.old ticks }
    ensures { totals.new
        ≡ charged_to ticks stands (total_with stands ahead p) totals.old count }
{
    let places = places_of(p);
    // By a task's number, which is its place in four tables.
    for t in 0..count {
        let stand = stands[t];
        if stand != Task::ABSENT {
            let total = total_by(stand, places[t], ahead[t], p.count);
            charge_task(totals, t, total, ticks);
        }
    }
}
