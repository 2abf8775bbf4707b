// Tables of numbers, by task or by resource: what is at a place, past the table too.
ghost use Rattle.std.specs.Prelude.{◌≡◌, get_or};
ghost use Rattle.search.specs.Words.{◌is◌};
ghost use Rattle.search.specs.Below.{any_below};
ghost use Rattle.search.specs.Table.{table};
ghost use Rattle.input.specs.Words.{due_at};
ghost use Rattle.numbers.specs.Limits.{most_resources, nothing};
ghost use Rattle.states.specs.Holders.{holder_in};

use input::Setup;
use protocol::{Group, Task};
use std::array;

// The period of task `t`; 0 past the table.
pub fn period_at(periods: [u16; Setup::TASKS], t: u8) -> u16
    ensures { result ≡ get_or periods t 0 }
{
    search::entry(&periods, usize::from(t), 0)
}

// The deadline of a job of task `t` that arrives at `now`.
pub fn due_at(setup: Setup, t: u8, now: u32) -> u64
    ensures { result ≡ due_at setup t now }
{
    u64::from(now) + u64::from(period_at(setup.periods, t))
}

// The kind of resource `r`; short past the table.
pub fn kind_at(kinds: [u8; Setup::RESOURCES], r: u8) -> u8
    ensures { result ≡ get_or kinds r 0 }
{
    search::entry(&kinds, usize::from(r), Setup::SHORT)
}

// Some of the first `depth` requests is of kind `kind`. `depth` may be any number: each place from the limit on reads
// nothing, whose kind reads short, so one of those is enough.
pub fn has_kind(
    kinds: [u8; Setup::RESOURCES],
    requests: [u8; Task::REQUESTS],
    depth: usize,
    kind: u8,
) -> bool
    ensures { result ≡ any_below depth (λ i. get_or kinds (get_or requests i nothing) 0 is kind) }
{
    let mut places = 0..depth.min(Task::REQUESTS + 1);
    places.any(|i| kind_at(kinds, numbers::number_at(&requests, i)) == kind)
}

// The holder of each group, or nobody.
pub fn holders_of(groups: [Group; Setup::RESOURCES]) -> [u8; Setup::RESOURCES]
    ensures { result ≡ table (holder_in groups) most_resources }
{
    array::from_fn(|g| groups[g].holder)
}
