// What an item adds to a set-up, unless its table is full.
ghost use Rattle.std.specs.Prelude.{◌≡◌, ◌<◌, ◌≤◌, ◌+◌, MatchResult, length, slice_set};
ghost use Rattle.numbers.specs.Limits.{most_tasks, most_resources, most_pairs};
ghost use Rattle.scenario.specs.SetupItems.{with_task, with_resource, with_pair};

use crate::Reason;
use input::Setup;

// Puts one more into a table that holds `count`; returns how many it holds then.
pub fn put<T: Copy>(table: &mut [T], count: usize, one: T) -> Result<usize, Reason>
    ensures { MatchResult result
        (λ more. (count < length table.old) × (more ≡ count + 1) × (table.new ≡ slice_set table.old count one))
        (λ reason. (length table.old ≤ count) × (reason ≡ Reason.Full) × (table.new ≡ table.old)) }
{
    if table.len() <= count {
        return Err(Reason::Full);
    }
    table[count] = one;
    Ok(count + 1)
}

// The set-up with one task more. This and the next two differ in the table and its count: with both passed in, nothing
// would be left of them but `put`.
//
pub fn with_task(setup: Setup, period: u16) -> Result<Setup, Reason>
    ensures { MatchResult result (λ next. (setup.tasks < most_tasks) × (next ≡ with_task setup period))
        (λ reason. (most_tasks ≤ setup.tasks) × (reason ≡ Reason.Full)) }
{
    let mut next = setup;
    next.tasks = put(&mut next.periods, setup.tasks, period)?;
    Ok(next)
}

// The set-up with one resource more.
pub fn with_resource(setup: Setup, kind: u8) -> Result<Setup, Reason>
    ensures { MatchResult result (λ next. (setup.resources < most_resources) × (next ≡ with_resource setup kind))
        (λ reason. (most_resources ≤ setup.resources) × (reason ≡ Reason.Full)) }
{
    let mut next = setup;
    next.resources = put(&mut next.kinds, setup.resources, kind)?;
    Ok(next)
}

// The set-up with one pair more.
pub fn with_pair(setup: Setup, outer: u8, inner: u8) -> Result<Setup, Reason>
    ensures { MatchResult result (λ next. (setup.pairs < most_pairs) × (next ≡ with_pair setup outer inner))
        (λ reason. (most_pairs ≤ setup.pairs) × (reason ≡ Reason.Full)) }
{
    let mut next = setup;
    put(&mut next.outer, setup.pairs, outer)?;
    next.pairs = put(&mut next.inner, setup.pairs, inner)?;
    Ok(next)
}
