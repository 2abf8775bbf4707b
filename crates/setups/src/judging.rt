// The refusals of a set-up, 1 to 5.
ghost use Rattle.std.specs.Prelude.{◌≡◌, ◌&&◌, ltb};
ghost use Rattle.search.specs.Words.{◌is◌};
ghost use Rattle.numbers.specs.Answers.{answer_of};
ghost use Rattle.input.specs.Kinds.{short, long};
ghost use Rattle.input.specs.Words.{period, kind, some_task, some_resource, some_pair};
ghost use Rattle.setups.specs.Refusals.{in_limits, is_stray_pair, is_stray, is_long_in_short, setup_refusal};

use input::Setup;
use numbers::Refusal;

// Every count is within its limits.
fn is_in_limits(setup: &Setup) -> bool
    ensures { result ≡ in_limits setup.now }
{
    (1..=Setup::PROCESSORS).contains(&setup.processors)
        & (1..=Setup::TASKS).contains(&setup.tasks)
        & (setup.resources <= Setup::RESOURCES)
        & (setup.pairs <= Setup::PAIRS)
}

// Some task has the period 0.
fn has_zero_period(setup: &Setup) -> bool
    ensures { result ≡ some_task setup.now (λ t. period setup.now t is 0) }
{
    setup
        .periods
        .iter()
        .take(setup.tasks)
        .any(|period| *period == 0)
}

// Some resource is neither short nor long.
fn has_other_kind(setup: &Setup) -> bool
    ensures { result ≡ some_resource setup.now (λ r. ltb long (kind setup.now r)) }
{
    setup
        .kinds
        .iter()
        .take(setup.resources)
        .any(|kind| Setup::LONG < *kind)
}

// The kind of resource `r`; 0 past the table. `states::kind_at` reads the same off a table alone, for callers above
// that have no set-up at hand.
pub fn kind_of(setup: &Setup, r: u8) -> u8
    ensures { result ≡ kind setup.now r }
{
    search::entry(&setup.kinds, usize::from(r), Setup::SHORT)
}

// Pair (a, b) names a resource not in the table, or one resource twice.
fn is_stray(resources: usize, a: u8, b: u8) -> bool
    ensures { result ≡ is_stray_pair resources a b }
{
    (resources <= usize::from(a)) | (resources <= usize::from(b)) | (a == b)
}

// Some pair names a resource not in the table, or one resource twice.
fn has_stray_pair(setup: &Setup) -> bool
    ensures { result ≡ some_pair setup.now (is_stray setup.now) }
{
    let mut pairs = setup.outer.iter().zip(&setup.inner).take(setup.pairs);
    pairs.any(|(outer, inner)| is_stray(setup.resources, *outer, *inner))
}

// The pair puts a long inside a short.
fn is_long_in_short(setup: &Setup, outer: u8, inner: u8) -> bool
    ensures { result ≡ (kind setup.now outer is short && kind setup.now inner is long) }
{
    (kind_of(setup, outer) == Setup::SHORT) & (kind_of(setup, inner) == Setup::LONG)
}

// Some pair puts a long inside a short.
fn has_long_in_short(setup: &Setup) -> bool
    ensures { result ≡ some_pair setup.now (is_long_in_short setup.now) }
{
    let mut pairs = setup.outer.iter().zip(&setup.inner).take(setup.pairs);
    pairs.any(|(outer, inner)| is_long_in_short(setup, *outer, *inner))
}

// The first refusal of the list that applies.
#[tactic(auto, unfolding(crate::specs::Refusals::setup_refusal, crate::specs::Refusals::setup_rows))]
pub fn judge_setup(setup: Setup) -> Result<(), Refusal>
    ensures { answer_of result ≡ setup_refusal setup }
{
    if !is_in_limits(&setup) {
        return Err(Refusal::CountOutside);
    }
    if has_zero_period(&setup) {
        return Err(Refusal::PeriodZero);
    }
    if has_other_kind(&setup) {
        return Err(Refusal::KindUnknown);
    }
    if has_stray_pair(&setup) {
        return Err(Refusal::PairStray);
    }
    if has_long_in_short(&setup) {
        return Err(Refusal::LongInShort);
    }
    Ok(())
}
