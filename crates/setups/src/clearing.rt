// A set-up with everything past its counts cleared.
ghost use Rattle.std.specs.Prelude.{◌≡◌, ◌-◌, ◌++◌, take, replicate};
ghost use Rattle.setups.specs.Clearing.{cleared, is_clear};

use input::Setup;

// The first `count` places, and `zero` at the others.
fn clear_from<T: Copy, const N: usize>(places: &[T; N], count: usize, zero: T) -> [T; N]
    ensures { result ≡ take count places.now ++ replicate (N - count) zero }
{
    let kept = count.min(N);
    let mut next = [zero; N];
    next[..kept].copy_from_slice(&places[..kept]);
    next
}

// The set-up with every place past a count 0.
pub fn clear(setup: Setup) -> Setup
    ensures { result ≡ cleared setup }
{
    Setup {
        periods: clear_from(&setup.periods, setup.tasks, 0),
        kinds: clear_from(&setup.kinds, setup.resources, 0),
        outer: clear_from(&setup.outer, setup.pairs, 0),
        inner: clear_from(&setup.inner, setup.pairs, 0),
        ..setup
    }
}

// Everything past the counts is 0.
pub fn is_clear(setup: Setup) -> bool
    ensures { result ≡ is_clear setup }
{
    clear(setup) == setup
}
