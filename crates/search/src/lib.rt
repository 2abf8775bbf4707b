// Searches over the indices below a bound, and tables: the definitions are in specs/, their laws in proofs/.
#![tactic(auto)]

ghost use Rattle.std.specs.Prelude.{◌≡◌, if◌then◌else◌, get_or};

// A choice between two values of any type: `here` where the test passes, else `behind`. Nothing here calls it; it
// stands for callers.
pub fn pick<T: Copy>(passes: bool, here: T, behind: T) -> T
    ensures { result ≡ (if passes then here else behind) }
{
    if passes { here } else { behind }
}

// The entry at place `i` of a table; `past` where the table has no such place.
pub fn entry<T: Copy>(table: &[T], i: usize, past: T) -> T
    ensures { result ≡ get_or table.now i past }
{
    table.get(i).copied().unwrap_or(past)
}
