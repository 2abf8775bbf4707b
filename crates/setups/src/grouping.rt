// The names of the groups: one pass over the pairs, in which the higher of two names gives way to the lower.
ghost use Rattle.std.specs.Prelude.{◌≡◌};
ghost use Rattle.search.specs.Table.{table};
ghost use Rattle.numbers.specs.Limits.{most_resources};
ghost use Rattle.setups.specs.Naming.{merged, joined, are_alike, joined_pair, names};

use crate::judging::kind_of;
use input::Setup;
use std::array;

// A name after the groups named `a` and `b` are joined.
fn merge(a: u8, b: u8, name: u8) -> u8
    ensures { result ≡ merged a b name }
{
    if name == a.max(b) { a.min(b) } else { name }
}

// The names after the groups of `outer` and `inner` are joined.
fn join(names: [u8; Setup::RESOURCES], outer: u8, inner: u8) -> [u8; Setup::RESOURCES]
    ensures { result ≡ joined names outer inner }
{
    let a = numbers::number_at(&names, usize::from(outer));
    let b = numbers::number_at(&names, usize::from(inner));
    names.map(|name| merge(a, b, name))
}

// Before any pair: each resource is a group alone, named by itself.
fn each_alone() -> [u8; Setup::RESOURCES]
    ensures { result ≡ table (λ i. i) most_resources }
{
    array::from_fn(|r| r as u8)
}

// Resources `a` and `b` are in the table, and of equal kinds.
fn are_alike(setup: &Setup, a: u8, b: u8) -> bool
    ensures { result ≡ are_alike setup.now a b }
{
    (usize::from(a) < setup.resources)
        & (usize::from(b) < setup.resources)
        & (kind_of(setup, a) == kind_of(setup, b))
}

// The names after a pair with these resources, from those before it.
fn join_pair(
    setup: &Setup,
    names: [u8; Setup::RESOURCES],
    outer: u8,
    inner: u8,
) -> [u8; Setup::RESOURCES]
    ensures { result ≡ joined_pair setup.now names (outer, inner) }
{
    if are_alike(setup, outer, inner) {
        join(names, outer, inner)
    } else {
        names
    }
}

// The name of every resource's group, the lowest resource in it.
pub fn names_of(setup: Setup) -> [u8; Setup::RESOURCES]
    ensures { result ≡ names setup }
{
    let pairs = setup.outer.iter().zip(&setup.inner).take(setup.pairs);
    pairs.fold(
        each_alone(),
        |names, (outer, inner)| -> [u8; Setup::RESOURCES]
            ensures { result ≡ joined_pair setup names (outer.entry.now, inner.entry.now) }
        { join_pair(&setup, names, *outer, *inner) },
    )
}
