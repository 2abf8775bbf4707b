// Arrive or resume.
ghost use Rattle.std.specs.Prelude.{◌≡◌};
ghost use Rattle.search.specs.First.{mask};
ghost use Rattle.search.specs.Best.{better};
ghost use Rattle.numbers.specs.Limits.{most_processors};
ghost use Rattle.scheduler.specs.Arriving.{is_used, is_free, lowest_free, links_lower, lowest_linked, can_preempt, displacing, taken, arriving};

use numbers::Limit;
use processors::{Jobs, Processors, is_higher, link_at, link_on, mode_of, place_on, runs_at};

// Processor `k` is unlinked.
fn is_free(p: Processors, k: usize) -> bool
    ensures { result ≡ is_free p k }
{
    (k < p.count) & (link_at(p, k) == Limit::NOBODY)
}

// The unlinked processors, the mask that the specification asks for: bit k is processor k. From the last to the first,
// as each turn shifts the bits so far up.
fn free_mask(p: Processors) -> u32
    ensures { result ≡ mask (is_free p) 0 most_processors }
{
    let mut free: u32 = 0;
    for k in (0..Processors::LIMIT).rev() {
        free = free * 2 + u32::from(is_free(p, k));
    }
    free
}

// The lowest-numbered unlinked processor, or `Processors::LIMIT`.
fn lowest_free(p: Processors) -> usize
    ensures { result ≡ lowest_free p }
{
    let free = free_mask(p);
    if free.count_ones() > 0 {
        free.trailing_zeros() as usize
    } else {
        Processors::LIMIT
    }
}

// Processor `k`, if it is unlinked; else the lowest-numbered unlinked one, or `Processors::LIMIT`.
#[tactic(auto, using(std::proofs::lemmas::Bool::Decides::nat_tests), unfolding(crate::specs::Arriving::taken))]
fn take(p: Processors, k: usize) -> usize
    ensures { result ≡ taken p k }
{
    let is_taken = (k < Processors::LIMIT) & is_free(p, k);
    if is_taken { k } else { lowest_free(p) }
}

// The link of processor `a` has a lower priority than that of `b`.
#[tactic(auto, unfolding(processors::specs::Words::rank_of))]
fn links_lower(p: Processors, jobs: &Jobs, a: usize, b: usize) -> bool
    ensures { result ≡ links_lower p jobs.now a b }
{
    is_higher(&jobs.ranks, link_at(p, b), link_at(p, a))
}

// Of processor `k` and the best so far, the one with the lower-priority link; `Processors::LIMIT` is none so far.
#[tactic(auto, using(std::proofs::lemmas::Bool::Decides::nat_tests), unfolding(search::specs::Best::better))]
fn lower_link(p: Processors, jobs: &Jobs, k: usize, best: usize) -> usize
    ensures { result ≡ better (is_used p) (links_lower p jobs.now) most_processors k best }
{
    let none = best == Processors::LIMIT;
    if k < p.count && (none || links_lower(p, jobs, k, best)) {
        k
    } else {
        best
    }
}

// The processor with the lowest-priority linked job.
fn lowest_linked(p: Processors, jobs: &Jobs) -> usize
    ensures { result ≡ lowest_linked p jobs.now }
{
    (0..Processors::LIMIT).fold(Processors::LIMIT, |best, k| lower_link(p, jobs, k, best))
}

// The job linked to processor `k` is running and preemptable.
#[tactic(auto, unfolding(processors::specs::Words::mode_of))]
fn can_preempt(p: Processors, jobs: &Jobs, k: usize) -> bool
    ensures { result ≡ can_preempt p jobs.now k }
{
    let t = link_at(p, k);
    (runs_at(p, k) == t) & (mode_of(&jobs.modes, t) == Jobs::PREEMPTABLE)
}

// The arriving job of `t` takes the link of processor `k` if it is higher than the job linked there; it runs at once
// only if that job can be preempted.
fn displace(p: Processors, jobs: &Jobs, t: u8, k: usize) -> Processors
    ensures { result ≡ displacing p jobs.now t k }
{
    if Processors::LIMIT <= k || !is_higher(&jobs.ranks, t, link_at(p, k)) {
        p
    } else if can_preempt(p, jobs, k) {
        place_on(p, k, t)
    } else {
        link_on(p, k, t)
    }
}

// The job of `t` arrives or resumes; the jobs have it so already. It takes processor `k` if that is unlinked, else
// the lowest-numbered unlinked one; without any it may displace the lowest-priority linked job. `Limit::NOBODY` for
// `k` suggests none.
pub fn arrive(p: Processors, jobs: &Jobs, t: u8, k: u8) -> Processors
    ensures { result ≡ arriving p jobs.now t k }
{
    let taken = take(p, usize::from(k));
    if taken < Processors::LIMIT {
        place_on(p, taken, t)
    } else {
        displace(p, jobs, t, lowest_linked(p, jobs))
    }
}
