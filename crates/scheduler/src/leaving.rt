// Become preemptable; finish or suspend; give way at the end of a long request.
ghost use Rattle.std.specs.Prelude.{◌≡◌};
ghost use Rattle.search.specs.Best.{better};
ghost use Rattle.numbers.specs.Limits.{most_tasks};
ghost use Rattle.processors.specs.Words.{first_jobs, is_unlinked, is_higher};
ghost use Rattle.scheduler.specs.Leaving.{becoming_preemptable, next_task, filling, refilling, leaving_from, leaving, giving_way};

use numbers::Limit;
use processors::{
    Jobs, Processors, is_awaited, is_higher, is_unlinked, link_at, link_on, place_on, run_of,
};

// The job of `t` became preemptable: if the processor that it runs on is linked to another job, that one runs
// instead.
pub fn become_preemptable(p: Processors, t: u8) -> Processors
    ensures { result ≡ becoming_preemptable p t }
{
    let k = run_of(p, t);
    if k < Processors::LIMIT && is_awaited(p, k) {
        place_on(p, k, link_at(p, k))
    } else {
        p
    }
}

// Of task `t` and the best so far, the higher one; only unlinked runnable jobs count. `Jobs::END` is none so far.
fn higher_task(p: Processors, jobs: &Jobs, t: u8, best: u8) -> u8
    ensures { result ≡ better (is_unlinked p jobs.now) (is_higher jobs.now) most_tasks t best }
{
    if !is_unlinked(p, &jobs.modes, t) {
        best
    } else if best == Jobs::END || is_higher(&jobs.ranks, t, best) {
        t
    } else {
        best
    }
}

// The highest-priority unlinked runnable job of the first `tasks` tasks, or `Jobs::END`.
fn next_task(p: Processors, jobs: &Jobs, tasks: usize) -> u8
    ensures { result ≡ next_task p (first_jobs tasks jobs.now) }
{
    let end = tasks.min(Jobs::LIMIT) as u8;
    (0..end).fold(Jobs::END, |best, t| higher_task(p, jobs, t, best))
}

// `u` is linked to `k` and runs there; or, where it runs on `q`, it is linked to `q`, and the job linked to `q` moves
// to `k`.
#[tactic(auto, using(std::proofs::lemmas::Bool::Decides::nat_tests), unfolding(crate::specs::Leaving::filling))]
fn fill(p: Processors, k: usize, u: u8, q: usize) -> Processors
    ensures { result ≡ filling p k u q }
{
    if q < Processors::LIMIT {
        let moved = link_at(p, q);
        place_on(link_on(p, q, u), k, moved)
    } else {
        place_on(p, k, u)
    }
}

// Processor `k` has neither link nor job: the highest-priority unlinked runnable job, if any, is linked.
#[tactic(auto, using(std::proofs::lemmas::Bool::Decides::nat_tests), unfolding(crate::specs::Leaving::refilling))]
fn refill(p: Processors, jobs: &Jobs, tasks: usize, k: usize) -> Processors
    ensures { result ≡ refilling p (first_jobs tasks jobs.now) k }
{
    let u = next_task(p, jobs, tasks);
    if u < Jobs::END {
        fill(p, k, u, run_of(p, u))
    } else {
        p
    }
}

// The job on processor `k` leaves it: if `k` is linked to another job, that one runs; else `k` is refilled.
#[tactic(auto, using(std::proofs::lemmas::Bool::Decides::nat_tests), unfolding(crate::specs::Leaving::leaving_from))]
fn leave_from(p: Processors, jobs: &Jobs, tasks: usize, k: usize) -> Processors
    ensures { result ≡ leaving_from p (first_jobs tasks jobs.now) k }
{
    if is_awaited(p, k) {
        place_on(p, k, link_at(p, k))
    } else {
        refill(place_on(p, k, Limit::NOBODY), jobs, tasks, k)
    }
}

// The job of `t` has finished or is suspended; the jobs have it so already. It leaves its processor, which may go to
// another job of the first `tasks` tasks.
#[tactic(auto, using(std::proofs::lemmas::Bool::Decides::nat_tests), unfolding(crate::specs::Leaving::leaving))]
pub fn leave(p: Processors, jobs: &Jobs, tasks: usize, t: u8) -> Processors
    ensures { result ≡ leaving p (first_jobs tasks jobs.now) t }
{
    let k = run_of(p, t);
    if k < Processors::LIMIT {
        leave_from(p, jobs, tasks, k)
    } else {
        p
    }
}

// The priority of `t` is restored; the jobs have it so already. A higher job of the first `tasks` tasks may take its
// processor.
pub fn give_way(p: Processors, jobs: &Jobs, tasks: usize, t: u8) -> Processors
    ensures { result ≡ giving_way p (first_jobs tasks jobs.now) t }
{
    let u = next_task(p, jobs, tasks);
    if u < Jobs::END && is_higher(&jobs.ranks, u, t) {
        leave(p, jobs, tasks, t)
    } else {
        p
    }
}
