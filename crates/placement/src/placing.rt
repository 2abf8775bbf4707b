// The test of the scheduler's part of the sound state, for any content.
ghost use Rattle.std.specs.Prelude.{◌≡◌};
ghost use Rattle.scheduler.specs.PlacedTest.{runnable_task, link_holds, run_holds, links_higher, task_holds, processor_holds, is_placed};

use numbers::Limit;
use processors::{
    Jobs, Processors, is_higher, is_unlinked, link_at, link_of, mode_of, run_of, runs_at,
};

// `t` is a task with a runnable job.
#[tactic(auto, unfolding(processors::specs::Words::mode_of))]
fn is_runnable_task(jobs: &Jobs, t: u8) -> bool
    ensures { result ≡ runnable_task jobs.now t }
{
    (t < Jobs::END) & (Jobs::PREEMPTABLE <= mode_of(&jobs.modes, t))
}

// The clauses of the link of processor `k`.
#[tactic(auto, using(std::proofs::lemmas::Bool::Decides::nat_tests))]
fn link_holds(p: Processors, jobs: &Jobs, k: usize) -> bool
    ensures { result ≡ link_holds p jobs.now k }
{
    let t = link_at(p, k);
    let idle = runs_at(p, k) == Limit::NOBODY;
    if t == Limit::NOBODY {
        return idle;
    }
    is_runnable_task(jobs, t) & (link_of(p, t) == k) & !idle
}

// The clauses of the job on processor `k`.
#[tactic(auto, using(std::proofs::lemmas::Bool::Decides::nat_tests), unfolding(processors::specs::Words::mode_of))]
fn run_holds(p: Processors, jobs: &Jobs, k: usize) -> bool
    ensures { result ≡ run_holds p jobs.now k }
{
    let t = runs_at(p, k);
    if t == Limit::NOBODY {
        return true;
    }
    let linked = link_of(p, t);
    let here = (Processors::LIMIT <= linked) | (linked == k);
    let kept = (mode_of(&jobs.modes, t) != Jobs::PREEMPTABLE) | (link_at(p, k) == t);
    is_runnable_task(jobs, t) & (run_of(p, t) == k) & here & kept
}

// The clauses of processor `k`.
fn processor_holds(p: Processors, jobs: &Jobs, k: usize) -> bool
    ensures { result ≡ processor_holds p jobs.now k }
{
    let empty = (link_at(p, k) == Limit::NOBODY) & (runs_at(p, k) == Limit::NOBODY);
    link_holds(p, jobs, k) & run_holds(p, jobs, k) & ((k < p.count) | empty)
}

// Processor `k`, if it is one, is linked to a job higher than `t`.
#[tactic(auto, using(std::proofs::lemmas::Bool::Decides::nat_tests), unfolding(processors::specs::Words::rank_of))]
fn links_higher(p: Processors, jobs: &Jobs, t: u8, k: usize) -> bool
    ensures { result ≡ links_higher p jobs.now t k }
{
    if p.count <= k {
        return true;
    }
    let u = link_at(p, k);
    (u != Limit::NOBODY) & is_higher(&jobs.ranks, u, t)
}

// The clauses of task `t`: if it is runnable and unlinked, every processor is linked to a higher job; if it is
// non-preemptable, it runs.
fn task_holds(p: Processors, jobs: &Jobs, t: u8) -> bool
    ensures { result ≡ task_holds p jobs.now t }
{
    let below = !is_unlinked(p, &jobs.modes, t)
        || (0..Processors::LIMIT).all(|k| links_higher(p, jobs, t, k));
    let runs = (mode_of(&jobs.modes, t) != Jobs::NON_PREEMPTABLE)
        | (run_of(p, t) < Processors::LIMIT);
    below & runs
}

// Links and placements hold.
pub fn is_placed(p: Processors, jobs: Jobs) -> bool
    ensures { result ≡ is_placed p jobs }
{
    let linked = (0..Processors::LIMIT).all(|k| processor_holds(p, &jobs, k));
    let highest = (0..Jobs::END).all(|t| task_holds(p, &jobs, t));
    (p.count <= Processors::LIMIT) & linked & highest
}
