// What the moves look up: a task's job, a processor's tasks, and a task's processor. A function that reads only one
// table of `Jobs` has a contract that leaves the other one empty.
ghost use Rattle.std.specs.Prelude.{◌≡◌, []};
ghost use Rattle.processors.specs.Words.{jobs_from, rank_of, mode_of, is_higher, link, runs, place_of, link_of, run_of, is_unlinked, is_awaited};

use crate::{Jobs, Modes, Processors, Ranks};
use numbers::Limit;

// The rank of the job of `t`; 0 past the last task.
fn rank_of(ranks: &Ranks, t: u8) -> u64
    ensures { result ≡ rank_of (jobs_from ranks.now []) t }
{
    search::entry(ranks, usize::from(t), 0)
}

// The mode of the job of `t`; `Jobs::OFF` past the last task.
pub fn mode_of(modes: &Modes, t: u8) -> u8
    ensures { result ≡ mode_of (jobs_from [] modes.now) t }
{
    search::entry(modes, usize::from(t), Jobs::OFF)
}

// `a` has a higher priority than `b`.
pub fn is_higher(ranks: &Ranks, a: u8, b: u8) -> bool
    ensures { result ≡ is_higher (jobs_from ranks.now []) a b }
{
    rank_of(ranks, a) < rank_of(ranks, b)
}

// The task that processor `k` is linked to, or nobody.
pub fn link_at(p: Processors, k: usize) -> u8
    ensures { result ≡ link p k }
{
    numbers::number_at(&p.linked, k)
}

// The task that processor `k` runs, or nobody.
pub fn runs_at(p: Processors, k: usize) -> u8
    ensures { result ≡ runs p k }
{
    numbers::number_at(&p.running, k)
}

// The first processor with task `t` in a list of the processors' tasks, or `Processors::LIMIT`: none is a number past
// the processors, as `link_of` and `run_of` promise it.
fn place_of(tasks: &[u8; Processors::LIMIT], t: u8) -> usize
    ensures { result ≡ place_of tasks.now t }
{
    tasks
        .iter()
        .position(|task| *task == t)
        .unwrap_or(Processors::LIMIT)
}

// The processor that is linked to `t`, or `Processors::LIMIT`.
#[tactic(auto, unfolding(crate::specs::Words::link_of))]
pub fn link_of(p: Processors, t: u8) -> usize
    ensures { result ≡ link_of p t }
{
    place_of(&p.linked, t)
}

// The processor that runs `t`, or `Processors::LIMIT`.
#[tactic(auto, unfolding(crate::specs::Words::run_of))]
pub fn run_of(p: Processors, t: u8) -> usize
    ensures { result ≡ run_of p t }
{
    place_of(&p.running, t)
}

// `t` is runnable and no processor is linked to it.
pub fn is_unlinked(p: Processors, modes: &Modes, t: u8) -> bool
    ensures { result ≡ is_unlinked p (jobs_from [] modes.now) t }
{
    let runnable = Jobs::PREEMPTABLE <= mode_of(modes, t);
    runnable && Processors::LIMIT <= link_of(p, t)
}

// Processor `k` is linked to a job that it does not run.
pub fn is_awaited(p: Processors, k: usize) -> bool
    ensures { result ≡ is_awaited p k }
{
    let linked = link_at(p, k);
    (linked != Limit::NOBODY) & (linked != runs_at(p, k))
}
