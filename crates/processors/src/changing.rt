// Processors without links, and one processor changed.
ghost use Rattle.std.specs.Prelude.{◌≡◌};
ghost use Rattle.processors.specs.Words.{place_on, link_on, none_linked};

use crate::Processors;
use numbers::Limit;

// `count` processors, none linked and none running a job.
#[tactic(auto, unfolding(crate::specs::Words::none_linked))]
pub fn none_linked(count: usize) -> Processors
    ensures { result ≡ none_linked count }
{
    Processors {
        count,
        linked: [Limit::NOBODY; Processors::LIMIT],
        running: [Limit::NOBODY; Processors::LIMIT],
    }
}

// Processor `k` is linked to `t`, and runs what it ran.
pub fn link_on(p: Processors, k: usize, t: u8) -> Processors
    ensures { result ≡ link_on p k t }
{
    let mut next = p;
    if k < Processors::LIMIT {
        next.linked[k] = t;
    }
    next
}

// Processor `k` is linked to `t` and runs it; `t` may be nobody.
pub fn place_on(p: Processors, k: usize, t: u8) -> Processors
    ensures { result ≡ place_on p k t }
{
    let mut next = link_on(p, k, t);
    if k < Processors::LIMIT {
        next.running[k] = t;
    }
    next
}
