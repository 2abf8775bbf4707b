// Links and placements, read off the order: the scheduler's moves. The next job is the first in the order that is
// runnable and unlinked; the lowest linked job is the last linked one; and a job is higher than those behind it. Where
// there is no such place, `pending` stands for it, behind all others; no processor is `Processors::LIMIT`, as
// `link_of` and `run_of` of `processors` have it.
ghost use Rattle.std.specs.Prelude.{◌≡◌, get_or};
ghost use Rattle.scheduler.specs.Arriving.{is_free, lowest_free};
ghost use Rattle.scheduler.specs.Leaving.{becoming_preemptable};
ghost use Rattle.plain.specs.Orders.{task_at};
ghost use Rattle.plain.specs.Reading.{place_in, next_in, lowest_in, asleep_in};
ghost use Rattle.plain.specs.Reading.{arriving_in, displacing_in, filling_in, leaving_in, giving_way_in};

use crate::Order;
use numbers::Limit;
use processors::{
    Jobs, Modes, Processors, is_awaited, is_unlinked, link_at, link_of, link_on, mode_of, place_on,
    run_of, runs_at,
};

// What the moves look at: the pending jobs in order, and the mode of each task's job.
#[derive(Clone, Copy)]
pub struct OrderedJobs {
    pub order: Order,
    pub modes: Modes,
}

impl OrderedJobs {
    // The task at place `i` of the order, or nobody.
    fn task_at(&self, i: usize) -> u8
        ensures { result ≡ task_at self.now.order i }
    {
        numbers::number_at(&self.order.tasks, i)
    }

    // The place of task `t` in the order; `pending` where it has none.
    fn place_of(&self, t: u8) -> usize
        ensures { result ≡ place_in self.now.order t }
    {
        let pending = self.order.pending;
        (0..pending)
            .find(|i| self.task_at(*i) == t)
            .unwrap_or(pending)
    }

    // The place of the highest-priority job that is runnable and unlinked; `pending` where there is none.
    fn next_place(&self, p: Processors) -> usize
        ensures { result ≡ next_in self.now.order self.now.modes p }
    {
        let pending = self.order.pending;
        (0..pending)
            .find(|i| is_unlinked(p, &self.modes, self.task_at(*i)))
            .unwrap_or(pending)
    }

    // The processor of the lowest-priority linked job: the last one in the order.
    fn lowest_linked(&self, p: Processors) -> usize
        ensures { result ≡ lowest_in self.now.order p self.now.order.pending }
    {
        // A plain loop: a chain of `rev`, `map` and `find` is no plainer.
        for i in (0..self.order.pending).rev() {
            let k = link_of(p, self.task_at(i));
            if k < Processors::LIMIT {
                return k;
            }
        }
        Processors::LIMIT
    }

    // No processor is unlinked: the job of `t` takes the link of processor `k` if it is higher than the job linked
    // there. It runs at once only if that job runs there and may be preempted.
    fn displace(&self, p: Processors, t: u8, k: usize) -> Processors
        ensures { result ≡ displacing_in self.now.order self.now.modes p t k }
    {
        let linked = link_at(p, k);
        if self.place_of(linked) <= self.place_of(t) {
            return p;
        }
        if runs_at(p, k) == linked && mode_of(&self.modes, linked) == Jobs::PREEMPTABLE {
            place_on(p, k, t)
        } else {
            link_on(p, k, t)
        }
    }

    // The job of `t` arrives or resumes: on an unlinked processor, if there is one.
    pub fn arrive(&self, p: Processors, t: u8) -> Processors
        ensures { result ≡ arriving_in self.now.order self.now.modes p t }
    {
        let free = lowest_free(p);
        if free < Processors::LIMIT {
            place_on(p, free, t)
        } else {
            self.displace(p, t, self.lowest_linked(p))
        }
    }

    // The free processor `k` takes the next job in the order. If that runs elsewhere already, it is linked there, and
    // the job that was linked there comes to `k`.
    fn fill(&self, p: Processors, k: usize) -> Processors
        ensures { result ≡ filling_in self.now.order self.now.modes p k }
    {
        let i = self.next_place(p);
        if i == self.order.pending {
            return p;
        }
        let next = self.task_at(i);
        let q = run_of(p, next);
        if q < Processors::LIMIT {
            place_on(link_on(p, q, next), k, link_at(p, q))
        } else {
            place_on(p, k, next)
        }
    }

    // The job of `t` finishes or suspends: it leaves its processor. If that is linked to another job, that one runs.
    pub fn leave(&self, p: Processors, t: u8) -> Processors
        ensures { result ≡ leaving_in self.now.order self.now.modes p t }
    {
        let k = run_of(p, t);
        if k == Processors::LIMIT {
            return p;
        }
        if is_awaited(p, k) {
            place_on(p, k, link_at(p, k))
        } else {
            self.fill(place_on(p, k, Limit::NOBODY), k)
        }
    }

    // The job of `t` gives way, as its own priority is restored: if the next job is higher, `t` leaves its processor.
    pub fn give_way(&self, p: Processors, t: u8) -> Processors
        ensures { result ≡ giving_way_in self.now.order self.now.modes p t }
    {
        if self.next_place(p) < self.place_of(t) {
            self.leave(p, t)
        } else {
            p
        }
    }

    // These jobs, with that of `t` asleep.
    pub fn with_asleep(&self, t: u8) -> OrderedJobs
        ensures { result ≡ record { order = self.now.order; modes = asleep_in self.now.modes t } }
    {
        let i = usize::from(t);
        let mut next = *self;
        if i < Jobs::LIMIT {
            next.modes[i] = Jobs::OFF;
        }
        next
    }
}

// The lowest-numbered unlinked processor, or `Processors::LIMIT`.
fn lowest_free(p: Processors) -> usize
    ensures { result ≡ lowest_free p }
{
    (0..Processors::LIMIT)
        .find(|k| is_free(p, *k))
        .unwrap_or(Processors::LIMIT)
}

// Processor `k` is unlinked. The scheduler has the same to itself: this engine calls none of its functions.
fn is_free(p: Processors, k: usize) -> bool
    ensures { result ≡ is_free p k }
{
    k < p.count && link_at(p, k) == Limit::NOBODY
}

// The job of `t` becomes preemptable: if its processor is linked to another job, that one runs instead. It reads no
// order, so the scheduler has it alike; but this engine calls no function of the scheduler (docs/TOUR.md).
pub fn become_preemptable(p: Processors, t: u8) -> Processors
    ensures { result ≡ becoming_preemptable p t }
{
    let k = run_of(p, t);
    if k < Processors::LIMIT && is_awaited(p, k) {
        place_on(p, k, link_at(p, k))
    } else {
        p
    }
}
