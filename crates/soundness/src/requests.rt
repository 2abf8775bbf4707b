// Each job's open requests, and what a waiting job asked for.
ghost use Rattle.std.specs.Prelude.{◌≡◌, length, get_or};
ghost use Rattle.search.specs.Words.{◌isn't◌};
ghost use Rattle.search.specs.Below.{all_below};
ghost use Rattle.numbers.specs.Limits.{most_tasks, nothing};
ghost use Rattle.input.specs.Words.{kind as kind_of};
ghost use Rattle.protocol.specs.Sound.{requests_sound, waiting_sound};
ghost use Rattle.soundness.specs.Opens.{is_held, is_once, is_long, are_long, is_in_order, are_together, is_together};
ghost use Rattle.soundness.specs.Opens.{opened_sound, is_asked, is_queued, has_room};

use crate::named::{Named, opened_by};
use input::Setup;
use protocol::Task;
use queue::Queue;

// The request at place `i` is at no other place.
fn is_once(opened: &[u8], i: usize) -> bool
    ensures { result ≡ is_once opened.now i }
{
    let r = numbers::number_at(opened, i);
    (0..opened.len()).all(|k| r != numbers::number_at(opened, k) || i == k)
}

// Every open request is at one place only.
fn all_once(opened: &[u8]) -> bool
    ensures { result ≡ all_below (length opened.now) (is_once opened.now) }
{
    (0..opened.len()).all(|i| is_once(opened, i))
}

// Fewer than eight requests are open, and none of a job that is suspended.
fn has_room(stand: u8, depth: usize) -> bool
    ensures { result ≡ has_room stand depth }
{
    (stand != Task::SUSPENDED || depth == 0) && depth < Task::REQUESTS
}

impl Named<'_> {
    // Resource `r` is in the table, and `t` holds its group.
    fn is_held(&self, t: u8, r: u8) -> bool
        ensures { result ≡ is_held self.now.state.now t r }
    {
        (r as usize) < self.state.setup.resources && self.holder(self.group_of(r)) == t
    }

    // Each open request is in the table, and `t` holds its group.
    fn all_held(&self, t: u8, opened: &[u8]) -> bool
        ensures { result ≡ all_below (length opened.now) (λ i.
            is_held self.now.state.now t (get_or opened.now i nothing)) }
    {
        opened.iter().all(|r| self.is_held(t, *r))
    }

    // Resource `r` is long.
    fn is_long(&self, r: u8) -> bool
        ensures { result ≡ is_long self.now.state.now r }
    {
        self.kind_of(r) == Setup::LONG
    }

    // The requests are long.
    fn are_long(&self, opened: &[u8]) -> bool
        ensures { result ≡ are_long self.now.state.now opened.now }
    {
        opened.iter().all(|r| self.is_long(*r))
    }

    // The long requests come before the short ones.
    fn all_longs_first(&self, opened: &[u8]) -> bool
        ensures { result ≡ all_below (length opened.now) (is_in_order self.now.state.now opened.now) }
    {
        (0..opened.len()).all(|i| !self.is_long(opened[i]) || self.are_long(&opened[..i]))
    }

    // Resources `a` and `b` are in one group if they are of one kind.
    fn are_together(&self, a: u8, b: u8) -> bool
        ensures { result ≡ are_together self.now.state.now a b }
    {
        self.kind_of(a) != self.kind_of(b) || self.group_of(a) == self.group_of(b)
    }

    // The requests of the kind of resource `a` are in its group.
    fn is_together(&self, opened: &[u8], a: u8) -> bool
        ensures { result ≡ is_together self.now.state.now opened.now a }
    {
        opened.iter().all(|b| self.are_together(a, *b))
    }

    // The requests of one kind are in one group.
    fn all_together(&self, opened: &[u8]) -> bool
        ensures { result ≡ all_below (length opened.now) (λ i.
            is_together self.now.state.now opened.now (get_or opened.now i nothing)) }
    {
        opened.iter().all(|a| self.is_together(opened, *a))
    }

    // The clauses of the open requests of task `t`, but for their number.
    fn opened_hold(&self, t: u8, opened: &[u8]) -> bool
        ensures { result ≡ opened_sound self.now.state.now t opened.now }
    {
        self.all_held(t, opened)
            && all_once(opened)
            && self.all_longs_first(opened)
            && self.all_together(opened)
    }

    // The clauses of the open requests of task `t`.
    #[tactic(auto, using(crate::proofs::Opened::requests_read))]
    fn requests_hold(&self, t: u8) -> bool
        ensures { result ≡ requests_sound self.now.state.now.setup self.now.state.now t }
    {
        let task = self.task(t);
        task.depth <= Task::REQUESTS
            && self.opened_hold(t, opened_by(&task))
            && (self.stand(t) != Task::ABSENT || task.depth == 0)
    }

    // The clauses of the open requests of every task.
    pub fn all_requests(&self) -> bool
        ensures { result ≡ all_below most_tasks (requests_sound self.now.state.now.setup self.now.state.now) }
    {
        (0..Setup::TASKS as u8).all(|t| self.requests_hold(t))
    }

    // No open request is of kind `kind`.
    fn has_none_of(&self, opened: &[u8], kind: u8) -> bool
        ensures { result ≡ all_below (length opened.now) (λ i.
            kind_of self.now.state.now.setup (get_or opened.now i nothing) isn't kind) }
    {
        opened.iter().all(|r| self.kind_of(*r) != kind)
    }

    // Resource `r` is in the table, and of the kind that a job waits by whose standing has the number `stand`.
    fn is_asked(&self, stand: u8, r: u8) -> bool
        ensures { result ≡ is_asked self.now.state.now stand r }
    {
        (r as usize) < self.state.setup.resources
            && (stand as usize) == (Task::SPINNING as usize) + (self.kind_of(r) as usize)
    }

    // Task `t` is in the queue of group `g`.
    fn is_queued(&self, t: u8, g: u8) -> bool
        ensures { result ≡ is_queued self.now.state.now g t }
    {
        self.group(g).queue.place_of(t) < Queue::CAPACITY
    }

    // The clauses of the waiting job of task `t`, if it waits.
    #[tactic(auto, using(crate::proofs::Opened::waiting_read))]
    fn waiting_holds(&self, t: u8) -> bool
        ensures { result ≡ waiting_sound self.now.state.now.setup self.now.state.now t }
    {
        let task = self.task(t);
        let stand = self.stand(t);
        let asked = self.asked(t);
        stand < Task::SPINNING
            || (self.is_asked(stand, asked)
                && self.is_queued(t, self.group_of(asked))
                && self.has_none_of(opened_by(&task), self.kind_of(asked))
                && has_room(stand, task.depth))
    }

    // The clauses of every waiting job.
    pub fn all_waiting(&self) -> bool
        ensures { result ≡ all_below most_tasks (waiting_sound self.now.state.now.setup self.now.state.now) }
    {
        (0..Setup::TASKS as u8).all(|t| self.waiting_holds(t))
    }
}
