// Each group's holder and queue.
ghost use Rattle.std.specs.Prelude.{◌≡◌, ◌<◌, ◌≤◌};
ghost use Rattle.search.specs.Words.{◌is◌};
ghost use Rattle.search.specs.Below.{all_below, any_below};
ghost use Rattle.queue.specs.Limits.{capacity};
ghost use Rattle.queue.specs.Waiting.{waiter, place_of};
ghost use Rattle.numbers.specs.Limits.{most_resources};
ghost use Rattle.setups.specs.Naming.{group_of};
ghost use Rattle.protocol.specs.Words.{depth, request};
ghost use Rattle.protocol.specs.Sound.{group_sound};
ghost use Rattle.soundness.specs.Opens.{waits_in};

use crate::named::{Named, opened_by};
use input::Setup;
use numbers::Limit;
use protocol::Task;
use queue::Queue;

// No task is in the queue twice: each place is the first of its task.
fn all_in_place(queue: &Queue) -> bool
    requires { queue.now.len ≤ capacity }
    ensures { result ≡ all_below queue.now.len (λ i. place_of queue.now (waiter queue.now i) is i) }
{
    (0..queue.len).all(|i| queue.place_of(queue.waiter(i)) == i)
}

impl Named<'_> {
    // Some open request of task `t` is in group `g`.
    fn has_open(&self, t: u8, g: u8) -> bool
        requires { g < most_resources }
        ensures { result ≡ any_below (depth self.now.state.now t) (λ i.
            group_of self.now.state.now.setup (request self.now.state.now t i) is g) }
    {
        let task = self.task(t);
        opened_by(&task).iter().any(|r| self.group_of(*r) == g)
    }

    // Task `t` waits, and for a resource of group `g`.
    fn waits_in(&self, g: u8, t: u8) -> bool
        ensures { result ≡ waits_in self.now.state.now g t }
    {
        Task::SPINNING <= self.stand(t) && self.group_of(self.asked(t)) == g
    }

    // Every task in the queue waits, and for a resource of group `g`.
    fn all_wait_here(&self, queue: &Queue, g: u8) -> bool
        requires { queue.now.len ≤ capacity }
        ensures { result ≡ all_below queue.now.len (λ i. waits_in self.now.state.now g (waiter queue.now i)) }
    {
        (0..queue.len).all(|i| self.waits_in(g, queue.waiter(i)))
    }

    // The clauses of group `g`.
    #[tactic(auto, using(crate::proofs::Within::tidy_len))]
    fn group_holds(&self, g: u8) -> bool
        requires { g < most_resources }
        ensures { result ≡ group_sound self.now.state.now.setup self.now.state.now g }
    {
        let group = self.group(g);
        let holder = group.holder;
        let queue = group.queue;
        (holder == Limit::NOBODY || self.has_open(holder, g))
            && queue.is_tidy()
            && self.all_wait_here(&queue, g)
            && all_in_place(&queue)
            && (holder != Limit::NOBODY || queue.len == 0)
    }

    // The clauses of every group.
    pub fn all_groups(&self) -> bool
        ensures { result ≡ all_below most_resources (group_sound self.now.state.now.setup self.now.state.now) }
    {
        (0..Setup::RESOURCES as u8).all(|g| self.group_holds(g))
    }
}
