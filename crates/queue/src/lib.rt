// A queue of tasks: who waits, in the order they asked. Every function is defined for any content, tidy or not.
#![tactic(auto)]

ghost use Rattle.std.specs.Prelude.{◌≡◌};
ghost use Rattle.queue.specs.Waiting.{waiter, empty, appended, without_first, place_of, is_clear, is_tidy};

use numbers::Limit;

// The first `len` places hold the waiting tasks, the others nobody. A session has fixed memory, and a state may hold
// any places and any length, so the two stay beside each other.
#[derive(Clone, Copy, PartialEq, Eq)]
pub struct Queue {
    pub tasks: [u8; Queue::CAPACITY],
    pub len: usize,
}

impl Queue {
    // How many tasks can wait: all of them.
    pub const CAPACITY: usize = Limit::TASKS;

    // Nobody waits.
    #[tactic(auto, unfolding(crate::specs::Waiting::empty))]
    pub fn empty() -> Queue
        ensures { result ≡ empty }
    {
        Queue {
            tasks: [Limit::NOBODY; Queue::CAPACITY],
            len: 0,
        }
    }

    // The task that waits at place `i`, or nobody.
    pub fn waiter(self, i: usize) -> u8
        ensures { result ≡ waiter self i }
    {
        if i < self.len {
            numbers::number_at(&self.tasks, i)
        } else {
            Limit::NOBODY
        }
    }

    // The task that waits first, or nobody.
    pub fn first(self) -> u8
        ensures { result ≡ waiter self 0 }
    {
        self.waiter(0)
    }

    // Enqueues `task` at the end; a full queue stays as it is.
    #[tactic(auto, using(std::proofs::lemmas::Bool::Decides::nat_tests), unfolding(crate::specs::Waiting::appended))]
    pub fn append(self, task: u8) -> Queue
        ensures { result ≡ appended self task }
    {
        let mut next = self;
        let end = self.len;
        if end < Queue::CAPACITY {
            next.tasks[end] = task;
            next.len = end + 1;
        }
        next
    }

    // Dequeues the first task, and the others move up a place; an empty queue stays as it is.
    pub fn without_first(self) -> Queue
        ensures { result ≡ without_first self }
    {
        if self.len == 0 {
            return self;
        }
        let mut tasks = self.tasks;
        tasks[0] = Limit::NOBODY;
        tasks.rotate_left(1);
        Queue {
            tasks,
            len: self.len - 1,
        }
    }

    // The first place at which `task` waits, or the capacity: none is a number past the places, as the rule has it.
    pub fn place_of(self, task: u8) -> usize
        ensures { result ≡ place_of self task }
    {
        (0..Queue::CAPACITY)
            .find(|i| self.waiter(*i) == task)
            .unwrap_or(Queue::CAPACITY)
    }

    // No more tasks wait than there is room for, and the places past the length are empty.
    pub fn is_tidy(self) -> bool
        ensures { result ≡ is_tidy self }
    {
        let fits = self.len <= Queue::CAPACITY;
        fits && (0..Queue::CAPACITY).all(|i| self.is_clear(i))
    }

    // Place `i` is before the length, or empty.
    #[tactic(auto, using(std::proofs::lemmas::Bool::Decides::nat_tests), unfolding(crate::specs::Waiting::is_clear))]
    fn is_clear(self, i: usize) -> bool
        ensures { result ≡ is_clear self i }
    {
        i < self.len || numbers::number_at(&self.tasks, i) == Limit::NOBODY
    }
}
