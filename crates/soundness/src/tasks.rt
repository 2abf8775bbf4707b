// The times, totals and empty places of each task.
ghost use Rattle.std.specs.Prelude.{◌≡◌, ◌-◌, leb};
ghost use Rattle.search.specs.Words.{◌is◌, ◌implies◌};
ghost use Rattle.search.specs.Below.{all_below};
ghost use Rattle.numbers.specs.Limits.{most_tasks, most_requests, nothing};
ghost use Rattle.protocol.specs.Words.{sum, depth, request};
ghost use Rattle.protocol.specs.Sound.{times_sound, empty_sound};

use crate::named::Named;
use input::Setup;
use numbers::Limit;
use protocol::Task;

// The sum of a task's totals, in 64 bits, where it cannot overflow.
fn sum_of(totals: &[u32; Task::TOTALS]) -> u64
    ensures { result ≡ sum totals.now }
{
    totals.iter().map(|ticks| u64::from(*ticks)).sum()
}

// The ticks from the start to the clock; 0 if the clock is before the start.
fn elapsed(start: u32, clock: u32) -> u64
    ensures { result ≡ clock - start }
{
    u64::from(clock.saturating_sub(start))
}

impl Named<'_> {
    // The clauses of the times and totals of task `t`.
    #[tactic(auto, unfolding(protocol::specs::Sound::times_sound, protocol::specs::Words::deadline))]
    fn times_hold(&self, t: u8) -> bool
        ensures { result ≡ times_sound self.now.state.now.setup self.now.state.now t }
    {
        let start = self.state.setup.start;
        let clock = self.state.clock;
        let task = self.task(t);
        let due = states::due_at(self.state.setup, t, task.last);
        let stand = self.stand(t);
        (!task.arrived || (start <= task.last && task.last <= clock))
            && (stand == Task::ABSENT || (task.arrived && task.deadline == due))
            && (stand != Task::ABSENT || task.deadline == 0)
            && sum_of(&task.totals) <= elapsed(start, clock)
    }

    // The clauses of the times and totals of every task.
    pub fn all_times(&self) -> bool
        ensures { result ≡ all_below most_tasks (times_sound self.now.state.now.setup self.now.state.now) }
    {
        (0..Setup::TASKS as u8).all(|t| self.times_hold(t))
    }

    // From the depth of task `t` on there is no request.
    fn requests_end(&self, t: u8) -> bool
        ensures { result ≡ all_below most_requests (λ i.
            leb (depth self.now.state.now t) i implies request self.now.state.now t i is nothing) }
    {
        let task = self.task(t);
        (0..Task::REQUESTS).all(|i| i < task.depth || task.requests[i] == Limit::NOTHING)
    }

    // The clauses of the empty places of task `t`: past the count there never was a job.
    #[tactic(auto, unfolding(protocol::specs::Sound::empty_sound))]
    fn empty_holds(&self, t: u8) -> bool
        ensures { result ≡ empty_sound self.now.state.now.setup self.now.state.now t }
    {
        let task = self.task(t);
        let unused = self.stand(t) == Task::ABSENT
            && !task.arrived
            && task.last == 0
            && sum_of(&task.totals) == 0;
        self.requests_end(t) && ((t as usize) < self.state.setup.tasks || unused)
    }

    // The clauses of the empty places of every task.
    pub fn all_empty(&self) -> bool
        ensures { result ≡ all_below most_tasks (empty_sound self.now.state.now.setup self.now.state.now) }
    {
        (0..Setup::TASKS as u8).all(|t| self.empty_holds(t))
    }
}
