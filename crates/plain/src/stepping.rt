// One event: the answer, the locks, the new order, and the links and placements read off it.
ghost use Rattle.std.specs.Prelude.{◌≡◌};
ghost use Rattle.protocol.specs.Words.{group};
ghost use Rattle.setups.specs.Naming.{group_of};
ghost use Rattle.protocol.specs.Events.{fresh};
ghost use Rattle.input.specs.Words.{no_setup};
ghost use Rattle.plain.specs.Orders.{ordered};
ghost use Rattle.plain.specs.Engine.{plain_reply_from, plain_begin, plain_step};
ghost use Rattle.plain.specs.Reading.{requested_in, completed_in, placed_in};

use crate::moving::{OrderedJobs, become_preemptable};
use crate::ordering::order_of;
use crate::{Order, Plain};
use input::{Event, Kind, Setup};
use numbers::{Limit, Refusal};
use processors::Processors;
use protocol::{Lock, Standing, State};

// The empty session, that of no set-up, which stands for a set-up that is refused: nobody is pending.
pub fn empty() -> Plain
    ensures { result ≡ ordered (fresh no_setup) }
{
    let state = states::empty();
    Plain {
        state,
        order: order_of(state),
    }
}

// The session that a set-up begins with, or its refusal.
pub fn begin(setup: Setup) -> Result<Plain, Refusal>
    ensures { plain_reply_from (ordered (fresh no_setup)) result ≡ plain_begin setup }
{
    let state = states::begin(setup)?;
    let order = order_of(state);
    Ok(Plain { state, order })
}

// The holder of the group of resource `r`, or nobody.
fn holder_of(state: State, r: u8) -> u8
    ensures { result ≡ (group state (group_of state.setup r)).holder }
{
    let names = setups::names_of(state.setup);
    let group = numbers::number_at(&names, usize::from(r));
    search::entry(&state.groups, usize::from(group), states::no_group()).holder
}

// The job of `t` has requested a resource: if it is suspended now, it leaves its processor.
fn requested(after: State, jobs: &OrderedJobs, p: Processors, t: u8) -> Processors
    ensures { result ≡ requested_in after jobs.now.order jobs.now.modes p t }
{
    match states::task_at(after.tasks, t).standing {
        Standing::Waiting(Lock::Long(_)) => jobs.leave(p, t),
        _ => p,
    }
}

// The job of `t` has completed its request for `r`. If it holds the group still, the request was an inner one. Else it
// becomes preemptable after a short one. After a long one it gives way, while the next holder is still asleep; then
// that resumes.
fn completed(after: State, jobs: &OrderedJobs, p: Processors, t: u8, r: u8) -> Processors
    ensures { result ≡ completed_in after jobs.now.order jobs.now.modes p t r }
{
    let holder = holder_of(after, r);
    if holder == t {
        return p;
    }
    if states::kind_at(after.setup.kinds, r) == Setup::SHORT {
        return become_preemptable(p, t);
    }
    let given = jobs.with_asleep(holder).give_way(p, t);
    if holder == Limit::NOBODY {
        given
    } else {
        jobs.arrive(given, holder)
    }
}

// The links and placements after an accepted event: `after` is the state with everything else done, `order` its order,
// and `p` has the links and placements before it.
fn placed(after: State, order: Order, p: Processors, e: Event) -> Processors
    ensures { result ≡ placed_in after order p e }
{
    let modes = priorities::modes_of(after.setup.kinds, after.tasks);
    let jobs = OrderedJobs { order, modes };
    match Kind::try_from(e.kind) {
        Ok(Kind::Arrival) => jobs.arrive(p, e.task),
        Ok(Kind::Finish) => jobs.leave(p, e.task),
        Ok(Kind::Request) => requested(after, &jobs, p, e.task),
        Ok(Kind::Completion) => completed(after, &jobs, p, e.task, e.resource),
        Ok(Kind::Passing) => p,
        Err(_) => p,
    }
}

// The session after an event, or the event's refusal, which leaves the session as it was. A session that is not in the
// order of its state is not sound.
pub fn step(x: Plain, e: Event) -> Result<Plain, Refusal>
    ensures { plain_reply_from x result ≡ plain_step x e }
{
    let Plain { state, order } = x;
    if order != order_of(state) {
        return Err(Refusal::NotSound);
    }
    let after = locking::unplaced(state, e)?;
    let now = order_of(after);
    let processors = placed(after, now, state.processors, e);
    Ok(Plain {
        state: State {
            processors,
            ..after
        },
        order: now,
    })
}
