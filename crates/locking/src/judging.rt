// The refusals 9 to 26 of an event.
ghost use Rattle.std.specs.Prelude.{◌≡◌, ◌≤◌, true, get_or, length};
ghost use Rattle.search.specs.Below.{any_below};
ghost use Rattle.numbers.specs.Answers.{answer_of};
ghost use Rattle.numbers.specs.Rows.{first_of};
ghost use Rattle.numbers.specs.Limits.{most_requests, nothing};
ghost use Rattle.protocol.specs.Refusals.{field_rows, judge};
ghost use Rattle.protocol.specs.declared.State.{State};
ghost use Rattle.locking.specs.Steps.{is_apart, clock_rows, arrival_rows, request_rows, completion_rows, kind_answer, parts_answer, HasParts};

use crate::clock::{clock_after, step_to};
use input::{Event, Setup};
use numbers::Refusal;
use processors::Processors;
use protocol::Task;

// The least step that goes backward.
const BACKWARD: u16 = 32768;

// The end of the exact clock.
const LAST_CLOCK: u64 = 4294967295;

// The refusals 10 to 13, which look at the event's fields alone.
fn judge_fields(tasks: usize, resources: usize, e: Event) -> Result<(), Refusal>
    ensures { answer_of result ≡ first_of (field_rows tasks resources e) }
{
    let uses = input::fields_of(e.kind);
    if (e.kind < Event::ARRIVAL) | (Event::PASSING < e.kind) {
        return Err(Refusal::EventUnknown);
    }
    if uses.task & (tasks <= e.task as usize) {
        return Err(Refusal::TaskUnknown);
    }
    if uses.resource & (resources <= e.resource as usize) {
        return Err(Refusal::ResourceUnknown);
    }
    if (!uses.task & (e.task != 0)) | (!uses.resource & (e.resource != 0)) {
        return Err(Refusal::FieldUnused);
    }
    Ok(())
}

// 14 and 15, which look at the clock alone.
fn judge_clock(clock: u32, tick: u16) -> Result<(), Refusal>
    ensures { answer_of result ≡ first_of (clock_rows clock tick) }
{
    if BACKWARD <= step_to(clock, tick) {
        return Err(Refusal::StepBackward);
    }
    if LAST_CLOCK < clock_after(clock, tick) {
        return Err(Refusal::ClockPastEnd);
    }
    Ok(())
}

// 16 and 17: an arrival at `now` of a task with this period.
fn judge_arrival(task: Task, now: u64, period: u16) -> Result<(), Refusal>
    ensures { answer_of result ≡ first_of (arrival_rows task now period) }
{
    if states::stand_of(task.standing) != Task::ABSENT {
        return Err(Refusal::AlreadyPending);
    }
    if task.arrived & (now < (task.last as u64) + (period as u64)) {
        return Err(Refusal::ArrivesEarly);
    }
    Ok(())
}

// `r` may not be requested while these are open: it is long while a short is open, or the same kind is open in another
// group.
fn is_misplaced(
    kinds: [u8; Setup::RESOURCES],
    naming: [u8; Setup::RESOURCES],
    requests: &[u8],
    r: u8,
) -> bool
    ensures { result ≡ any_below (length requests.now) (λ i. is_apart kinds naming r (get_or requests.now i nothing)) }
{
    let kind = states::kind_at(kinds, r);
    let group = numbers::number_at(&naming, r as usize);
    requests.iter().any(|q| {
        let other = states::kind_at(kinds, *q);
        ((kind == Setup::LONG) & (other == Setup::SHORT))
            | ((other == kind) & (numbers::number_at(&naming, *q as usize) != group))
    })
}

// 22 to 24: a request of `r`, with these open.
fn judge_request(
    kinds: [u8; Setup::RESOURCES],
    naming: [u8; Setup::RESOURCES],
    requests: &[u8],
    r: u8,
) -> Result<(), Refusal>
    ensures { answer_of result ≡ first_of (request_rows kinds naming requests.now r) }
{
    if requests.contains(&r) {
        return Err(Refusal::AlreadyOpen);
    }
    if is_misplaced(kinds, naming, requests, r) {
        return Err(Refusal::WronglyNested);
    }
    if requests.len() == Task::REQUESTS {
        return Err(Refusal::TooManyOpen);
    }
    Ok(())
}

// 25: a completion of `r`, with these open.
fn judge_completion(requests: &[u8], r: u8) -> Result<(), Refusal>
    ensures { answer_of result ≡ first_of (completion_rows requests.now r) }
{
    if requests.last() == Some(&r) {
        Ok(())
    } else {
        Err(Refusal::NotNewest)
    }
}

// 16 to 26: what the event's kind asks of its task. By the kind's number, as the rows compare it, some with a range.
fn judge_kind(
    setup: Setup,
    clock: u32,
    task: Task,
    p: Processors,
    naming: [u8; Setup::RESOURCES],
    e: Event,
) -> Result<(), Refusal>
    requires { task.depth ≤ most_requests }
    ensures { answer_of result ≡ kind_answer setup clock task p naming e }
{
    if e.kind == Event::ARRIVAL {
        let period = states::period_at(setup.periods, e.task);
        return judge_arrival(task, clock_after(clock, e.tick), period);
    }
    if (e.kind < Event::FINISH) | (Event::COMPLETION < e.kind) {
        return Ok(());
    }
    states::situation_refusal(states::situation_of(states::stand_of(task.standing), p, e.task))?;
    let requests = &task.requests[..task.depth];
    match e.kind {
        Event::REQUEST => judge_request(setup.kinds, naming, requests, e.resource),
        Event::COMPLETION => judge_completion(requests, e.resource),
        _ if requests.is_empty() => Ok(()),
        _ => Err(Refusal::FinishesOpen),
    }
}

// The first of 10 to 26 that applies, for a sound state, from what an event depends on.
fn judge_sound(
    setup: Setup,
    clock: u32,
    task: Task,
    p: Processors,
    naming: [u8; Setup::RESOURCES],
    e: Event,
) -> Result<(), Refusal>
    requires { task.depth ≤ most_requests }
    ensures { answer_of result ≡ parts_answer setup clock task p naming e }
{
    judge_fields(setup.tasks, setup.resources, e)?;
    judge_clock(clock, e.tick)?;
    judge_kind(setup, clock, task, p, naming, e)
}

// The first of 9 to 26 that applies, from what an event depends on: the set-up, the clock, the record of the event's
// task and the processors. They are passed apart, here and above, since a call has them from a state or from a session.
// `naming` has the name of each resource's group, and `sound` says whether the state is sound; if it is not, nothing
// else is read.
pub fn judge_parts(
    setup: Setup,
    clock: u32,
    task: Task,
    p: Processors,
    naming: [u8; Setup::RESOURCES],
    sound: bool,
    e: Event,
) -> Result<(), Refusal>
    requires { sound ≡ true → task.depth ≤ most_requests }
    ensures { (s : State) → HasParts s setup clock task p naming sound e → answer_of result ≡ judge s e }
{
    if sound {
        judge_sound(setup, clock, task, p, naming, e)
    } else {
        Err(Refusal::NotSound)
    }
}
