// A file in the making: what each item does to it, and the block that it writes, if any.
ghost use Rattle.std.specs.Prelude.{◌≡◌, ◌≢◌, ◌<◌, leb, MatchResult};
ghost use Rattle.numbers.specs.Limits.{most_tasks, most_resources, most_pairs};
ghost use Rattle.blocks.specs.Sizes.{most_events};
ghost use Rattle.scenario.specs.SetupItems.{with_task, with_resource, with_pair};
ghost use Rattle.scenario.specs.Drafts.{twice, full, no_events, adding, no_draft, sized_by, started_at, with_setup, settled, setup_ends, block_ends, event_taken, block_taken, taken};
ghost use Rattle.scenario.specs.Takings.{kept_from, taken_from};

use crate::setup_items::{with_pair, with_resource, with_task};
use crate::{Draft, Item, Reason, Taken, Trouble};
use input::{Event, Setup};
use writer::Events;

// No events yet.
fn no_events() -> Events
    ensures { result ≡ no_events }
{
    Events {
        of: [Event::NONE; Events::MOST],
        count: 0,
    }
}

// The events, and `e` after them. Its callers have made room, so it refuses nothing, as `put` of a set-up's tables may.
fn with_event(events: Events, e: Event) -> Events
    requires { events.count < most_events }
    ensures { result ≡ adding e events }
{
    let mut next = events;
    next.of[events.count] = e;
    next.count += 1;
    next
}

// A draft to which nothing is given yet.
pub fn begin() -> Draft
    ensures { result ≡ no_draft }
{
    Draft {
        setup: Setup::none(),
        sized: false,
        started: false,
        index: 0,
        events: no_events(),
    }
}

// ---- the items of the set-up: each fills fields of its own by a rule of its own, so that one function for several
// would take both as closures, and be no plainer
// The draft's set-up, which is open until the first event or `block`.
fn open_setup(draft: &Draft) -> Result<Setup, Reason>
    ensures { MatchResult result (λ setup. (draft.now.index ≡ 0) × (setup ≡ draft.now.setup))
        (λ reason. (draft.now.index ≢ 0) × (reason ≡ Reason.Late)) }
{
    if draft.index != 0 {
        return Err(Reason::Late);
    }
    Ok(draft.setup)
}

// The processors, which come once.
#[tactic(auto, unfolding(crate::specs::Drafts::settled))]
fn take_processors(draft: Draft, n: u32) -> Result<Draft, Reason>
    ensures { kept_from draft result ≡ settled draft twice draft.sized (sized_by draft n) }
{
    let mut setup = open_setup(&draft)?;
    if draft.sized {
        return Err(Reason::Twice);
    }
    setup.processors = n as usize;
    Ok(Draft {
        setup,
        sized: true,
        ..draft
    })
}

// The start, which comes at most once.
#[tactic(auto, unfolding(crate::specs::Drafts::settled))]
fn take_start(draft: Draft, start: u32) -> Result<Draft, Reason>
    ensures { kept_from draft result ≡ settled draft twice draft.started (started_at draft start) }
{
    let mut setup = open_setup(&draft)?;
    if draft.started {
        return Err(Reason::Twice);
    }
    setup.start = start;
    Ok(Draft {
        setup,
        started: true,
        ..draft
    })
}

// One task more.
#[tactic(auto, unfolding(crate::specs::Drafts::settled))]
fn take_task(draft: Draft, period: u16) -> Result<Draft, Reason>
    ensures { kept_from draft result ≡ settled draft full (leb most_tasks draft.setup.tasks)
        (with_setup draft (with_task draft.setup period)) }
{
    let setup = with_task(open_setup(&draft)?, period)?;
    Ok(Draft { setup, ..draft })
}

// One resource more.
#[tactic(auto, unfolding(crate::specs::Drafts::settled))]
fn take_resource(draft: Draft, kind: u8) -> Result<Draft, Reason>
    ensures { kept_from draft result ≡ settled draft full (leb most_resources draft.setup.resources)
        (with_setup draft (with_resource draft.setup kind)) }
{
    let setup = with_resource(open_setup(&draft)?, kind)?;
    Ok(Draft { setup, ..draft })
}

// One pair more.
#[tactic(auto, unfolding(crate::specs::Drafts::settled))]
fn take_pair(draft: Draft, outer: u8, inner: u8) -> Result<Draft, Reason>
    ensures { kept_from draft result ≡ settled draft full (leb most_pairs draft.setup.pairs)
        (with_setup draft (with_pair draft.setup outer inner)) }
{
    let setup = with_pair(open_setup(&draft)?, outer, inner)?;
    Ok(Draft { setup, ..draft })
}

// ---- the blocks
// The set-up ends, and block 1 begins with these events.
#[tactic(auto, unfolding(crate::specs::Drafts::setup_ends, crate::specs::Drafts::answered))]
fn end_setup(draft: Draft, events: Events, out: &mut [u8]) -> Result<Taken, Trouble>
    ensures { (taken_from draft result, out.new) ≡ setup_ends draft events out.old }
{
    if !draft.sized {
        return Err(Trouble::from(Reason::Missing));
    }
    writer::write_setup(draft.setup, out)?;
    Ok(Taken::Written(Draft {
        index: 1,
        events,
        ..draft
    }))
}

// A block of events ends, and the next one begins with these.
#[tactic(auto, unfolding(crate::specs::Drafts::block_ends, crate::specs::Drafts::answered))]
fn end_block(draft: Draft, events: Events, out: &mut [u8]) -> Result<Taken, Trouble>
    ensures { (taken_from draft result, out.new) ≡ block_ends draft events out.old }
{
    writer::write_events(draft.events, draft.index, out)?;
    // The index of a written block is within its limit, so adding 1 does not overflow.
    Ok(Taken::Written(Draft {
        index: draft.index + 1,
        events,
        ..draft
    }))
}

// An event. The first one ends the set-up, and one that finds its block full ends that block.
#[tactic(auto, unfolding(crate::specs::Drafts::event_taken))]
fn take_event(draft: Draft, e: Event, out: &mut [u8]) -> Result<Taken, Trouble>
    ensures { (taken_from draft result, out.new) ≡ event_taken draft e out.old }
{
    if draft.index == 0 {
        return end_setup(draft, with_event(no_events(), e), out);
    }
    if Events::MOST <= draft.events.count {
        return end_block(draft, with_event(no_events(), e), out);
    }
    Ok(Taken::Kept(Draft {
        events: with_event(draft.events, e),
        ..draft
    }))
}

// The next block begins; one without events is not written.
#[tactic(auto, unfolding(crate::specs::Drafts::block_taken))]
fn take_block(draft: Draft, out: &mut [u8]) -> Result<Taken, Trouble>
    ensures { (taken_from draft result, out.new) ≡ block_taken draft out.old }
{
    if draft.index == 0 {
        return end_setup(draft, no_events(), out);
    }
    if draft.events.count == 0 {
        return Ok(Taken::Kept(draft));
    }
    end_block(draft, no_events(), out)
}

// Takes an item. The block that it completes, if any, is written into `out`; otherwise `out` stays as lent.
#[tactic(auto, unfolding(crate::specs::Drafts::taken))]
pub fn take_item(draft: Draft, item: Item, out: &mut [u8]) -> Result<Taken, Trouble>
    ensures { (taken_from draft result, out.new) ≡ taken draft item out.old }
{
    match item {
        Item::Blank => Ok(Taken::Kept(draft)),
        Item::Processors(n) => Ok(Taken::Kept(take_processors(draft, n)?)),
        Item::Start(start) => Ok(Taken::Kept(take_start(draft, start)?)),
        Item::Task(period) => Ok(Taken::Kept(take_task(draft, period)?)),
        Item::Resource(kind) => Ok(Taken::Kept(take_resource(draft, kind)?)),
        Item::Pair(outer, inner) => Ok(Taken::Kept(take_pair(draft, outer, inner)?)),
        Item::Happens(e) => take_event(draft, e, out),
        Item::Block => take_block(draft, out),
        Item::Wrong(reason) => Err(Trouble::Faulty(reason)),
    }
}
